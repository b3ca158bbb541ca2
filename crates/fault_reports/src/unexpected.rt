//! Where a text that is no JSON stops being it: found in one pass along the tokens.
ghost use Rattle.std.specs.Prelude.{◌<◌, ◌≤◌, IfOk, OnOk, length};

use crate::places::DEEPEST;
use faults::OutOfMemory;
use json::{Reader, Scratch, Token};
use std::alloc::Global;

/// The comma or the colon before a byte, which a reader passes with the token before it, or else the byte.
fn mark_before(bytes: &[u8], at: usize) -> usize {
    match bytes.get(..at).unwrap_or(bytes).trim_ascii_end() {
        [before @ .., b',' | b':'] => before.len(),
        _ => at,
    }
}

/// Passes a key, or the brace that closes an object, and says whether it was a key. Fails with where a token begins
/// that can't be there.
fn pass_key<'a>(bytes: &[u8], reader: &mut Reader<'a>) -> Result<bool, usize>
    ensures shorter { OnOk result (length reader.new < length reader.old) }
{
    let at = reader.offset();
    match reader.next() {
        Some(Token::Key(_)) => Ok(true),
        Some(Token::EndObject) => Ok(false),
        Some(Token::String(_)) => Err(mark_before(bytes, reader.offset())),
        _ => Err(at),
    }
}

/// Passes a value, below which others may nest `left` deep. Fails with where a token begins that can't be there.
fn pass_value<'a>(bytes: &[u8], reader: &mut Reader<'a>, left: usize) -> Result<(), usize>
    ensures shorter { OnOk result (length reader.new < length reader.old) }
{
    let at = reader.offset();
    match reader.next() {
        Some(Token::String(_) | Token::Bool(_) | Token::Null) => Ok(()),
        Some(Token::Number(text)) if text.parse::<f64>().is_ok_and(|it| it.is_finite()) => Ok(()),
        Some(Token::BeginArray) if left > 0 => {
            'items: while !reader.take_end_array() {
                pass_value(bytes, reader, left - 1)?;
            }
            Ok(())
        }
        Some(Token::BeginObject) if left > 0 => {
            'members: while pass_key(bytes, reader)? {
                pass_value(bytes, reader, left - 1)?;
            }
            Ok(())
        }
        Some(Token::Key(_)) => Err(mark_before(bytes, reader.offset())),
        _ => Err(at),
    }
}

/// The byte at which a text stops being JSON: where the first token begins that can't be there, or the last byte of a
/// text that is cut off, unless it ends a line.
///
/// # Errors
/// Where memory is refused.
pub fn unexpected_token(alloc: Global, bytes: &[u8]) -> Result<usize, OutOfMemory>
    ensures { IfOk result (λ at. at ≤ length bytes.now) }
{
    let at = match std::str::from_utf8(bytes) {
        Ok(text) => {
            let mut scratch = Scratch::new(alloc);
            let mut reader = Reader::new(text, &mut scratch)?;
            match pass_value(bytes, &mut reader, DEEPEST) {
                Ok(()) => mark_before(bytes, reader.offset()),
                Err(at) => at,
            }
        }
        Err(error) => error.valid_up_to(),
    };
    match bytes {
        [front @ .., last] if at >= bytes.len() && *last != b'\n' => Ok(front.len()),
        _ => Ok(at.min(bytes.len())),
    }
}
