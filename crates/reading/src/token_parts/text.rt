//! Whole texts, and strings that have to be one word.
ghost use Rattle.reading.specs.Tokens.Reads.{Gives};
ghost use Rattle.serde_json.specs.Data.{Data, string};
ghost use Rattle.serde_json.specs.Read.{read};
ghost use Rattle.std.specs.Prelude.{◌≡◌, ◌<◌, ℕ, [], length, Some, IfOk, OnOk};
ghost use Rattle.reading.specs.TokenParts.Text.{ReadsText};

use crate::tokens::from_tokens::{FromTokens, Stop};
use json::{Reader, Scratch, Token};
use std::alloc::Global;

// How deep values may nest in `serde_json`.
const MAX_DEPTH: usize = 127;

// What the value of a whole text means, which is UTF-8.
fn read_str<P: FromTokens>(alloc: Global, part: &P, text: &str) -> Result<P::Made, Stop>
    ensures { IfOk result (λ x. (d : Data) × (read text.now ≡ Some d) × (P.faults part.now d ≡ []) × P.means part.now d x) }
{
    let mut scratch = Scratch::new(alloc);
    let Ok(mut reader) = Reader::new(text, &mut scratch) else {
        return Err(Stop::OutOfMemory);
    };
    let made = part.read(alloc, &mut reader, MAX_DEPTH)?;
    if reader.next().is_some() {
        return Err(Stop::Unread);
    }
    Ok(made)
}

/// Reads a whole text as one such part, and gives what it means.
///
/// # Errors
/// `Unread` where the text is not UTF-8, where more is behind the value, and where the part's
/// reader stops.
pub fn read_text<P: FromTokens>(alloc: Global, part: &P, bytes: &[u8]) -> Result<P::Made, Stop>
    ensures { IfOk result (ReadsText (P.faults part.now) (P.means part.now) bytes.now) }
{
    match simdutf8::compat::from_utf8(bytes) {
        Ok(text) => read_str(alloc, part, text),
        Err(_) => Err(Stop::Unread),
    }
}

/// Takes a string, which has to be this word.
pub fn take_text<'a>(reader: &mut Reader<'a>, word: &str) -> Result<(), Stop>
    ensures read { OnOk result ((depth : ℕ) → Gives depth reader.old (string word.now) reader.new) }
    ensures shorter { OnOk result (length reader.new < length reader.old) }
{
    let Some(token) = reader.next() else {
        return Err(Stop::Unread);
    };
    let Token::String(text) = token else {
        return Err(Stop::Unread);
    };
    if text == word {
        Ok(())
    } else {
        Err(Stop::Unread)
    }
}
