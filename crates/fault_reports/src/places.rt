//! Where the value of each error begins, in bytes: found in one pass along the tokens.
ghost use Rattle.fault_reports.specs.FaultPlaces.{AreUpTo};
ghost use Rattle.std.specs.Prelude.{◌≡◌, ◌<◌, ◌≤◌, IfOk, IfSome, length, vec_len, ℕ};

use crate::steps::{Range, Sought, through};
use faults::{Fault, OutOfMemory};
use json::{Reader, Scratch, Token};
use std::alloc::Global;

/// How deep values may nest in `serde_json`.
pub const DEEPEST: usize = 127;

/// A text, and its errors by path.
#[derive(Clone, Copy)]
struct FaultyText<'t> {
    bytes: &'t [u8],
    faults: &'t [Fault],
}

/// The first byte from here on that is no blank, comma or colon, or the end.
fn next_value(bytes: &[u8], from: usize) -> usize
    ensures { result ≤ length bytes.now }
{
    let mut at = from.min(bytes.len());
    'blanks: while at < bytes.len() {
        match bytes[at] {
            b' ' | b'\t' | b'\r' | b'\n' | b',' | b':' => at += 1,
            _ => return at,
        }
    }
    at
}

/// Errors of these begin here.
fn put_place(places: &mut [usize], range: Range, at: usize)
    ensures { (n : ℕ) → at ≤ n → AreUpTo n places.old → AreUpTo n places.new }
{
    if range.from <= range.to && range.to <= places.len() {
        places[range.from..range.to].fill(at);
    }
}

/// Whether errors of a range lie further inside than a value itself. Those of the value come first.
fn is_inside(faults: &[Fault], range: Range) -> bool {
    match faults.get(range.to.saturating_sub(1)) {
        Some(fault) => fault.path.as_slice().len() > range.depth,
        None => false,
    }
}

/// Places the errors that lie in the next value, below which others may nest `left` deep: at its beginning those of which
/// nothing inside is the place, as of a missing member. None where the text ends before.
#[cycle(place)]
fn place_value<'a>(
    text: &FaultyText,
    reader: &mut Reader<'a>,
    places: &mut [usize],
    range: Range,
    left: usize,
) -> Option<()>
    ensures shorter { IfSome result (λ _. length reader.new < length reader.old) }
    ensures within { AreUpTo (length text.now.bytes.now) places.old → AreUpTo (length text.now.bytes.now) places.new }
{
    if range.is_empty() || left == 0 {
        return reader.skip_value(DEEPEST).ok();
    }
    put_place(places, range, next_value(text.bytes, reader.offset()));
    if !is_inside(text.faults, range) {
        return reader.skip_value(DEEPEST).ok();
    }
    match reader.next()? {
        Token::BeginObject => place_members(text, reader, places, range, left - 1),
        Token::BeginArray => place_items(text, reader, places, range, left - 1),
        _ => Some(()),
    }
}

#[cycle(place)]
fn place_members<'a>(
    text: &FaultyText,
    reader: &mut Reader<'a>,
    places: &mut [usize],
    range: Range,
    left: usize,
) -> Option<()>
    ensures shorter { IfSome result (λ _. length reader.new < length reader.old) }
    ensures within { AreUpTo (length text.now.bytes.now) places.old → AreUpTo (length text.now.bytes.now) places.new }
{
    'members: loop {
        let Some(key) = reader.next_key().ok()? else {
            return Some(());
        };
        let within = through(text.faults, range, Sought::Name(key));
        place_value(text, reader, places, within, left)?;
    }
}

#[cycle(place)]
fn place_items<'a>(
    text: &FaultyText,
    reader: &mut Reader<'a>,
    places: &mut [usize],
    range: Range,
    left: usize,
) -> Option<()>
    ensures shorter { IfSome result (λ _. length reader.new < length reader.old) }
    ensures within { AreUpTo (length text.now.bytes.now) places.old → AreUpTo (length text.now.bytes.now) places.new }
{
    let mut index = 0usize;
    'items: while !reader.take_end_array() {
        let within = through(text.faults, range, Sought::Index(index));
        place_value(text, reader, places, within, left)?;
        index = index.saturating_add(1);
    }
    Some(())
}

/// The byte of a text at which the value of each error begins; at a missing member that of its object. The errors are
/// sorted by path.
///
/// # Errors
/// Where memory is refused.
pub fn places(alloc: Global, text: &str, faults: &[Fault]) -> Result<Vec<usize>, OutOfMemory>
    ensures len { IfOk result (λ v. vec_len v ≡ length faults.now) }
    ensures within { IfOk result (λ v. AreUpTo (length text.now) v.items) }
{
    let mut places = Vec::new(alloc);
    places.resize(faults.len(), 0)?;
    let mut scratch = Scratch::new(alloc);
    let mut reader = Reader::new(text, &mut scratch)?;
    let all = Range {
        from: 0,
        to: faults.len(),
        depth: 0,
    };
    let text = FaultyText {
        bytes: text.as_bytes(),
        faults,
    };
    let _ = place_value(&text, &mut reader, places.as_mut_slice(), all, DEEPEST);
    Ok(places)
}
