//! The texts of a file: one, or those of a sequence.
ghost use Rattle.rounded_maps.specs.Sequences.{is_blank, parts_behind, parts_of, records_of, separator_of, texts_in, without_mark};
ghost use Rattle.std.specs.Prelude.{◌≡◌, ◌<◌, ◌∷◌, IfOk, IfSome, length, map, option_map};

use faults::OutOfMemory;
use std::alloc::Global;

/// The byte order mark in UTF-8.
const MARK: [u8; 3] = [0xEF, 0xBB, 0xBF];

/// What begins each text of a sequence (RFC 7464).
const RECORD_SEPARATOR: u8 = 30;

const LINE_FEED: u8 = 10;

/// The bytes of a file, and whether they are a sequence of texts: lines, or texts that a record separator begins (RFC 8142).
#[derive(Drop)]
pub struct Source<T> {
    pub bytes: T,
    pub is_sequence: bool,
    /// Whether the caller's name counts for the only object of a topology.
    pub is_named: bool,
}

/// The bytes behind a byte order mark in front.
pub(crate) fn skip_mark(bytes: &[u8]) -> &[u8]
    ensures { result.now ≡ without_mark bytes.now }
{
    match bytes.strip_prefix(&MARK) {
        Some(rest) => rest,
        None => bytes,
    }
}

/// What is between the texts of a sequence: record separators where it begins with one, else line feeds.
fn separator_in(bytes: &[u8]) -> u8
    ensures { result ≡ separator_of bytes.now }
{
    match bytes.first() {
        Some(first) => if *first == RECORD_SEPARATOR {
            RECORD_SEPARATOR
        } else {
            LINE_FEED
        },
        None => LINE_FEED,
    }
}

/// Whether a part of a sequence is no text, but JSON white space alone (RFC 8259, section 2).
fn is_empty_part(part: &[u8]) -> bool
    ensures { result ≡ is_blank part.now }
{
    for byte in part {
        match *byte {
            b' ' | b'\t' | b'\n' | b'\r' => {}
            _ => return false,
        }
    }
    true
}

/// The part before the first separator, and the bytes behind that, if there is one.
fn first_part(bytes: &[u8], separator: u8) -> (&[u8], Option<&[u8]>)
    ensures parts { parts_of separator bytes.now ≡ result.0.now ∷ parts_behind separator (option_map (λ b. b.now) result.1) }
    ensures shorter { IfSome result.1 (λ b. length b.now < length bytes.now) }
{
    for i in 0..bytes.len() {
        if bytes[i] == separator {
            return (&bytes[..i], Some(&bytes[i + 1..]));
        }
    }
    (bytes, None)
}

/// The texts of a sequence.
fn records<'t>(alloc: Global, bytes: &'t [u8]) -> Result<Vec<&'t [u8]>, OutOfMemory>
    ensures { IfOk result (λ texts. map (λ t. t.now) texts.items ≡ records_of bytes.now) }
{
    let separator = separator_in(bytes);
    let mut texts = Vec::new(alloc);
    let mut left = Some(bytes);
    while let Some(bytes) = left {
        let (part, behind) = first_part(bytes, separator);
        if !is_empty_part(part) {
            texts.push(part)?;
        }
        left = behind;
    }
    Ok(texts)
}

/// The texts of a file, behind a byte order mark: those of a sequence, or the one that it is.
///
/// # Errors
/// Where memory is refused.
pub fn texts_of<'t>(
    alloc: Global,
    bytes: &'t [u8],
    is_sequence: bool,
) -> Result<Vec<&'t [u8]>, OutOfMemory>
    ensures { IfOk result (λ texts. map (λ t. t.now) texts.items ≡ texts_in is_sequence bytes.now) }
{
    let bytes = skip_mark(bytes);
    if is_sequence {
        return records(alloc, bytes);
    }
    let mut texts = Vec::new(alloc);
    texts.push(bytes)?;
    Ok(texts)
}
