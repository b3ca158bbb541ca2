//! Arrays of parts.
ghost use Rattle.reading.specs.Tokens.Reads.{ReadsArray, ReadsRest};
ghost use Rattle.std.specs.Prelude.{◌<◌, length, IfOk, OnOk};

use crate::tokens::from_tokens::{FromTokens, Stop};
use crate::tokens::token::take_begin_array;
use json::Reader;
use std::alloc::Global;

/// Reads the rest of an array, up to its end, and puts its parts behind those that were found before.
pub fn read_rest<'a, P: FromTokens>(
    alloc: Global,
    part: &P,
    reader: &mut Reader<'a>,
    depth: usize,
    mut found: Vec<P::Made>,
) -> Result<Vec<P::Made>, Stop>
    ensures read { IfOk result (λ xs. ReadsRest (P.faults part.now) (P.means part.now) depth reader.old reader.new found.items xs.items) }
    ensures shorter { OnOk result (length reader.new < length reader.old) }
{
    'items: while !reader.take_end_array() {
        let made = part.read(alloc, reader, depth)?;
        match found.push(made) {
            Ok(()) => {}
            Err(_) => return Err(Stop::OutOfMemory),
        }
    }
    Ok(found)
}

/// Reads an array of such parts.
pub fn read_array<'a, P: FromTokens>(
    alloc: Global,
    part: &P,
    reader: &mut Reader<'a>,
    depth: usize,
) -> Result<Vec<P::Made>, Stop>
    ensures read { IfOk result (λ xs. ReadsArray (P.faults part.now) (P.means part.now) depth reader.old reader.new xs.items) }
    ensures shorter { OnOk result (length reader.new < length reader.old) }
{
    take_begin_array(reader, depth)?;
    read_rest(alloc, part, reader, depth - 1, Vec::new(alloc))
}
