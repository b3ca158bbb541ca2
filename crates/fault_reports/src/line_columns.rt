//! Lines and columns of a text, both from 1, columns in characters.
ghost use Rattle.fault_reports.specs.LineColumns.{IsNumbered, IsPlacedIn, offset_of, place_behind};
ghost use Rattle.std.specs.List.Sorted.{IsNonDecreasingBy};
ghost use Rattle.std.specs.Prelude.{◌≡◌, ◌+◌, ◌^◌, ◌<◌, ◌≤◌, [], ◌∷◌, ◌++◌, ℕ, All, IfOk, List, Some, length, slice_get, take, vec_len};

use faults::OutOfMemory;
use std::alloc::Global;

/// A place in a text.
#[derive(Clone, Copy, PartialEq, Eq, Debug, Drop)]
pub struct LineColumn {
    pub line: usize,
    pub column: usize,
}

impl LineColumn {
    /// That of the first character.
    pub fn first() -> LineColumn
        ensures { result ≡ place_behind [] }
    {
        LineColumn { line: 1, column: 1 }
    }

    /// The place behind a byte, of which those within a character change nothing.
    fn after(self, byte: u8) -> LineColumn
        ensures { (text : List ℕ) → length text < 2 ^ 63 → self ≡ place_behind text → result ≡ place_behind (text ++ byte ∷ []) }
    {
        match byte {
            b'\n' => LineColumn {
                line: self.line.saturating_add(1),
                column: 1,
            },
            0x80..=0xbf => self,
            _ => LineColumn {
                line: self.line,
                column: self.column.saturating_add(1),
            },
        }
    }
}

/// The place behind some bytes more.
fn place_after(place: LineColumn, bytes: &[u8]) -> LineColumn
    ensures { (text : List ℕ) → length text + length bytes.now < 2 ^ 63 → place ≡ place_behind text → result ≡ place_behind (text ++ bytes.now) }
{
    let mut place = place;
    for byte in bytes {
        place = place.after(*byte);
    }
    place
}

/// The place of a byte of a text, or of its end.
pub fn place_at(text: &[u8], at: usize) -> LineColumn
    ensures { at ≤ length text.now → result ≡ place_behind (take at text.now) }
{
    place_after(LineColumn::first(), text.get(..at).unwrap_or(text))
}

/// The place of each of some bytes of a text, found in one pass.
///
/// # Errors
/// Where memory is refused.
pub fn line_columns(
    alloc: Global,
    text: &[u8],
    offsets: &[usize],
) -> Result<Vec<LineColumn>, OutOfMemory>
    ensures len { IfOk result (λ v. vec_len v ≡ length offsets.now) }
    ensures places { IfOk result (λ v. (n o : ℕ) → slice_get offsets.now n ≡ Some o → o ≤ length text.now → slice_get v.items n ≡ Some (place_behind (take o text.now))) }
{
    let mut sorted = Vec::with_capacity(alloc, offsets.len())?;
    for (number, offset) in offsets.iter().enumerate() {
        sorted.push((*offset, number))?;
    }
    sorted.sort_unstable();
    places_in_order(alloc, text, sorted.as_slice())
}

/// The lines and columns of offsets in their order, each with its number.
fn places_in_order(
    alloc: Global,
    text: &[u8],
    sorted: &[(usize, usize)],
) -> Result<Vec<LineColumn>, OutOfMemory>
    ensures len { IfOk result (λ v. vec_len v ≡ length sorted.now) }
    ensures places { IfOk result (λ v. (offsets : List ℕ) → All (IsNumbered offsets) sorted.now → IsNonDecreasingBy offset_of sorted.now → All (IsPlacedIn text.now v.items) sorted.now) }
{
    let mut places = Vec::new(alloc);
    places.resize(sorted.len(), LineColumn::first())?;
    let mut here = LineColumn::first();
    let mut passed = 0;
    for (offset, number) in sorted {
        if let Some(between) = text.get(passed..*offset) {
            here = place_after(here, between);
            passed = *offset;
        }
        if let Some(place) = places.get_mut(*number) {
            *place = here;
        }
    }
    Ok(places)
}
