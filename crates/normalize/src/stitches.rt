//! Whether used arcs stitch to positions that are given.
ghost use Rattle.normalize.specs.Pieces.{StitchOn};
ghost use Rattle.std.specs.Prelude.{◌≡◌, ◌∷◌, IfSome, List, true};
ghost use Rattle.theory.specs.ArcNumbers as numbers;
ghost use Rattle.theory.specs.ArcNumbers.{StitchTo};

use chains::{ArcRef, ArcTable};
use grid::pos::Pos;
use topo::ArcSlice;

/// What is left of some positions from the last one along a used arc on, where they go on along it.
fn rest_along<'a>(table: &ArcTable, used: ArcRef, left: &'a [Pos]) -> Option<&'a [Pos]>
    ensures { IfSome result (λ rest. (more : List numbers.ArcRef) → StitchOn table.now.arcs more rest.now → StitchOn table.now.arcs (used ∷ more) left.now) }
{
    let run = ArcSlice::of_arc(table, used);
    let count = run.len();
    if count == 0 || count > left.len() {
        return None;
    }
    if !run.is_along(&left[..count]) {
        return None;
    }
    Some(&left[count - 1..])
}

/// Whether used arcs, of which there is one at least, stitch to these positions.
pub(crate) fn stitch_to(table: &ArcTable, refs: &[ArcRef], positions: &[Pos]) -> bool
    ensures { result ≡ true → StitchTo table.now.arcs refs.now positions.now }
{
    if refs.is_empty() {
        return false;
    }
    let mut left = positions;
    let mut others = refs;
    while let Some((used, more)) = others.split_first() {
        let Some(rest) = rest_along(table, *used, left) else {
            return false;
        };
        left = rest;
        others = more;
    }
    left.len() == 1
}
