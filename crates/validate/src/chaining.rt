//! Where lists of used arcs begin and end, by the ends of the arcs alone.
ghost use Rattle.arcs.specs.Ends as ends;
ghost use Rattle.grid.specs.declared.pos.Pos.{Pos};
ghost use Rattle.validate.specs.Chaining as spec;
ghost use Rattle.std.specs.Prelude.{◌≡◌, IfNone, IfSome, []};
ghost use Rattle.theory.specs.Validity.{Runs};

use crate::numbered_arcs::NumberedArcs;
use arcs::ends::ends_in;
use chains::table::ArcRef;
use grid::pos::Pos;

/// The first and the last vertex along a used arc; `None` where no arc has its number.
pub fn ends_along<A: NumberedArcs>(arcs: &A, used: ArcRef) -> Option<(Pos, Pos)>
    ensures { result ≡ ends.ends_along (A.arcs arcs.now) used }
{
    match arcs.arc(used.arc) {
        Some(arc) => ends_in(arc, used.reversed),
        None => None,
    }
}

/// Where a used arc leads from a vertex; `None` where it doesn't begin there.
fn next_from<A: NumberedArcs>(arcs: &A, here: Pos, used: ArcRef) -> Option<Pos>
    ensures { result ≡ spec.next_from here (ends.ends_along (A.arcs arcs.now) used) }
{
    match ends_along(arcs, used) {
        Some((first, last)) => { if first == here { Some(last) } else { None } }
        None => None,
    }
}

/// Where used arcs end of which the first begins at a vertex, and each other where the one before it
/// ends; `None` where they don't.
fn run_from<A: NumberedArcs>(arcs: &A, start: Pos, refs: &[ArcRef]) -> Option<Pos>
    ensures { result ≡ spec.run_from (A.arcs arcs.now) start refs.now }
{
    let mut here = start;
    for used in refs {
        match next_from(arcs, here, *used) {
            Some(next) => here = next,
            None => return None,
        }
    }
    Some(here)
}

/// Where a list of used arcs begins.
fn start_of<A: NumberedArcs>(arcs: &A, refs: &[ArcRef]) -> Option<Pos>
    ensures { result ≡ spec.start_of (A.arcs arcs.now) refs.now }
{
    match refs.first() {
        Some(first) => match ends_along(arcs, *first) {
            Some((start, _)) => Some(start),
            None => None,
        },
        None => None,
    }
}

/// Where a list of used arcs begins and ends; `None` exactly where it is empty, or some arc of it
/// doesn't begin where the one before it ends.
pub fn run<A: NumberedArcs>(arcs: &A, refs: &[ArcRef]) -> Option<(Pos, Pos)>
    ensures runs { IfSome result (λ e. Runs (A.arcs arcs.now) e.0 refs.now e.1) }
    ensures some { IfSome result (λ _. ¬ (refs.now ≡ [])) }
    ensures none { IfNone result ((v w : Pos) → ¬ (refs.now ≡ []) → ¬ Runs (A.arcs arcs.now) v refs.now w) }
{
    let Some(start) = start_of(arcs, refs) else {
        return None;
    };
    match run_from(arcs, start, refs) {
        Some(end) => Some((start, end)),
        None => None,
    }
}
