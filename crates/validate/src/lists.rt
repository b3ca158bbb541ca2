//! Lists of used arcs: which are valid as a line's, and which as a ring's.
ghost use Rattle.chains.specs.OfArcs.{table_as_map};
ghost use Rattle.lines.specs.Turned.{position_cmp};
ghost use Rattle.validate.specs.Lists as spec;
ghost use Rattle.validate.specs.Lists.{IsValidLine, IsValidRing};
ghost use Rattle.arcs.specs.ArcMarks.{marks_set};
ghost use Rattle.validate.specs.ArcEnds.{line_ends};
ghost use Rattle.std.specs.Prelude.{◌≡◌, ◌↔◌, [], ◌∷◌, length, true, IfSome, IsSome};

use crate::chaining::run;
use crate::ring_starts::starts_least;
use crate::used_arcs::ArcsUsed;
use chains::table::{ArcRef, ArcTable};
use grid::pos::Pos;

fn none_free(table: &ArcTable, refs: &[ArcRef]) -> bool
    ensures { result ≡ spec.none_free table.now refs.now }
{
    for used in refs {
        if table.is_free(used.arc) {
            return false;
        }
    }
    true
}

/// Where a line begins and ends whose list of used arcs is valid; `None` exactly where it isn't. It
/// is valid where it is not empty, each arc begins where the one before it ends, none occurs in it twice,
/// and none is a free loop. Its arcs are added to those that are used.
#[tactic(auto, using(arcs::proofs::SetMarks::marks_set_long))]
pub fn line_run(table: &ArcTable, used: &mut ArcsUsed, refs: &[ArcRef]) -> Option<(Pos, Pos)>
    requires { length used.old ≡ length table.now.arcs }
    ensures stands { IsSome result ↔ IsValidLine table.now.arcs (table_as_map table.now) refs.now }
    ensures ends { IfSome result (λ e. line_ends table.now.arcs refs.now ≡ e.0 ∷ (e.1 ∷ [])) }
    ensures used { used.new ≡ marks_set true used.old refs.now }
    ensures len { length used.new ≡ length used.old }
{
    if !used.add(refs) {
        return None;
    }
    let Some(ends) = run(table, refs) else {
        return None;
    };
    if none_free(table, refs) {
        return Some(ends);
    }
    None
}

/// Whether used arcs run back to where they begin.
fn goes_round(table: &ArcTable, refs: &[ArcRef]) -> bool
    ensures { (result ≡ true) ↔ spec.GoesRound table.now.arcs refs.now }
{
    match run(table, refs) {
        Some((start, end)) => start == end,
        None => false,
    }
}

/// Whether a list of used arcs is valid as a ring's: each arc begins where the one before it ends, and
/// the first where the last does, none occurs in it twice, and none starts, by its first two vertices,
/// before the first. Its arcs are added to those that are used.
#[tactic(auto, using(arcs::proofs::SetMarks::marks_set_long))]
pub fn is_valid_ring(table: &ArcTable, used: &mut ArcsUsed, refs: &[ArcRef]) -> bool
    requires { length used.old ≡ length table.now.arcs }
    ensures stands { (result ≡ true) ↔ IsValidRing position_cmp table.now.arcs refs.now }
    ensures used { used.new ≡ marks_set true used.old refs.now }
    ensures len { length used.new ≡ length used.old }
{
    if !used.add(refs) {
        return false;
    }
    if !goes_round(table, refs) {
        return false;
    }
    starts_least(table, refs)
}
