//! Joining the arcs that are left of a table. Only the ends of arcs are looked at: they say which arc
//! goes on from another, and walks along these give the runs that the new arcs are joined of.
ghost use Rattle.arcs.specs.Pieces.{chain_of};
ghost use Rattle.arcs.specs.Table.{AreLoopsOf, located};
ghost use Rattle.grid.specs.declared.pos.Pos.{Pos};
ghost use Rattle.lines.specs.Turned.{list_cmp};
ghost use Rattle.split_heal.specs.HealedArcs.{put_all};
ghost use Rattle.split_heal.specs.Healing.{IsLeftBy, IsHealedOf};
ghost use Rattle.std.specs.Prelude.{◌≡◌, [], IfOk, length, map, replicate};
ghost use Rattle.theory.specs.Arcs.{AreSortedOnce};
ghost use Rattle.theory.specs.Geometry.{Geometry};

use crate::choosing::numbers_of;
use crate::healed_arcs::{JoinedRuns, by_numbers, joined_of};
use crate::healed_lists::HealedArcs;
use crate::pseudo_nodes::PseudoNodes;
use crate::walking::runs_of;
use chains::table::ArcTable;
use faults::OutOfMemory;
use grid::pos::Pos;
use std::alloc::Global;

/// The table of joined arcs, and the old arcs of each by its number, of which there were so many.
fn from_joined(alloc: Global, joined: JoinedRuns, count: usize) -> Result<HealedArcs, OutOfMemory>
    ensures arcs { IfOk result (λ r. AreSortedOnce list_cmp (map chain_of joined.pieces.items) r.arcs.arcs) }
    ensures loops { IfOk result (λ r. AreLoopsOf joined.pieces.items r.arcs.loops) }
    ensures pieces { IfOk result (λ r. r.pieces ≡ put_all (map (located r.arcs.arcs) joined.pieces.items) joined.lists.items (replicate (length r.arcs.arcs) [])) }
{
    let JoinedRuns { pieces, lists } = joined;
    let (arcs, refs) = ArcTable::with_refs(alloc, pieces)?;
    let lists = by_numbers(alloc, &refs, lists, arcs.len())?;
    Ok(HealedArcs::from_parts(alloc, arcs, lists, count)?)
}

/// The arcs that are left of a table when some are taken out: those that stay, joined where no
/// junction is left. `kept` says of each old arc whether it is used by what is left, and `ends` has
/// the vertices at which a line that is left begins or ends.
///
/// # Errors
/// Where memory is refused.
pub fn heal(
    alloc: Global,
    old: &ArcTable,
    kept: &[bool],
    ends: &[Pos],
) -> Result<HealedArcs, OutOfMemory>
    ensures refined { IfOk result (λ r. (g u : Geometry Pos) → IsLeftBy g u old.now kept.now ends.now → IsHealedOf g u old.now r) }
    ensures pieces { IfOk result (λ r. length r.pieces ≡ length r.arcs.arcs) }
{
    let chosen = numbers_of(alloc, kept)?;
    let meeting = PseudoNodes::of(alloc, old, &chosen, ends)?;
    let runs = runs_of(alloc, &meeting, kept)?;
    let joined = joined_of(alloc, old, &meeting, runs)?;
    let made = from_joined(alloc, joined, old.len())?;
    Ok(made)
}
