//! Cutting the arcs of two tables again: the index of visits over the arcs gives the junctions of
//! both maps together, all arcs are cut there, and the pieces are the new table.
ghost use Rattle.arcs.specs.Placing.{whole_pieces};
ghost use Rattle.arcs.specs.Table.{IsTableOf};
ghost use Rattle.chains.specs.ManyTables.{arcs_of_all};
ghost use Rattle.grid.specs.declared.pos.Pos.{Pos};
ghost use Rattle.split_heal.specs.Bounds.{bounds_of};
ghost use Rattle.split_heal.specs.Cutting.{IsRecutOf};
ghost use Rattle.std.specs.Prelude.{◌≡◌, ◌∷◌, [], IfOk, length, map};
ghost use Rattle.theory.specs.Geometry.{Geometry, IsSound};
ghost use Rattle.theory.specs.Refinement.{IsUnionOf};

use crate::split_all::{cut_all, list_arcs};
use crate::split_lists::Recut;
use chains::cutting::Piece;
use chains::table::ArcTable;
use chains::visits::VisitIndex;
use faults::OutOfMemory;
use std::alloc::Global;

/// The arcs of two tables, the left one first, and where those of each begin and end.
fn list_both(
    alloc: Global,
    left: ArcTable,
    right: ArcTable,
) -> Result<(Vec<Piece>, Vec<usize>), OutOfMemory>
    ensures arcs { IfOk result (λ r. r.0.items ≡ arcs_of_all (left ∷ (right ∷ []))) }
    ensures begins { IfOk result (λ r. r.1.items ≡ bounds_of (map whole_pieces (left ∷ (right ∷ [])))) }
{
    let mut tables = Vec::with_capacity(alloc, 2)?;
    tables.push(left)?;
    tables.push(right)?;
    list_arcs(alloc, tables)
}

/// The arcs of two tables, each that of a map, cut again under the junctions of both maps together.
/// The junctions are known from the tables alone. Both tables are passed by value: the positions of arcs
/// that are not cut are moved.
///
/// # Errors
/// Where memory is refused.
pub fn recut_owned(alloc: Global, left: ArcTable, right: ArcTable) -> Result<Recut, OutOfMemory>
    ensures refined { IfOk result (λ r. (m n u : Geometry Pos) → IsSound m → IsSound n → IsTableOf m left → IsTableOf n right → IsUnionOf m n u → IsRecutOf m n u left right r) }
    ensures left { IfOk result (λ r. length r.left ≡ length left.arcs) }
    ensures right { IfOk result (λ r. length r.right ≡ length right.arcs) }
{
    let cuts = VisitIndex::over_arcs(alloc, &left, &right)?;
    let (arcs, begins) = list_both(alloc, left, right)?;
    let mut marks = cuts.left;
    marks.extend_from_slice(&cuts.right)?;
    let both = cut_all(alloc, &cuts.index, arcs, begins, &marks, cuts.extent)?;
    Ok(Recut::of_both(both))
}

/// `recut_owned` of two tables that stay. They share the positions of arcs that are not cut with the new one.
///
/// # Errors
/// Where memory is refused.
pub fn recut(alloc: Global, left: &ArcTable, right: &ArcTable) -> Result<Recut, OutOfMemory>
    ensures refined { IfOk result (λ r. (m n u : Geometry Pos) → IsSound m → IsSound n → IsTableOf m left.now → IsTableOf n right.now → IsUnionOf m n u → IsRecutOf m n u left.now right.now r) }
    ensures left { IfOk result (λ r. length r.left ≡ length left.now.arcs) }
    ensures right { IfOk result (λ r. length r.right ≡ length right.now.arcs) }
{
    recut_owned(alloc, left.share(alloc)?, right.share(alloc)?)
}
