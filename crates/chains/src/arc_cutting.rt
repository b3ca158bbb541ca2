//! Cutting the arcs of a table at any stops.
ghost use Rattle.chains.specs.ArcPieces.{AreCutAt};
ghost use Rattle.arcs.specs.Among.{among};
ghost use Rattle.chains.specs.Index.{IsIndexOf};
ghost use Rattle.chains.specs.OfArcs.{pieces_if, ArePiecesUnder};
ghost use Rattle.arcs.specs.Table.{free_at, IsTableOf};
ghost use Rattle.grid.specs.declared.pos.Pos.{Pos};
ghost use Rattle.std.specs.Prelude.{◌≡◌, ◌<◌, List, Some, IfOk, length, slice_get};
ghost use Rattle.theory.specs.Geometry.{Geometry, IsSound};
ghost use Rattle.theory.specs.Refinement.{IsPartOf};

use crate::cutting::cut_at_stops;
use arcs::piece::Piece;
use arcs::table::ArcTable;
use faults::OutOfMemory;
use grid::pos::Pos;
use std::alloc::Global;
use std::collections::BTreeSet;

/// The pieces of an arc of a table under any stops, in order along the arc, each in its least
/// direction. An arc that is no free loop is cut at each inner place where there is a stop. A free loop
/// on which a stop lies is first turned to begin and end at its least one; its pieces are not free. One
/// on which none lies is its own one piece, and free.
///
/// # Errors
/// Where memory is refused.
pub fn cut_arc(
    alloc: Global,
    table: &ArcTable,
    number: usize,
    stops: &BTreeSet<Pos>,
) -> Result<Vec<Piece>, OutOfMemory>
    requires { number < length table.now.arcs }
    ensures computed { IfOk result (λ v. v.items ≡ pieces_if stops.now.keys table.now.loops (slice_get table.now.arcs number)) }
    ensures cut { IfOk result (λ v. (c : List Pos) → slice_get table.now.arcs number ≡ Some c → AreCutAt (among stops.now.keys) (free_at table.now number) c v.items) }
    ensures pieces { IfOk result (λ v. (g u : Geometry Pos) (c : List Pos) → IsSound g → IsSound u → IsPartOf g u → IsTableOf g table.now → IsIndexOf stops.now.keys u → slice_get table.now.arcs number ≡ Some c → ArePiecesUnder g u c v.items) }
{
    match table.arc(number) {
        Some(arc) => {
            let pieces = cut_at_stops(alloc, stops, arc, table.is_free(number))?;
            Ok(pieces)
        }
        None => Ok(Vec::new(alloc)),
    }
}
