//! The vertices inside arcs that may be at another place of the arcs, too. Bits show of most that they
//! don't, so that little is left to sort.
ghost use Rattle.lines.specs.PositionFilter.{may_hold};
ghost use Rattle.validate.specs.SharedVertices.{HasTwice, KeepsElsewhere};
ghost use Rattle.std.specs.Prelude.{◌≡◌, IfOk};
ghost use Rattle.theory.specs.TopologyFunction.{keep};

use crate::arc_ends::all_ends;
use chains::table::ArcTable;
use grid::pos::Pos;
use lines::position_filter::PositionFilter;
use std::alloc::{AllocError, Global};

/// How many vertices share a word of the bits of those that were met.
const MET_EACH: usize = 4;

/// Vertices among which is each that is at two places of a list, and few others.
fn repeated_vertices(alloc: Global, vertices: &[Pos]) -> Result<Vec<Pos>, AllocError>
    ensures { IfOk result (λ v. HasTwice v.items vertices.now) }
{
    let mut met = PositionFilter::clear(alloc, vertices.len() / MET_EACH)?;
    let mut again = Vec::new(alloc);
    for vertex in vertices {
        if met.may_hold(*vertex) {
            again.push(*vertex)?;
        } else {
            met.mark(*vertex);
        }
    }
    Ok(again)
}

/// Those of some vertices whose bits are set.
fn keep_marked(
    alloc: Global,
    vertices: &[Pos],
    bits: &PositionFilter,
) -> Result<Vec<Pos>, AllocError>
    ensures { IfOk result (λ v. v.items ≡ keep (may_hold bits.now) vertices.now) }
{
    let mut kept = Vec::new(alloc);
    for vertex in vertices {
        if bits.may_hold(*vertex) {
            kept.push(*vertex)?;
        }
    }
    Ok(kept)
}

/// Of the vertices inside the arcs of a table those that are at two places there, those at which an
/// arc of the table ends, and few others.
pub(crate) fn vertices_elsewhere(
    alloc: Global,
    table: &ArcTable,
    inside: &[Pos],
) -> Result<Vec<Pos>, AllocError>
    ensures { IfOk result (λ v. KeepsElsewhere v.items inside.now table.now.arcs) }
{
    let mut watched = repeated_vertices(alloc, inside)?;
    let mut ends = all_ends(alloc, table)?;
    watched.append(&mut ends)?;
    let bits = PositionFilter::of(alloc, &watched)?;
    keep_marked(alloc, inside, &bits)
}
