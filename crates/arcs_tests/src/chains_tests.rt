//! What tests of `chains` share: lines and rings of maps, their pieces, and stops.
mod junctions;
mod stops;
mod tables;

use chains::{ArcRef, ArcTable, Piece, VisitIndex, cut_line, cut_ring};
use grid::pos::Pos;
use std::alloc::Global;
use std::collections::BTreeSet;
use std::test::Fail;
use worked_maps::{
    Drawn, Of, Places, TRIANGLE, boxed, closed_ring, map_of, open_line, positions, are_at,
};

/// A line or a ring of a map.
#[derive(Clone, Copy)]
struct Way {
    map: Drawn,
    of: Of,
    places: Places,
}

const ONE_TRIANGLE: Drawn = Drawn {
    lines: &[],
    rings: &[TRIANGLE],
};

/// The only ring of a map.
const LOOP: Way = Way {
    map: ONE_TRIANGLE,
    of: Of::Ring,
    places: TRIANGLE,
};

fn index_of(alloc: Global, drawn: Drawn) -> Result<Box<VisitIndex>, Fail> {
    boxed(alloc, VisitIndex::of(alloc, &map_of(alloc, &[drawn])?))
}

/// The pieces that a line or a ring is cut into.
fn pieces(alloc: Global, way: &Way) -> Result<Vec<Piece>, Fail> {
    let index = index_of(alloc, way.map)?;
    match way.of {
        Of::Line => Ok(cut_line(alloc, &*index, &open_line(alloc, way.places)?)?),
        Of::Ring => Ok(cut_ring(alloc, &*index, &closed_ring(alloc, way.places)?)?),
    }
}

/// A piece's places, and whether it is reversed and free.
type Part = (Places, bool, bool);

fn is_part(piece: &Piece, part: &Part) -> bool {
    are_at(piece.chain(), part.0) && piece.reversed() == part.1 && piece.is_free() == part.2
}

fn are_parts(pieces: &[Piece], parts: &[Part]) -> bool {
    for (piece, part) in pieces.iter().zip(parts) {
        if !is_part(piece, part) {
            return false;
        }
    }
    pieces.len() == parts.len()
}

/// Whether pieces run along used arcs of a table.
pub(crate) fn run_along(table: &ArcTable, pieces: &[Piece], used: &[ArcRef]) -> bool {
    for (piece, arc) in pieces.iter().zip(used) {
        if table.find(piece) != Some(*arc) {
            return false;
        }
    }
    pieces.len() == used.len()
}

/// The set of the positions of places.
fn stops_at(alloc: Global, places: Places) -> Result<BTreeSet<Pos>, Fail> {
    let mut stops = BTreeSet::new(alloc);
    for position in positions(alloc, places)? {
        stops.insert(position)?;
    }
    Ok(stops)
}
