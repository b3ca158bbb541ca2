//! What lines and rings are cut into.

use crate::arc_calls::indexes::has_junctions;
use chains::used_arcs::{add_backwards, add_in_direction};
use chains::{ArcRef, ArcTable, Piece, VisitIndex, add_pieces, cut_line, cut_ring};
use faults::OutOfMemory;
use refused_calls::calls::Borrowed;
use refused_calls::comparing::{are_arcs, are_used, are_at};
use refused_calls::inputs::{built, is_of, positions, read};
use refused_calls::outcome::Tally;
use refused_calls::tables::{Lends, Row, both};
use refused_calls::texts::{FIRST, Places, SHARED_EDGE};
use shapes::{Line, Ring};
use std::alloc::Global;
use topo::Topology;

/// The ring of the first square.
const SQUARE: Places = &[(0, 0), (1, 0), (1, 1), (0, 1), (0, 0)];

/// Its vertices.
const VERTICES: Places = &[(0, 0), (1, 0), (1, 1), (0, 1)];

/// A line along the lower sides of both squares.
const LOWER: Places = &[(0, 0), (1, 0), (2, 0)];

/// The sides of the first square that it has alone, and the one that it shares.
const ALONE: Places = &[(1, 0), (0, 0), (0, 1), (1, 1)];

pub(crate) const SHARED: Places = &[(1, 0), (1, 1)];

/// The chain of a piece, and whether it is read backwards.
pub(crate) type Part = (Places, bool);

/// What the ring of the first square is cut into.
const OF_SQUARE: &[Part] = &[(SHARED, false), (ALONE, true)];

/// What the line is cut into.
const OF_LOWER: &[Part] = &[(&[(0, 0), (1, 0)], false), (&[(1, 0), (2, 0)], false)];

/// What the first square's arc, a free loop, is cut into, from the lesser of the junctions on.
pub(crate) const OF_ARC: &[Part] = &[(ALONE, false), (SHARED, true)];

/// The first square and its ring, a line along both squares, and the junctions of the squares and of a map that has the
/// line and others from each of its vertices.
#[derive(Drop)]
struct Cutting {
    left: Topology,
    ring: Ring,
    line: Line,
    index: VisitIndex,
    line_index: VisitIndex,
}

fn ring_of_square(alloc: Global) -> Option<Ring> {
    Ring::from_closed(alloc, positions(alloc, SQUARE)?).ok()
}

fn lower_line(alloc: Global) -> Option<Line> {
    Line::from_positions(alloc, positions(alloc, LOWER)?).ok()
}

fn index_of_squares(alloc: Global) -> Option<VisitIndex> {
    VisitIndex::of(alloc, &read(alloc, SHARED_EDGE)?).ok()
}

fn index_of_line(alloc: Global) -> Option<VisitIndex> {
    VisitIndex::from_junctions(alloc, positions(alloc, LOWER)?).ok()
}

impl Borrowed for Cutting {
    fn is_as_before(&self) -> bool {
        is_of(&self.left, FIRST)
            && are_at(self.ring.vertices(), VERTICES)
            && are_at(self.line.positions(), LOWER)
            && has_junctions(&self.index)
    }
}

fn is_part(piece: &Piece, part: &Part) -> bool {
    are_at(piece.chain(), part.0) && piece.reversed() == part.1 && !piece.is_free()
}

pub(crate) fn are_parts(pieces: &[Piece], parts: &[Part]) -> bool {
    for (piece, part) in pieces.iter().zip(parts) {
        if !is_part(piece, part) {
            return false;
        }
    }
    pieces.len() == parts.len()
}

fn line(alloc: Global, cutting: &Cutting) -> Result<bool, OutOfMemory> {
    let pieces = cut_line(alloc, &cutting.line_index, &cutting.line)?;
    Ok(are_parts(pieces.as_slice(), OF_LOWER))
}

fn ring(alloc: Global, cutting: &Cutting) -> Result<bool, OutOfMemory> {
    let pieces = cut_ring(alloc, &cutting.index, &cutting.ring)?;
    Ok(are_parts(pieces.as_slice(), OF_SQUARE))
}

fn piece(alloc: Global) -> Result<bool, OutOfMemory> {
    let Some(chain) = positions(alloc, &[(1, 1), (0, 1), (0, 0), (1, 0)]) else {
        return Err(OutOfMemory);
    };
    Ok(is_part(&Piece::new(alloc, chain, false)?, &(ALONE, true)))
}

/// The piece of the first square's arc, cut at the junctions.
fn added(alloc: Global, cutting: &Cutting) -> Result<bool, OutOfMemory> {
    let mut pieces = Vec::new(alloc);
    let Some(arc) = cutting.left.arcs().piece(alloc, 0, true)? else {
        return Ok(false);
    };
    add_pieces(alloc, &mut pieces, &cutting.index, arc, true)?;
    Ok(are_parts(pieces.as_slice(), OF_ARC))
}

fn table(alloc: Global, cutting: &Cutting) -> Result<bool, OutOfMemory> {
    let pieces = cut_ring(alloc, &cutting.index, &cutting.ring)?;
    Ok(are_arcs(&ArcTable::from_pieces(alloc, pieces)?, &[ALONE, SHARED]))
}

fn table_with_refs(alloc: Global, cutting: &Cutting) -> Result<bool, OutOfMemory> {
    let pieces = cut_ring(alloc, &cutting.index, &cutting.ring)?;
    let (table, refs) = ArcTable::with_refs(alloc, pieces)?;
    Ok(are_used(refs.as_slice(), &[1, -1]) && are_arcs(&table, &[ALONE, SHARED]))
}

/// Two used arcs, the second against its direction.
fn two_used() -> [ArcRef; 2] {
    [ArcRef::from_index(0), ArcRef::from_index(-3)]
}

fn backwards(alloc: Global) -> Result<bool, OutOfMemory> {
    let mut refs = Vec::new(alloc);
    add_backwards(&mut refs, &two_used())?;
    Ok(are_used(refs.as_slice(), &[2, -1]))
}

fn in_direction(alloc: Global) -> Result<bool, OutOfMemory> {
    let mut refs = Vec::new(alloc);
    add_in_direction(&mut refs, &two_used(), false)?;
    add_in_direction(&mut refs, &two_used(), true)?;
    Ok(are_used(refs.as_slice(), &[0, -3, 2, -1]))
}

/// Tells the calls apart.
#[derive(Clone, Copy)]
enum Call {
    Line,
    Ring,
    Piece,
    Added,
    Table,
    WithRefs,
    Backwards,
    InDirection,
}

const ROWS: &[Row<Call>] = &[
    ("chains::cut_line", Call::Line),
    ("chains::cut_ring", Call::Ring),
    ("Piece::new", Call::Piece),
    ("chains::add_pieces", Call::Added),
    ("ArcTable::from_pieces", Call::Table),
    ("ArcTable::with_refs", Call::WithRefs),
    ("arcs::add_backwards", Call::Backwards),
    ("arcs::add_in_direction", Call::InDirection),
];

impl Lends for Cutting {
    type Call = Call;

    fn make(alloc: Global) -> Option<Cutting> {
        let cut = both(ring_of_square(alloc), lower_line(alloc));
        let indexes = both(index_of_squares(alloc), index_of_line(alloc));
        let (left, ((ring, line), (index, line_index))) = both(
            built(alloc, FIRST),
            both(cut, indexes),
        )?;
        Some(Cutting {
            left,
            ring,
            line,
            index,
            line_index,
        })
    }

    fn answer(&self, alloc: Global, call: Call) -> Result<bool, OutOfMemory> {
        match call {
            Call::Line => line(alloc, self),
            Call::Ring => ring(alloc, self),
            Call::Piece => piece(alloc),
            Call::Added => added(alloc, self),
            Call::Table => table(alloc, self),
            Call::WithRefs => table_with_refs(alloc, self),
            Call::Backwards => backwards(alloc),
            Call::InDirection => in_direction(alloc),
        }
    }
}

/// Makes each call of pieces.
pub(crate) fn test(rt: &HostRuntime, tally: &mut Tally) {
    tally.attempt_each::<Cutting>(rt, "pieces", ROWS);
}
