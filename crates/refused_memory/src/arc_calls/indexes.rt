//! Indexes of visits.

use chains::VisitIndex;
use chains::cutting::Piece;
use faults::OutOfMemory;
use grid::Pos;
use refused_calls::calls::Borrowed;
use refused_calls::comparing::same_map;
use refused_calls::inputs::{built, is_of, positions, read};
use refused_calls::outcome::Tally;
use refused_calls::tables::{Lends, Row, both};
use refused_calls::texts::{FIRST, SECOND, SHARED_EDGE};
use shapes::FeatureMap;
use std::alloc::Global;
use topo::Topology;

/// The features of two squares with a copy, and a topology of each.
#[derive(Drop)]
struct Indexing {
    map: FeatureMap,
    copy: FeatureMap,
    left: Topology,
    right: Topology,
}

impl Borrowed for Indexing {
    fn is_as_before(&self) -> bool {
        same_map(&self.map, &self.copy) && is_of(&self.left, FIRST) && is_of(&self.right, SECOND)
    }
}

fn is_junction(index: &VisitIndex, x: i64, y: i64) -> bool {
    match Pos::new(x, y) {
        Some(position) => index.is_junction(position),
        None => false,
    }
}

/// Whether some place of the four outer corners of two squares is a junction.
fn has_outer_junction(index: &VisitIndex) -> bool {
    is_junction(index, 0, 0)
        || is_junction(index, 0, 1)
        || is_junction(index, 2, 0)
        || is_junction(index, 2, 1)
}

/// Whether the ends of the shared side are junctions, and the other corners are none.
pub(crate) fn has_junctions(index: &VisitIndex) -> bool {
    is_junction(index, 1, 0) && is_junction(index, 1, 1) && !has_outer_junction(index)
}

fn of_map(alloc: Global, indexing: &Indexing) -> Result<bool, OutOfMemory> {
    Ok(has_junctions(&VisitIndex::of(alloc, &indexing.map)?))
}

fn of_positions(alloc: Global) -> Result<bool, OutOfMemory> {
    let Some(junctions) = positions(alloc, &[(1, 1), (1, 0)]) else {
        return Err(OutOfMemory);
    };
    Ok(has_junctions(&VisitIndex::from_junctions(alloc, junctions)?))
}

fn over_arcs(alloc: Global, indexing: &Indexing) -> Result<bool, OutOfMemory> {
    let made = VisitIndex::over_arcs(alloc, indexing.left.arcs(), indexing.right.arcs())?;
    Ok(has_junctions(&made.index))
}

/// The arcs of both topologies, those of the left one first.
fn arcs_of_both(alloc: Global, indexing: &Indexing) -> Result<Vec<Piece>, OutOfMemory> {
    let mut arcs = indexing.left.arcs().share(alloc)?.into_pieces(alloc)?;
    let mut others = indexing.right.arcs().share(alloc)?.into_pieces(alloc)?;
    arcs.append(&mut others)?;
    Ok(arcs)
}

fn over_pieces(alloc: Global, indexing: &Indexing) -> Result<bool, OutOfMemory> {
    let arcs = arcs_of_both(alloc, indexing)?;
    let made = VisitIndex::over_pieces(alloc, &arcs)?;
    Ok(has_junctions(&made.index))
}

/// Tells the calls apart.
#[derive(Clone, Copy)]
enum Call {
    OfMap,
    OfPositions,
    OverArcs,
    OverPieces,
}

const ROWS: &[Row<Call>] = &[
    ("VisitIndex::of", Call::OfMap),
    ("VisitIndex::from_junctions", Call::OfPositions),
    ("VisitIndex::over_arcs", Call::OverArcs),
    ("VisitIndex::over_pieces", Call::OverPieces),
];

impl Lends for Indexing {
    type Call = Call;

    fn make(alloc: Global) -> Option<Indexing> {
        let maps = both(read(alloc, SHARED_EDGE), read(alloc, SHARED_EDGE));
        let topologies = both(built(alloc, FIRST), built(alloc, SECOND));
        let ((map, copy), (left, right)) = both(maps, topologies)?;
        Some(Indexing {
            map,
            copy,
            left,
            right,
        })
    }

    fn answer(&self, alloc: Global, call: Call) -> Result<bool, OutOfMemory> {
        match call {
            Call::OfMap => of_map(alloc, self),
            Call::OfPositions => of_positions(alloc),
            Call::OverArcs => over_arcs(alloc, self),
            Call::OverPieces => over_pieces(alloc, self),
        }
    }
}

/// Makes each call of indexes.
pub(crate) fn test(rt: &HostRuntime, tally: &mut Tally) {
    tally.attempt_each::<Indexing>(rt, "indexes of visits", ROWS);
}
