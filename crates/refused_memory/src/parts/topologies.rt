//! Topologies and their geometries, copied, and asked for their borders and neighbours.

use chains::ArcTable;
use faults::OutOfMemory;
use query::{Edges, QueryFault};
use refused_calls::calls::Borrowed;
use refused_calls::comparing::{are_arcs, are_neighbors, same_geometries};
use refused_calls::inputs::{built, is_of};
use refused_calls::outcome::Tally;
use refused_calls::tables::{Lends, Row};
use refused_calls::texts::SHARED_EDGE;
use std::alloc::Global;
use topo::{Geom, Layer, Topology};

/// Two squares.
#[derive(Drop)]
struct Squares {
    topology: Topology,
}

impl Squares {
    fn layer(&self) -> Option<&Layer> {
        self.topology.layers().first()
    }

    fn square(&self) -> Option<&Geom> {
        self.layer()?.geometries().first()
    }
}

impl Borrowed for Squares {
    fn is_as_before(&self) -> bool {
        is_of(&self.topology, SHARED_EDGE)
    }
}

fn copy_geometry(alloc: Global, squares: &Squares) -> Result<bool, OutOfMemory> {
    let Some(square) = squares.square() else {
        return Ok(false);
    };
    let copy = square.copy(alloc)?;
    Ok(copy.id == square.id && copy.props == square.props && copy.body == square.body)
}

fn copy_body(alloc: Global, squares: &Squares) -> Result<bool, OutOfMemory> {
    match squares.square() {
        Some(square) => Ok(square.body.copy(alloc)? == square.body),
        None => Ok(false),
    }
}

fn copy_layer(alloc: Global, squares: &Squares) -> Result<bool, OutOfMemory> {
    let Some(layer) = squares.layer() else {
        return Ok(false);
    };
    let copy = layer.copy(alloc)?;
    Ok(copy.name().text() == "a" && same_geometries(copy.geometries(), layer.geometries()))
}

fn share(alloc: Global, squares: &Squares) -> Result<bool, OutOfMemory> {
    Ok(is_of(&squares.topology.share(alloc)?, SHARED_EDGE))
}

/// Whether the borders are the common one.
fn is_common(made: Result<ArcTable, QueryFault>) -> Result<bool, OutOfMemory> {
    match made {
        Ok(table) => Ok(are_arcs(&table, &[&[(1, 0), (1, 1)]])),
        Err(QueryFault::OutOfMemory) => Err(OutOfMemory),
        Err(QueryFault::NoLayer) => Ok(false),
    }
}

fn borders(alloc: Global, squares: &Squares) -> Result<bool, OutOfMemory> {
    is_common(query::borders(alloc, &squares.topology, Some("a"), Edges::Interior))
}

fn borders_by(alloc: Global, squares: &Squares) -> Result<bool, OutOfMemory> {
    is_common(query::borders_by(alloc, &squares.topology, Some("a"), "name"))
}

fn neighbors_by(alloc: Global, squares: &Squares) -> Result<bool, OutOfMemory> {
    match query::neighbors_by(alloc, &squares.topology, "a", "name") {
        Ok(lists) => Ok(are_neighbors(lists.as_slice(), &[&[1], &[0]])),
        Err(QueryFault::OutOfMemory) => Err(OutOfMemory),
        Err(QueryFault::NoLayer) => Ok(false),
    }
}

/// Tells the calls apart.
#[derive(Clone, Copy)]
enum Call {
    CopyGeometry,
    CopyBody,
    CopyLayer,
    Share,
    Borders,
    BordersBy,
    NeighborsBy,
}

const ROWS: &[Row<Call>] = &[
    ("Geom::copy", Call::CopyGeometry),
    ("Form::copy, of a body", Call::CopyBody),
    ("Layer::copy", Call::CopyLayer),
    ("Topology::share", Call::Share),
    ("query::borders", Call::Borders),
    ("query::borders_by", Call::BordersBy),
    ("query::neighbors_by", Call::NeighborsBy),
];

impl Lends for Squares {
    type Call = Call;

    fn make(alloc: Global) -> Option<Squares> {
        Some(Squares {
            topology: built(alloc, SHARED_EDGE)?,
        })
    }

    fn answer(&self, alloc: Global, call: Call) -> Result<bool, OutOfMemory> {
        match call {
            Call::CopyGeometry => copy_geometry(alloc, self),
            Call::CopyBody => copy_body(alloc, self),
            Call::CopyLayer => copy_layer(alloc, self),
            Call::Share => share(alloc, self),
            Call::Borders => borders(alloc, self),
            Call::BordersBy => borders_by(alloc, self),
            Call::NeighborsBy => neighbors_by(alloc, self),
        }
    }
}

/// Makes each call of topologies.
pub(crate) fn test(rt: &HostRuntime, tally: &mut Tally) {
    tally.attempt_each::<Squares>(rt, "topologies", ROWS);
}
