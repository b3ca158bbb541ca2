//! The calls that take no memory. What they are lent is made first; they are made last, also where all
//! requests for memory are refused by then, and have to give their answers.

use crate::maps::texts::SQUARES;
use chains::ArcTable;
use query::{ArcCounts, Kinds};
use refused_calls::calls;
use refused_calls::calls::Borrowed;
use refused_calls::comparing::{are_arcs, same_map};
use refused_calls::inputs::{built, is_of, read};
use refused_calls::outcome::Tally;
use refused_calls::tables::both;
use refused_calls::texts::SHARED_EDGE;
use shapes::{Feature, FeatureMap};
use sinks::Tap;
use std::alloc::Global;
use std::io::Cursor;
use topo::Topology;

/// The features of the two squares, a line each.
const FEATURE_LINES: &str = concat!(
    r#"{"geometry":{"coordinates":[[[0,0],[1,0],[1,1],[0,1],[0,0]]],"type":"Polygon"},"properties":{},"type":"Feature"}"#,
    "\n",
    r#"{"geometry":{"coordinates":[[[1,0],[2,0],[2,1],[1,1],[1,0]]],"type":"Polygon"},"properties":{},"type":"Feature"}"#,
    "\n"
);

/// Both squares have no id.
const KEYED: &str = r#"{"null":[null],"null":[null]}"#;

/// The features of the two squares as GeoJSON.
const FEATURES: &str =
    r#"{"features":[{"geometry":{"coordinates":[[[0,0],[1,0],[1,1],[0,1],[0,0]]],"type":"Polygon"},"properties":{},"type":"Feature"},{"geometry":{"coordinates":[[[1,0],[2,0],[2,1],[1,1],[1,0]]],"type":"Polygon"},"properties":{},"type":"Feature"}],"type":"FeatureCollection"}"#;

/// Their borders.
const BORDERS: &str =
    r#"{"coordinates":[[[1,0],[0,0],[0,1],[1,1]],[[1,0],[1,1]],[[1,0],[2,0],[2,1],[1,1]]],"type":"MultiLineString"}"#;

/// A line from the least position to the greatest.
const LARGEST_AND_LEAST: &str =
    r#"{"arcs":[[[-1000000000,-1000000000],[2000000000,2000000000]]],"bbox":[-10000000500,-10000000000,9999999500,10000000000],"objects":{"a":{"geometries":[{"arcs":[0],"type":"LineString"}],"type":"GeometryCollection"}},"transform":{"scale":[10,10],"translate":[-500,0]},"type":"Topology"}"#;

/// More bytes than any of the texts has.
const ROOM: usize = 1024;

/// Two squares in each form in which they are lent, and the longest line as a topology.
#[derive(Drop)]
pub(crate) struct Squares {
    map: FeatureMap,
    copy: FeatureMap,
    topology: Topology,
    longest: Topology,
    borders: ArcTable,
    neighbors: Vec<Vec<usize>>,
}

impl Squares {
    fn with_map(alloc: Global, map: FeatureMap, topology: Topology) -> Option<Squares> {
        let copy = map.copy().ok();
        let borders = query::mesh(alloc, &topology, None, |_: &Feature, _: &Feature| true).ok();
        let neighbors = query::neighbors(alloc, &topology, "a").ok();
        let topologies = both(Some(topology), built(alloc, LARGEST_AND_LEAST));
        let answers = both(borders, neighbors);
        let ((map, copy), ((topology, longest), (borders, neighbors))) = both(
            both(Some(map), copy),
            both(topologies, answers),
        )?;
        Some(Squares {
            map,
            copy,
            topology,
            longest,
            borders,
            neighbors,
        })
    }

    /// The two squares and the line; none where memory is wanting.
    pub(crate) fn of(alloc: Global) -> Option<Squares> {
        let (map, topology) = both(read(alloc, SHARED_EDGE), built(alloc, SHARED_EDGE))?;
        Squares::with_map(alloc, map, topology)
    }
}

impl Borrowed for Squares {
    fn is_as_before(&self) -> bool {
        same_map(&self.map, &self.copy)
            && is_of(&self.topology, SHARED_EDGE)
            && is_of(&self.longest, LARGEST_AND_LEAST)
            && are_arcs(&self.borders, SQUARES.borders)
    }
}

/// Whether what was written to a place of bytes is a text.
fn is_written(place: &Cursor<[u8; ROOM]>, text: &str) -> bool {
    match place.get_ref().get(..text.len()) {
        Some(front) => front == text.as_bytes() && place.position() == text.len() as u64,
        None => false,
    }
}

/// Whether a topology is written as this text.
fn is_written_as(topology: &Topology, text: &str) -> bool {
    let mut place = Cursor::new([0_u8; ROOM]);
    let written = topo_io::write(topology, &mut Tap::new(&mut place));
    written.is_ok() && is_written(&place, text)
}

fn writes_topology(squares: &Squares) -> bool {
    is_written_as(&squares.topology, SHARED_EDGE)
}

fn writes_largest_and_least(squares: &Squares) -> bool {
    is_written_as(&squares.longest, LARGEST_AND_LEAST)
}

fn writes_layer(squares: &Squares) -> bool {
    let mut place = Cursor::new([0_u8; ROOM]);
    let written = query::write_layer(&squares.topology, "a", &mut Tap::new(&mut place));
    written.is_ok() && is_written(&place, FEATURES)
}

fn writes_features(squares: &Squares) -> bool {
    let Some(features) = squares.map.layer("a") else {
        return false;
    };
    let mut place = Cursor::new([0_u8; ROOM]);
    let grid = squares.topology.grid();
    let written = geojson_io::write(&grid, features.iter(), &mut Tap::new(&mut place));
    written.is_ok() && is_written(&place, FEATURES)
}

fn writes_mesh(squares: &Squares) -> bool {
    let mut place = Cursor::new([0_u8; ROOM]);
    let grid = squares.topology.grid();
    let written = query::write_mesh(&grid, &squares.borders, &mut Tap::new(&mut place));
    written.is_ok() && is_written(&place, BORDERS)
}

fn writes_neighbors(squares: &Squares) -> bool {
    let mut place = Cursor::new([0_u8; ROOM]);
    let written = query::write_neighbors(squares.neighbors.as_slice(), &mut Tap::new(&mut place));
    written.is_ok() && is_written(&place, "[[1],[0]]")
}

fn writes_neighbor_ids(squares: &Squares) -> bool {
    let Some(geometries) = squares.topology.geometries("a") else {
        return false;
    };
    let mut place = Cursor::new([0_u8; ROOM]);
    let lists = squares.neighbors.as_slice();
    let written = query::write_neighbor_ids(geometries, lists, &mut Tap::new(&mut place));
    written.is_ok() && is_written(&place, "[[null],[null]]")
}

fn writes_sequence(squares: &Squares) -> bool {
    let mut place = Cursor::new([0_u8; ROOM]);
    let written = query::write_sequence(&squares.topology, "a", &mut Tap::new(&mut place));
    written.is_ok() && is_written(&place, FEATURE_LINES)
}

/// The layers are the one.
fn writes_sequences(squares: &Squares) -> bool {
    let mut place = Cursor::new([0_u8; ROOM]);
    let written = query::write_sequences(&squares.topology, &mut Tap::new(&mut place));
    written.is_ok() && is_written(&place, FEATURE_LINES)
}

/// No square has an id, so the members have one name.
fn writes_neighbors_keyed(squares: &Squares) -> bool {
    let Some(geometries) = squares.topology.geometries("a") else {
        return false;
    };
    let mut place = Cursor::new([0_u8; ROOM]);
    let lists = squares.neighbors.as_slice();
    let written = query::write_neighbors_keyed(geometries, lists, &mut Tap::new(&mut place));
    written.is_ok() && is_written(&place, KEYED)
}

/// Three arcs of four, two and four positions, none of them free.
fn counts_arcs(squares: &Squares) -> bool {
    let counts = ArcCounts {
        arcs: 3,
        positions: 10,
        free: 0,
    };
    query::count_arcs(&squares.topology) == counts
}

fn counts_kinds(squares: &Squares) -> bool {
    let kinds = Kinds {
        nulls: 0,
        points: 0,
        multi_points: 0,
        lines: 0,
        multi_lines: 0,
        polygons: 2,
        multi_polygons: 0,
    };
    match squares.topology.geometries("a") {
        Some(geometries) => query::count_kinds(geometries) == kinds,
        None => false,
    }
}

/// The box of all positions.
fn has_box(squares: &Squares) -> bool {
    squares.topology.bbox() == Some((0, 0, 2, 1))
}

fn fits(squares: &Squares) -> bool {
    squares.map.fits(&squares.topology.grid())
}

/// Makes each call that takes no memory.
pub(crate) fn test(rt: &HostRuntime, tally: &mut Tally, squares: &Squares) {
    calls!(tally.ask_without_memory(rt, "without memory", squares);
        "topo_io::write" => writes_topology,
        "topo_io::write of the largest and least" => writes_largest_and_least,
        "query::write_layer" => writes_layer,
        "geojson_io::write" => writes_features,
        "query::write_mesh" => writes_mesh,
        "query::write_neighbors" => writes_neighbors,
        "query::write_neighbor_ids" => writes_neighbor_ids,
        "query::write_neighbors_keyed" => writes_neighbors_keyed,
        "query::write_sequence" => writes_sequence,
        "query::write_sequences" => writes_sequences,
        "query::count_arcs" => counts_arcs,
        "query::count_kinds" => counts_kinds,
        "Topology::bbox" => has_box,
        "FeatureMap::fits" => fits,
    );
}
