//! Features taken out of topologies: the text that is left, and the old arcs of each new one. Expected
//! texts and indexes are worked out by hand.
use crate::tests::inputs::{is_text_of, map_of, topology_of};
use refine::remove::{Removal, remove};
use refine::{JoinFault, remove_topology};
use refused_calls::layer;
use refused_calls::texts::{
    EMPTY, ENDS, FIRST, FREE_LOOP, LINE, LOOP_AND_LINE, SECOND, SHARED_EDGE, THREE,
};
use std::alloc::Global;
use std::process::Abort;
use std::test::Fail;
use worked_maps::{are_used, boxed};

/// A topology, another one whose features are taken out, what is left, and for each of its arcs the
/// indexes of the old ones.
#[derive(Clone, Copy)]
struct Row {
    title: &'static str,
    topology: &'static str,
    removed: &'static str,
    left: &'static str,
    pieces: &'static [&'static [i64]],
}

const ON_ANOTHER_GRID: &str =
    r#"{"arcs":[],"objects":{},"transform":{"scale":[2,1],"translate":[0,0]},"type":"Topology"}"#;

const LINES: &str = layer!(
    r#"{"arcs":[[[0,0],[1,0]],[[1,0],[0,1]],[[1,0],[1,0]]],"bbox":[0,0,2,1],"objects":{"a":{"geometries":[{"arcs":[0,1],"type":"LineString"},{"arcs":[0,2],"type":"LineString"}"#
);

const TWO_RINGS: &str = layer!(
    r#"{"arcs":[[[0,0],[0,1],[1,0],[0,-1],[-1,0]],[[5,5],[0,1],[1,-1],[-1,0]]],"bbox":[0,0,6,6],"objects":{"a":{"geometries":[{"arcs":[[-1],[1]],"type":"Polygon"}"#
);

const PINCHED: &str = layer!(
    r#"{"arcs":[[[0,0],[0,1],[1,0],[1,-1],[0,1],[-1,0],[-1,-1]]],"bbox":[0,0,2,1],"objects":{"a":{"geometries":[{"arcs":[[0]],"type":"Polygon"}"#
);

/// Rows: a title, a topology, another one whose features are taken out, what is left, and for each of its
/// arcs the indexes of the old ones.
macro_rules! left {
    ($($title:literal: $topology:expr, $removed:expr, $left:expr, $pieces:expr;)+) => {
        &[$(Row {
            title: $title,
            topology: $topology,
            removed: $removed,
            left: $left,
            pieces: $pieces,
        }),+]
    };
}

const ROWS: &[Row] = left![
    "the seam vanishes": LOOP_AND_LINE, LINE, FREE_LOOP, &[&[0]];
    "one of two squares with a shared edge": SHARED_EDGE, SECOND, FIRST, &[&[0, -2]];
    "a junction of the union alone": LINES,
        layer!(r#"{"arcs":[[[0,0],[1,0],[0,1]]],"bbox":[0,0,1,1],"objects":{"a":{"geometries":[{"arcs":[0],"type":"LineString"}"#),
        layer!(r#"{"arcs":[[[0,0],[1,0],[1,0]]],"bbox":[0,0,2,0],"objects":{"a":{"geometries":[{"arcs":[0],"type":"LineString"}"#), &[&[0, 2]];
    "the middle one of three squares": THREE, SECOND, ENDS, &[&[0, -2], &[4, -6]];
    "all of two squares: the layer keeps its name": SHARED_EDGE, SHARED_EDGE, EMPTY, &[];
    "a square whose list begins at a junction, and not at its least corner": SHARED_EDGE, FIRST, SECOND, &[&[1, -3]];
    "a ring that comes to a vertex again": PINCHED, PINCHED, EMPTY, &[];
];

/// Rows in which no feature is taken out: a title, a topology, the indexes of its arcs, each alone, and
/// another topology, none of whose features is among its own.
macro_rules! kept {
    ($($title:literal: $topology:expr, $pieces:expr, $removed:expr;)+) => {
        left![$($title: $topology, $removed, $topology, $pieces;)+]
    };
}

const KEPT: &[Row] = kept![
    "a feature with another id": SHARED_EDGE, &[&[0], &[1], &[2]], layer!(r#"{"arcs":[[[0,0],[0,1],[1,0],[0,-1],[-1,0]]],"bbox":[0,0,1,1],"objects":{"a":{"geometries":[{"arcs":[[-1]],"id":1,"type":"Polygon"}"#);
    "a feature of another layer": SHARED_EDGE, &[&[0], &[1], &[2]], layer!(r#"{"arcs":[[[0,0],[0,1],[1,0],[0,-1],[-1,0]]],"bbox":[0,0,1,1],"objects":{"b":{"geometries":[{"arcs":[[-1]],"type":"Polygon"}"#);
    "a square that differs at one corner": SHARED_EDGE, &[&[0], &[1], &[2]], layer!(r#"{"arcs":[[[0,0],[0,2],[1,-1],[0,-1],[-1,0]]],"bbox":[0,0,1,2],"objects":{"a":{"geometries":[{"arcs":[[-1]],"type":"Polygon"}"#);
    "a square that goes round the other way": SHARED_EDGE, &[&[0], &[1], &[2]], layer!(r#"{"arcs":[[[0,0],[0,1],[1,0],[0,-1],[-1,0]]],"bbox":[0,0,1,1],"objects":{"a":{"geometries":[{"arcs":[[0]],"type":"Polygon"}"#);
    "the corners of a square in another order": SHARED_EDGE, &[&[0], &[1], &[2]], layer!(r#"{"arcs":[[[0,0],[1,1],[0,-1],[-1,1],[0,-1]]],"bbox":[0,0,1,1],"objects":{"a":{"geometries":[{"arcs":[[0]],"type":"Polygon"}"#);
    "a square as the one of many": SHARED_EDGE, &[&[0], &[1], &[2]], layer!(r#"{"arcs":[[[0,0],[0,1],[1,0],[0,-1],[-1,0]]],"bbox":[0,0,1,1],"objects":{"a":{"geometries":[{"arcs":[[[-1]]],"type":"MultiPolygon"}"#);
    "a polygon with a ring more": SHARED_EDGE, &[&[0], &[1], &[2]], TWO_RINGS;
    "a polygon with a ring less": TWO_RINGS, &[&[0], &[1]], FIRST;
    "a line that goes the other way": LINES, &[&[0], &[1], &[2]], layer!(r#"{"arcs":[[[1,1],[0,-1],[-1,0]]],"bbox":[0,0,1,1],"objects":{"a":{"geometries":[{"arcs":[0],"type":"LineString"}"#);
    "the front of a line": LINES, &[&[0], &[1], &[2]], layer!(r#"{"arcs":[[[0,0],[1,0]]],"bbox":[0,0,1,0],"objects":{"a":{"geometries":[{"arcs":[0],"type":"LineString"}"#);
    "a line that goes on": LINES, &[&[0], &[1], &[2]], layer!(r#"{"arcs":[[[0,0],[1,0],[0,1],[0,1]]],"bbox":[0,0,1,2],"objects":{"a":{"geometries":[{"arcs":[0],"type":"LineString"}"#);
];

/// Whether the old arcs of each new one are those of the indexes.
fn are_pieces(made: &Removal, lists: &[&[i64]]) -> bool {
    for (number, indexes) in lists.iter().enumerate() {
        match made.pieces(number) {
            Some(pieces) => {
                if !are_used(pieces, indexes) {
                    return false;
                }
            }
            None => return false,
        }
    }
    made.pieces(lists.len()).is_none()
}

/// Whether what is left, as it is handed out, has this text.
fn is_handed_out(alloc: Global, made: Box<Removal>, text: &str) -> Result<bool, Fail> {
    is_text_of(alloc, &Box::into_inner(made).into_topology(), text)
}

fn removal(alloc: Global, row: &Row) -> Result<Box<Removal>, Fail> {
    let removed = map_of(alloc, row.removed)?;
    let topology = topology_of(alloc, row.topology)?;
    boxed(alloc, remove(alloc, &*topology, &removed))
}

/// A removal where the features that are taken out are those of a topology.
fn removal_by_topology(alloc: Global, row: &Row) -> Result<Box<Removal>, Fail> {
    let topology = topology_of(alloc, row.topology)?;
    let removed = topology_of(alloc, row.removed)?;
    boxed(alloc, remove_topology(alloc, &*topology, &*removed))
}

/// What is left, lent and handed out, and the old arcs of each new one, are those of the row.
fn assert_made<R: Abort + AllocGlobal>(rt: &R, made: Box<Removal>, row: &Row) -> Result<(), Fail> {
    assert!(rt; are_pieces(&*made, row.pieces), "{}: pieces", row.title);
    let is_borrowed = is_text_of(rt.alloc(), made.topology(), row.left)?;
    assert!(rt; is_borrowed, "{}", row.title);
    let is_handed_out = is_handed_out(rt.alloc(), made, row.left)?;
    assert!(rt; is_handed_out, "{}", row.title);
    Ok(())
}

/// By a map and by a topology.
fn assert_row<R: Abort + AllocGlobal>(rt: &R, row: &Row) -> Result<(), Fail> {
    assert_made(rt, removal(rt.alloc(), row)?, row)?;
    assert_made(rt, removal_by_topology(rt.alloc(), row)?, row)
}

#[test]
fn features_taken_out(rt: HostRuntime) -> Result<(), Fail> {
    for row in ROWS {
        assert_row(&rt, row)?;
    }
    Ok(())
}

#[test]
fn features_that_are_not_there(rt: HostRuntime) -> Result<(), Fail> {
    for row in KEPT {
        assert_row(&rt, row)?;
    }
    Ok(())
}

#[test]
fn features_on_another_grid(rt: HostRuntime) -> Result<(), Fail> {
    let topology = topology_of(rt.alloc(), SHARED_EDGE)?;
    let other = topology_of(rt.alloc(), ON_ANOTHER_GRID)?;
    let is_refused = matches!(
        remove_topology(rt.alloc(), &*topology, &*other),
        Err(JoinFault::OtherGrid)
    );
    assert!(rt; is_refused);
    Ok(())
}
