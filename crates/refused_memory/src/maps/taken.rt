//! Topologies of texts: taken as they stand, once they are put into order, or built.

use refused_calls::calls::Borrowed;
use refused_calls::inputs::is_of;
use refused_calls::outcome::{Answer, Tally};
use refused_calls::texts::{FIRST, FREE_LOOP, SHARED_EDGE, THREE};
use std::alloc::Global;

/// A text of a topology, and the canonical text of the same features.
#[derive(Clone, Copy)]
struct Row {
    title: &'static str,
    text: &'static str,
    canonical: &'static str,
}

/// A row stays as it is.
impl Borrowed for Row {
    fn is_as_before(&self) -> bool {
        true
    }
}

const ROWS: &[Row] = &[
    Row {
        title: "a text that stands",
        text: THREE,
        canonical: THREE,
    },
    Row {
        title: "arcs by first sight, in other directions",
        text: r#"{"type":"Topology","objects":{"a":{"type":"GeometryCollection","geometries":[{"type":"Polygon","arcs":[[0,1]]},{"type":"Polygon","arcs":[[-3,-1]]}]}},"arcs":[[[1,0],[0,1]],[[1,1],[-1,0],[0,-1],[1,0]],[[1,1],[1,0],[0,-1],[-1,0]]],"transform":{"scale":[1,1],"translate":[0,0]}}"#,
        canonical: SHARED_EDGE,
    },
    Row {
        title: "a free loop that begins elsewhere",
        text: r#"{"type":"Topology","objects":{"a":{"type":"GeometryCollection","geometries":[{"type":"Polygon","arcs":[[-1]]}]}},"arcs":[[[2,0],[-2,0],[0,2],[2,-2]]],"transform":{"scale":[1,1],"translate":[0,0]}}"#,
        canonical: FREE_LOOP,
    },
    Row {
        title: "a square that is cut in two",
        text: r#"{"type":"Topology","objects":{"a":{"type":"GeometryCollection","geometries":[{"type":"Polygon","arcs":[[-2,-1]]}]}},"arcs":[[[0,0],[0,1],[1,0]],[[1,1],[0,-1],[-1,0]]],"transform":{"scale":[1,1],"translate":[0,0]}}"#,
        canonical: FIRST,
    },
];

fn ask(alloc: Global, row: &Row) -> Answer {
    match topo_io::read_topology(alloc, row.text.as_bytes()) {
        Ok(topology) => Answer::of(is_of(&topology, row.canonical)),
        Err(fault) => Answer::of_fault(&fault),
    }
}

/// Reads the topology of each text.
pub(crate) fn test(rt: &HostRuntime, tally: &mut Tally) {
    for row in ROWS {
        tally.ask(rt, row.title, row, "topo_io::read_topology", ask);
    }
}
