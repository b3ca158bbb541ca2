//! Texts that more than one test needs, and what is built of a text's features.
use faults::FaultKind;
use std::alloc::Global;
use std::test::Fail;
use topo::Topology;
use topo_io::{read, read_topology, text_of};
use worked_maps::boxed;

/// The text of a topology on the unit grid with these arcs and layers.
macro_rules! topology {
    ($arcs:literal, $objects:expr) => {
        concat!(
            r#"{"type":"Topology","transform":{"scale":[1,1],"translate":[0,0]},"arcs":"#,
            $arcs,
            r#","objects":"#,
            $objects,
            "}"
        )
    };
}

/// The text of a topology on the unit grid with these arcs, with these geometries in its only layer, and with a
/// wrong bbox.
macro_rules! collection {
    ($arcs:literal, $geometries:expr) => {
        concat!(
            r#"{"type":"Topology","transform":{"scale":[1,1],"translate":[0,0]},"bbox":[7,7,7,7],"arcs":"#,
            $arcs,
            r#","objects":{"a":{"type":"GeometryCollection","geometries":"#,
            $geometries,
            "}}}"
        )
    };
}

pub(crate) use collection;
pub(crate) use topology;

/// The unit square at the origin as another tool may write it.
pub(crate) const OTHER_TOOL: &str =
    r#"{"type":"Topology","transform":{"scale":[1,1],"translate":[0,0]},"bbox":[0.5,0,1,1],"x":0,"objects":{"a":{"type":"Polygon","arcs":[[0,1]]}},"arcs":[[[0,0],[1,0],[0,1]],[[1,1],[-1,0],[0,-1]],[[5,5],[1,1]]]}"#;

/// Two squares that share an edge, in canonical text.
pub(crate) const SQUARES: &str =
    r#"{"arcs":[[[1,0],[-1,0],[0,1],[1,0]],[[1,0],[0,1]],[[1,0],[1,0],[0,1],[-1,0]]],"bbox":[0,0,2,1],"objects":{"a":{"geometries":[{"arcs":[[1,-1]],"type":"Polygon"},{"arcs":[[2,-2]],"type":"Polygon"}],"type":"GeometryCollection"}},"transform":{"scale":[1,1],"translate":[0,0]},"type":"Topology"}"#;

/// The unit square at the origin, in canonical text.
pub(crate) const ONE_SQUARE: &str =
    r#"{"arcs":[[[0,0],[0,1],[1,0],[0,-1],[-1,0]]],"bbox":[0,0,1,1],"objects":{"a":{"geometries":[{"arcs":[[-1]],"type":"Polygon"}],"type":"GeometryCollection"}},"transform":{"scale":[1,1],"translate":[0,0]},"type":"Topology"}"#;

/// Points and the null shape on another grid, in canonical text.
pub(crate) const POINTS: &str =
    r#"{"arcs":[],"bbox":[-7,30,93,45],"objects":{"":{"geometries":[],"type":"GeometryCollection"},"b":{"geometries":[{"id":"x","properties":{"a":null,"b":1},"type":null},{"coordinates":[[1,2],[1,2]],"id":"y","type":"MultiPoint"},{"coordinates":[-9,-1],"id":"z","type":"Point"}],"type":"GeometryCollection"}},"transform":{"scale":[10,5],"translate":[83,35]},"type":"Topology"}"#;

/// No layers, in canonical text.
pub(crate) const NO_LAYERS: &str =
    r#"{"arcs":[],"objects":{},"transform":{"scale":[1,1],"translate":[0,0]},"type":"Topology"}"#;

/// The topology that is built of a text's features.
pub(crate) fn built(alloc: Global, text: &str) -> Result<Box<Topology>, Fail> {
    let (grid, map) = read(alloc, text.as_bytes())?;
    boxed(alloc, Topology::build(alloc, &grid, &map))
}

/// The canonical text of what is built of a text's features.
pub(crate) fn built_text(alloc: Global, text: &str) -> Result<Vec<u8>, Fail> {
    let topology = built(alloc, text)?;
    Ok(text_of(alloc, &*topology)?)
}

/// Whether the topology of a text has the text that is built of the features of another, which may be the same.
pub(crate) fn is_read_as_built(alloc: Global, text: &str, other: &str) -> Result<bool, Fail> {
    let topology = boxed(alloc, read_topology(alloc, text.as_bytes()))?;
    Ok(text_of(alloc, &*topology)? == built_text(alloc, other)?)
}

/// Whether a text has a fault; want of memory is none.
pub(crate) fn is_refused(alloc: Global, text: &str) -> bool {
    match read(alloc, text.as_bytes()) {
        Ok(_) => false,
        Err(fault) => fault.kind != FaultKind::OutOfMemory,
    }
}
