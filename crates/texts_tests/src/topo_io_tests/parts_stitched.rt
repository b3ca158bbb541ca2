//! Parts of topology texts that are stitched: the map that the whole text means, or none.
use crate::topo_io_tests::texts::{OTHER_TOOL, built_text, is_refused, topology};
use shapes::FeatureMap;
use std::alloc::Global;
use std::test::Fail;
use topo::Topology;
use topo_io::{TextParts, map_of_parts, read_parts, text_of};
use worked_maps::{boxed, rows};

/// The map of the text's parts, where they stitch.
fn map_of(alloc: Global, text: &str) -> Result<Option<FeatureMap>, Fail> {
    let TextParts { arcs, layers, .. } = read_parts(alloc, text.as_bytes())?;
    Ok(map_of_parts(alloc, &arcs, layers)?)
}

/// Whether a map, on the grid of the text, has the canonical text of what the whole text means.
fn is_meant(alloc: Global, map: &FeatureMap, text: &str) -> Result<bool, Fail> {
    let grid = read_parts(alloc, text.as_bytes())?.grid;
    let topology = boxed(alloc, Topology::build(alloc, &grid, map))?;
    Ok(text_of(alloc, &*topology)? == built_text(alloc, text)?)
}

/// Whether the parts stitch to the map that the whole text means.
fn is_stitched(alloc: Global, text: &str) -> Result<bool, Fail> {
    match map_of(alloc, text)? {
        Some(map) => is_meant(alloc, &map, text),
        None => Ok(false),
    }
}

/// Texts whose lists stitch.
const STITCHED: &[(&str, &str)] = rows! {
    "no arcs and no layers", topology!("[]", "{}");
    "a ring of two arcs, both reversed, beside an arc that no list uses", topology!("[[[0,0],[1,0],[0,1]],[[5,5],[1,1]],[[1,1],[-1,0],[0,-1]]]",
        r#"{"a":{"type":"Polygon","arcs":[[-3,-1]]}}"#);
    "a ring of one closed arc", topology!("[[[1,0],[0,1],[-1,0],[0,-1],[1,0]]]",
        r#"{"a":{"type":"Polygon","arcs":[[0]]}}"#);
    "layers out of order, and a geometry of each kind", topology!("[[[0,0],[1,0]],[[1,0],[0,1],[-1,-1]],[[9,9],[-9,-9]]]",
        r#"{"b":{"type":"GeometryCollection","geometries":[{"type":"MultiPolygon","arcs":[[[0,1]],[[1,0]]],"id":7},{"type":"MultiPoint","coordinates":[[3,4]]},{"type":"MultiLineString","arcs":[[-1],[2,0]]},{"type":null,"id":"n","properties":{"x":1}},{"type":"Point","coordinates":[1,2]}]},"a":{"type":"LineString","arcs":[-2]},"":{"type":"GeometryCollection","geometries":[]}}"#);
    "features with ids out of order, and one of them twice", topology!("[[[0,0],[1,0]]]",
        r#"{"a":{"type":"GeometryCollection","geometries":[{"type":"LineString","arcs":[0],"id":2},{"type":"LineString","arcs":[0],"id":1},{"type":"LineString","arcs":[0],"id":2}]}}"#);
    "an arc that no list uses, as another tool may write it", OTHER_TOOL;
};

#[test]
fn parts_that_stitch(rt: HostRuntime) -> Result<(), Fail> {
    for (title, text) in STITCHED {
        assert!(rt; is_stitched(rt.alloc(), *text)?, "{title}");
    }
    Ok(())
}

/// Texts with a list that stitches to no line or ring.
const NOT_STITCHED: &[(&str, &str)] = rows! {
    "a line that is broken off", topology!("[[[0,0],[1,0]],[[2,0],[1,0]]]",
        r#"{"a":{"type":"LineString","arcs":[0,1]}}"#);
    "a line forth and back", topology!("[[[0,0],[1,0]]]", r#"{"a":{"type":"LineString","arcs":[0,-1]}}"#);
    "a line of no arcs", topology!("[[[0,0],[1,0]]]", r#"{"a":{"type":"LineString","arcs":[]}}"#);
    "a ring that doesn't close, of one segment", topology!("[[[0,0],[1,0]]]", r#"{"a":{"type":"Polygon","arcs":[[0]]}}"#);
    "the second line uses an arc twice", topology!("[[[0,0],[1,0],[0,1]]]",
        r#"{"a":{"type":"MultiLineString","arcs":[[0],[0,0]]}}"#);
    "a ring that doesn't close", topology!("[[[0,0],[1,0],[0,1],[-1,0]]]",
        r#"{"a":{"type":"Polygon","arcs":[[0]]}}"#);
    "a fault in the second layer alone: a ring that doesn't close", topology!("[[[0,0],[1,0],[0,1]],[[1,1],[-1,-1]]]",
        r#"{"a":{"type":"Point","coordinates":[0,0]},"b":{"type":"GeometryCollection","geometries":[{"type":null},{"type":"MultiPolygon","arcs":[[[0,1]],[[0,1],[0]]]}]}}"#);
};

#[test]
fn parts_that_do_not_stitch(rt: HostRuntime) -> Result<(), Fail> {
    for (title, text) in NOT_STITCHED {
        assert!(rt; map_of(rt.alloc(), *text)?.is_none(), "{title}: parts");
        assert!(rt; is_refused(rt.alloc(), *text), "{title}");
    }
    Ok(())
}
