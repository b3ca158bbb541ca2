//! Topology texts as they are read: their least faults, and the features that arcs stitch to.
use crate::topo_io_tests::texts::{OTHER_TOOL, collection};
use grid::Pos;
use shapes::{FeatureMap, Shape};
use std::test::Fail;
use topo_io::{read, read_topology};
use worked_maps::{Places, fault_line, positions, rows};

/// The text of a topology on the unit grid with these arcs and layers, its members in order.
macro_rules! topology {
    ($arcs:literal, $objects:literal) => {
        concat!(
            r#"{"arcs":"#,
            $arcs,
            r#","objects":"#,
            $objects,
            r#","transform":{"scale":[1,1],"translate":[0,0]},"type":"Topology"}"#
        )
    };
}

/// Texts, and the least fault of each: that of its features, and that of its topology.
const LEAST: &[(&str, &str, &str)] = rows! {
    "an index past the arcs", topology!("[[[0,0],[1,0]]]", r#"{"a":{"type":"LineString","arcs":[1]}}"#), "11 $/objects/a/arcs/0";
    "a reversed arc where there are none", topology!("[]", r#"{"a":{"type":"LineString","arcs":[-1]}}"#), "11 $/objects/a/arcs/0";
    "a line that is broken off", topology!("[[[0,0],[1,0]],[[2,0],[1,0]]]", r#"{"a":{"type":"LineString","arcs":[0,1]}}"#), "12 $/objects/a/arcs";
    "the least index of 64 bits", topology!("[[[0,0],[1,0]]]", r#"{"a":{"type":"LineString","arcs":[-9223372036854775808]}}"#), "11 $/objects/a/arcs/0";
    "an index past 64 bits", topology!("[[[0,0],[1,0]]]", r#"{"a":{"type":"LineString","arcs":[9223372036854775808]}}"#), "5 $/objects/a/arcs/0";
    "an arc with a position twice in a row", topology!("[[[0,0],[0,0],[1,0]]]", r#"{"a":{"type":"LineString","arcs":[0]}}"#), "accepted";
    "no transform", r#"{"type":"Topology","objects":{},"arcs":[]}"#, "15 $/transform";
    "another type, before arcs of the wrong kind", r#"{"type":"topology","arcs":5}"#, "4 $/type";
    "a transform of the wrong kind", r#"{"type":"Topology","transform":null,"objects":{},"arcs":[]}"#, "3 $/transform";
    "an arc of one position, before a number that is not whole", topology!("[[[0,0]]]", r#"{"a":{"type":"Point","coordinates":[1.0,0]}}"#), "8 $/arcs/0";
    "a step past the greatest number", topology!("[[[1099511627776,0],[1,0]]]", "{}"), "6 $/arcs/0/1/0";
    "steps whose sum is past 64 bits", topology!("[[[0,0],[9223372036854775807,0],[9223372036854775807,0]]]", "{}"), "6 $/arcs/0/1/0";
    "a layer of the wrong kind, whose name has the signs of a path", topology!("[]", r#"{"x/y~z":5}"#), "3 $/objects/x/y~z";
    "the null shape beside arcs that are not there", topology!("[]", r#"{"a":{"type":null,"arcs":[99],"id":"n"}}"#), "accepted";
    "faults of two layers and of two rings", topology!("[]", r#"{"b":{"type":"Point"},"a":{"type":"Polygon","arcs":[[0],[0.5]]}}"#), "11 $/objects/a/arcs/0/0";
    "an absolute number past the greatest", r#"{"arcs":[],"objects":{"a":{"type":"Point","coordinates":[9007199255,0]}},"transform":{"scale":[1000000,1],"translate":[0,0]},"type":"Topology"}"#, "6 $/objects/a/coordinates/0";
    "a line that uses an arc twice", collection!("[[[0,0],[1,0],[0,1]]]", r#"[{"type":"LineString","arcs":[0,-1]}]"#), "10 $/objects/a/geometries/0/arcs";
    "a line twice round a square", collection!("[[[0,0],[0,1],[1,0],[0,-1],[-1,0]]]", r#"[{"type":"LineString","arcs":[0,0]},{"type":"Polygon","arcs":[[0]]}]"#), "10 $/objects/a/geometries/0/arcs";
    "a line that is broken off", collection!("[[[0,0],[1,0]],[[2,0],[1,0]]]", r#"[{"type":"LineString","arcs":[0,1]}]"#), "12 $/objects/a/geometries/0/arcs";
    "a ring that doesn't close", collection!("[[[0,0],[1,0],[0,1]]]", r#"[{"type":"Polygon","arcs":[[0]]}]"#), "9 $/objects/a/geometries/0/arcs/0";
    "an arc that there isn't", collection!("[[[0,0],[1,0]]]", r#"[{"type":"LineString","arcs":[1]}]"#), "11 $/objects/a/geometries/0/arcs/0";
    "an arc of one position", collection!("[[[0,0]]]", "[]"), "8 $/arcs/0";
    "a list that doesn't stitch, before a number that is no id", collection!("[[[0,0],[1,0]],[[2,0],[1,0]]]", r#"[{"type":"LineString","arcs":[0,1]},{"type":"LineString","arcs":[0],"id":true}]"#), "12 $/objects/a/geometries/0/arcs";
};

#[test]
fn least_faults(rt: HostRuntime) -> Result<(), Fail> {
    for (title, text, expected) in LEAST {
        let fault = read(rt.alloc(), text.as_bytes()).err();
        let is_alike = read_topology(rt.alloc(), text.as_bytes()).err() == fault;
        assert!(rt; is_alike, "{title}: of the topology");
        let line = fault_line(rt.alloc(), fault.as_ref())?;
        assert!(rt; line.as_str() == *expected, "{title}: {line}");
    }
    Ok(())
}

/// The vertices of the first ring of the only feature of the layer `a`.
fn only_ring(map: &FeatureMap) -> Option<&[Pos]> {
    let mut features = map.layer("a")?.iter();
    let feature = features.next()?;
    match (&feature.shape, features.next()) {
        (Shape::Polygon(rings), None) => Some(rings.as_slice().first()?.vertices()),
        _ => None,
    }
}

/// The vertices of the unit square at the origin.
const SQUARE: Places = &[(0, 0), (1, 0), (1, 1), (0, 1)];

#[test]
fn stitched_features(rt: HostRuntime) -> Result<(), Fail> {
    let (grid, map) = read(rt.alloc(), OTHER_TOOL.as_bytes())?;
    let square = positions(rt.alloc(), SQUARE)?;
    assert!(rt; grid.scale() == (1, 1) && only_ring(&map) == Some(square.as_slice()));
    Ok(())
}
