//! `write_layer`, `feature`, `mesh`, `borders`, `neighbors` and the writers of their answers, called on topologies.
use crate::inputs::{BOW_TIE_TOPOLOGY, EMPTY, SHARED_EDGE};
use crate::scripts::{script, took};
use crate::{rows, topology};
use query::{
    Edges, LayerFault, QueryFault, borders, feature, mesh, neighbors, write_layer, write_mesh,
    write_neighbors,
};
use shapes::Feature;
use sinks::{Answer, Kept, Script};
use std::alloc::Global;
use std::process::Abort;
use std::test::Fail;
use topo::Topology;

/// Two squares that share an edge, and the collection that they are printed as.
const SQUARES_PRINTED: &str =
    r#"{"features":[{"geometry":{"coordinates":[[[0,0],[1,0],[1,1],[0,1],[0,0]]],"type":"Polygon"},"properties":{},"type":"Feature"},{"geometry":{"coordinates":[[[1,0],[2,0],[2,1],[1,1],[1,0]]],"type":"Polygon"},"properties":{},"type":"Feature"}],"type":"FeatureCollection"}"#;

/// A ring whose list of arcs begins at (1,1), which it visits twice.
const BOW_TIE_PRINTED: &str =
    r#"{"features":[{"geometry":{"coordinates":[[[0,0],[2,0],[1,1],[0,2],[2,2],[1,1],[0,0]]],"type":"Polygon"},"properties":{},"type":"Feature"}],"type":"FeatureCollection"}"#;

/// The borders of the two squares, each stretch once.
const SQUARES_BORDERS: &str =
    r#"{"coordinates":[[[1,0],[0,0],[0,1],[1,1]],[[1,0],[1,1]],[[1,0],[2,0],[2,1],[1,1]]],"type":"MultiLineString"}"#;

/// A collection without features.
const NOTHING_PRINTED: &str = r#"{"features":[],"type":"FeatureCollection"}"#;

/// A title, a topology, and what its layer `a` is printed as.
const PRINTED: &[(&str, &str, &str)] = rows![
    "two squares", SHARED_EDGE, SQUARES_PRINTED;
    "a ring that visits a vertex twice", BOW_TIE_TOPOLOGY, BOW_TIE_PRINTED;
    "no feature", EMPTY, NOTHING_PRINTED;
];

/// In a box, which is dropped by one call.
fn topology(alloc: Global, text: &str) -> Result<Box<Topology>, Fail> {
    let (grid, map) = topo_io::read(alloc, text.as_bytes())?;
    Ok(Box::new(alloc, Topology::build(alloc, &grid, &map)?)?)
}

/// Whether this is what was kept.
fn has_kept(kept: Kept, text: &str) -> bool {
    kept.into_bytes().as_slice() == text.as_bytes()
}

/// Whether the layer `a` is written as this text.
fn is_layer(alloc: Global, topology: &Topology, text: &str) -> bool {
    let mut kept = Kept::new(alloc);
    let written = write_layer(topology, "a", &mut kept);
    has_kept(kept, text) && written.is_ok()
}

/// Whether the features of the layer `a` are written as this text.
fn are_features(alloc: Global, topology: &Topology, text: &str) -> Result<bool, Fail> {
    let features = feature(alloc, topology, "a")?;
    let mut kept = Kept::new(alloc);
    let written = geojson_io::write(&topology.grid(), features.iter(), &mut kept);
    Ok(has_kept(kept, text) && written.is_ok())
}

fn is_written(alloc: Global, text: &str, printed: &str) -> Result<bool, Fail> {
    let topology = topology(alloc, text)?;
    Ok(is_layer(alloc, &*topology, printed) && are_features(alloc, &*topology, printed)?)
}

#[test]
fn a_layer_is_written_as_its_features_are(rt: HostRuntime) -> Result<(), Fail> {
    for (title, text, printed) in PRINTED {
        assert!(rt; is_written(rt.alloc(), *text, *printed)?, "{title}");
    }
    Ok(())
}

/// Whether the layer `a` of the map that a topology expands to is written as this text.
fn expands(alloc: Global, topology: &Topology, text: &str) -> Result<bool, Fail> {
    let map = topology.expand(alloc)?;
    let features = map.layer("a").ok_or("no layer")?;
    let mut kept = Kept::new(alloc);
    let written = geojson_io::write(&topology.grid(), features.iter(), &mut kept);
    Ok(has_kept(kept, text) && written.is_ok())
}

/// Whether all borders of the layer `a` are written as this text.
fn are_borders(alloc: Global, topology: &Topology, text: &str) -> Result<bool, Fail> {
    let lines = mesh(alloc, topology, Some("a"), |_: &Feature, _: &Feature| true)?;
    let mut kept = Kept::new(alloc);
    let written = write_mesh(&topology.grid(), &lines, &mut kept);
    Ok(has_kept(kept, text) && written.is_ok())
}

#[test]
fn a_topology_expands_to_its_map(rt: HostRuntime) -> Result<(), Fail> {
    let topology = topology(rt.alloc(), SHARED_EDGE)?;
    assert!(rt; expands(rt.alloc(), &*topology, SQUARES_PRINTED)?);
    Ok(())
}

#[test]
fn borders_are_written_in_the_order_of_the_mesh(rt: HostRuntime) -> Result<(), Fail> {
    let topology = topology(rt.alloc(), SHARED_EDGE)?;
    assert!(rt; are_borders(rt.alloc(), &*topology, SQUARES_BORDERS)?);
    Ok(())
}

/// A square in two layers, and in the second its right edge.
const SQUARE_TWICE: &str = topology!(
    r#"{"arcs":[[[1,0],[-1,0],[0,1],[1,0]],[[1,0],[0,1]]],"bbox":[0,0,1,1],"objects":{"a":{"geometries":[{"arcs":[[1,-1]],"type":"Polygon"}],"type":"GeometryCollection"},"b":{"geometries":[{"arcs":[1],"type":"LineString"},{"arcs":[[1,-1]],"type":"Polygon"}],"type":"GeometryCollection"}},"#
);

/// One line with two ids, in two layers.
const TWINS: &str = topology!(
    r#"{"arcs":[[[0,0],[1,0]]],"bbox":[0,0,1,0],"objects":{"a":{"geometries":[{"arcs":[0],"id":1,"type":"LineString"}],"type":"GeometryCollection"},"b":{"geometries":[{"arcs":[0],"id":2,"type":"LineString"}],"type":"GeometryCollection"}},"#
);

/// A title, a topology, a layer, which edges of it are asked for, and the text of these borders.
type BordersRow = (
    &'static str,
    &'static str,
    Option<&'static str>,
    Edges,
    &'static str,
);

const BORDERS: &[BordersRow] = rows![
    "all of a layer", SHARED_EDGE, Some("a"), Edges::All, SQUARES_BORDERS;
    "all of all layers", SHARED_EDGE, None, Edges::All, SQUARES_BORDERS;
    "between two squares", SHARED_EDGE, Some("a"), Edges::Interior, r#"{"coordinates":[[[1,0],[1,1]]],"type":"MultiLineString"}"#;
    "the outline of two squares", SHARED_EDGE, None, Edges::Exterior, r#"{"coordinates":[[[0,0],[0,1],[1,1],[2,1],[2,0],[1,0],[0,0]]],"type":"MultiLineString"}"#;
    "a ring that visits a vertex twice", BOW_TIE_TOPOLOGY, Some("a"), Edges::All, r#"{"coordinates":[[[1,1],[0,0],[2,0],[1,1]],[[1,1],[0,2],[2,2],[1,1]]],"type":"MultiLineString"}"#;
    "one feature has no edge with itself", BOW_TIE_TOPOLOGY, Some("a"), Edges::Interior, r#"{"coordinates":[],"type":"MultiLineString"}"#;
    "no feature", EMPTY, None, Edges::All, r#"{"coordinates":[],"type":"MultiLineString"}"#;
    "between one feature in two layers and another", SQUARE_TWICE, None, Edges::Interior, r#"{"coordinates":[[[1,0],[1,1]]],"type":"MultiLineString"}"#;
    "of one feature in two layers", SQUARE_TWICE, None, Edges::Exterior, r#"{"coordinates":[[[1,0],[0,0],[0,1],[1,1]]],"type":"MultiLineString"}"#;
    "between features equal but for ids", TWINS, None, Edges::Interior, r#"{"coordinates":[[[0,0],[1,0]]],"type":"MultiLineString"}"#;
    "of features equal but for ids", TWINS, None, Edges::Exterior, r#"{"coordinates":[],"type":"MultiLineString"}"#;
    "of one of them, in a layer of its own", TWINS, Some("b"), Edges::Exterior, r#"{"coordinates":[[[0,0],[1,0]]],"type":"MultiLineString"}"#;
];

/// Whether the borders that a row asks for are written as its text.
fn are_edges(alloc: Global, row: BordersRow) -> Result<bool, Fail> {
    let (_, text, layer, edges, printed) = row;
    let topology = topology(alloc, text)?;
    let lines = borders(alloc, &*topology, layer, edges)?;
    let mut kept = Kept::new(alloc);
    let written = write_mesh(&topology.grid(), &lines, &mut kept);
    Ok(has_kept(kept, printed) && written.is_ok())
}

#[test]
fn borders_by_their_edges(rt: HostRuntime) -> Result<(), Fail> {
    for row in BORDERS {
        assert!(rt; are_edges(rt.alloc(), *row)?, "{}", row.0);
    }
    Ok(())
}

#[test]
fn borders_of_a_layer_that_is_not_there(rt: HostRuntime) -> Result<(), Fail> {
    let topology = topology(rt.alloc(), SHARED_EDGE)?;
    for edges in [Edges::All, Edges::Interior, Edges::Exterior] {
        let fault = borders(rt.alloc(), &*topology, Some("b"), edges).err();
        assert!(rt; fault == Some(QueryFault::NoLayer), "{edges:?}");
    }
    Ok(())
}

/// Whether the neighbours in the layer `a` are written as this text.
fn are_neighbors(alloc: Global, topology: &Topology, text: &str) -> Result<bool, Fail> {
    let lists = neighbors(alloc, topology, "a")?;
    let mut kept = Kept::new(alloc);
    let written = write_neighbors(lists.as_slice(), &mut kept);
    Ok(has_kept(kept, text) && written.is_ok())
}

#[test]
fn neighbors_are_written_feature_by_feature(rt: HostRuntime) -> Result<(), Fail> {
    let topology = topology(rt.alloc(), SHARED_EDGE)?;
    assert!(rt; are_neighbors(rt.alloc(), &*topology, "[[1],[0]]")?);
    Ok(())
}

#[test]
fn a_layer_is_written_a_byte_a_call(rt: HostRuntime) -> Result<(), Fail> {
    let topology = topology(rt.alloc(), SHARED_EDGE)?;
    let mut sink = script(rt.alloc(), SQUARES_PRINTED.len(), Answer::Fail)?;
    assert!(rt; write_layer(&*topology, "a", &mut sink).is_ok());
    assert!(rt; took(&sink, SQUARES_PRINTED.as_bytes(), SQUARES_PRINTED.len(), 0));
    Ok(())
}

/// Whether the writing of a layer ends with the first failure, which comes with a last byte.
fn stops(alloc: Global, topology: &Topology, calls: usize) -> Result<bool, Fail> {
    let mut sink = script(alloc, calls, Answer::FailAfter(1))?;
    let fault = write_layer(topology, "a", &mut sink).err();
    Ok(
        fault == Some(LayerFault::Write)
            && took(
                &sink,
                SQUARES_PRINTED.as_bytes(),
                calls.saturating_add(1),
                1,
            ),
    )
}

#[test]
fn a_layer_stops_at_each_failure(rt: HostRuntime) -> Result<(), Fail> {
    let topology = topology(rt.alloc(), SHARED_EDGE)?;
    for calls in 0..SQUARES_PRINTED.len() {
        assert!(rt; stops(rt.alloc(), &*topology, calls)?, "{calls}");
    }
    Ok(())
}

#[test]
fn a_layer_that_is_not_there(rt: HostRuntime) -> Result<(), Fail> {
    let topology = topology(rt.alloc(), SHARED_EDGE)?;
    let mut sink = script(rt.alloc(), 0, Answer::Fail)?;
    let fault = write_layer(&*topology, "b", &mut sink).err();
    assert!(rt; fault == Some(LayerFault::NoLayer) && took(&sink, b"", 0, 0));
    let fault = feature(rt.alloc(), &*topology, "b").err();
    assert!(rt; fault == Some(QueryFault::NoLayer));
    Ok(())
}
