//! Reading files.

use grid::Grid;
use serde_json::Value;
use shapes::{Feature, FeatureMap};
use std::collections::BTreeSet;
use std::fs;
use topo::Topology;

/// Reads files as JSON values, and holds them all; nothing is printed.
pub fn read_values(rt: &HostRuntime, names: &[String]) -> Option<()> {
    let mut values = Vec::new(rt.alloc());
    for name in names {
        let bytes = fs::read(rt, name.as_str()).ok()?;
        let value = Value::from_slice(rt.alloc(), bytes.as_slice()).ok()?;
        values.push(value).ok()?;
    }
    Some(())
}

/// Reads the features of GeoJSON files, and gives up each file's before the next; nothing is printed.
pub fn read_features(rt: &HostRuntime, names: &[String]) -> Option<()> {
    let grid = unit_grid()?;
    for name in names {
        features_of(rt, &grid, name.as_str())?;
    }
    Some(())
}

/// The grid of scale 1 and translation 0.
pub fn unit_grid() -> Option<Grid> {
    Grid::new(1, 1, 0, 0)
}

/// The features of a GeoJSON file.
pub fn features_of(rt: &HostRuntime, grid: &Grid, name: &str) -> Option<BTreeSet<Feature>> {
    let bytes = fs::read(rt, name).ok()?;
    geojson_io::read(rt.alloc(), bytes.as_slice(), grid).ok()
}

/// The features of a GeoJSON file, in one layer.
pub fn read_map(rt: &HostRuntime, grid: &Grid, layer: &str, name: &str) -> Option<FeatureMap> {
    let features = features_of(rt, grid, name)?;
    FeatureMap::new(rt.alloc())
        .with_features(layer, features)
        .ok()
}

/// The topology of the features of a GeoJSON file, in one layer.
pub fn read_topology(rt: &HostRuntime, grid: &Grid, layer: &str, name: &str) -> Option<Topology> {
    let map = read_map(rt, grid, layer, name)?;
    Topology::build(rt.alloc(), grid, &map).ok()
}
