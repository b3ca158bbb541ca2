//! Building topologies, cutting their arcs again and taking features out, each so many times, of which
//! what is made is given up before the next, and then once more.

use crate::inputs::{features_of, read_map, read_topology, unit_grid};
use grid::Grid;
use refine::remove::remove;
use shapes::FeatureMap;
use split_heal::recut;
use std::alloc::Global;
use topo::Topology;

/// The layer of all features.
const LAYER: &str = "a";

/// How many times more, and the files.
fn counted(words: &[String]) -> Option<(usize, &[String])> {
    let (count, names) = words.split_first()?;
    Some((count.as_str().parse::<usize>().ok()?, names))
}

/// How many times more, and two files.
fn counted_two(words: &[String]) -> Option<(usize, &str, &str)> {
    let (count, names) = counted(words)?;
    let [first, second] = names else {
        return None;
    };
    Some((count, first.as_str(), second.as_str()))
}

fn built_last(alloc: Global, grid: &Grid, map: &FeatureMap, count: usize) -> Option<Topology> {
    for _ in 0..count {
        Topology::build(alloc, grid, map).ok()?;
    }
    Topology::build(alloc, grid, map).ok()
}

/// The text of the topology of GeoJSON files.
pub fn build(rt: &HostRuntime, words: &[String]) -> Option<Vec<u8>> {
    let (count, names) = counted(words)?;
    let grid = unit_grid()?;
    let mut map = FeatureMap::new(rt.alloc());
    for name in names {
        let features = features_of(rt, &grid, name.as_str())?;
        map = map.with_features(LAYER, features).ok()?;
    }
    let topology = built_last(rt.alloc(), &grid, &map, count)?;
    topo_io::text_of(rt.alloc(), &topology).ok()
}

fn arcs_of_last(alloc: Global, left: &Topology, right: &Topology, count: usize) -> Option<usize> {
    for _ in 0..count {
        recut(alloc, left.arcs(), right.arcs()).ok()?;
    }
    let made = recut(alloc, left.arcs(), right.arcs()).ok()?;
    Some(made.arcs().len())
}

/// How many arcs those of two GeoJSON files are cut into.
pub fn cut_again(rt: &HostRuntime, words: &[String]) -> Option<Vec<u8>> {
    let (count, left, right) = counted_two(words)?;
    let grid = unit_grid()?;
    let left = read_topology(rt, &grid, LAYER, left)?;
    let right = read_topology(rt, &grid, LAYER, right)?;
    let arcs = arcs_of_last(rt.alloc(), &left, &right, count)?;
    let text = format!(in rt.alloc(); "{arcs} arcs\n").ok()?;
    Some(text.into_bytes())
}

fn left_last(
    alloc: Global,
    whole: &Topology,
    removed: &FeatureMap,
    count: usize,
) -> Option<Topology> {
    for _ in 0..count {
        remove(alloc, whole, removed).ok()?;
    }
    let removal = remove(alloc, whole, removed).ok()?;
    Some(removal.into_topology())
}

/// The text of the topology of a GeoJSON file without the features of another.
pub fn take_out(rt: &HostRuntime, words: &[String]) -> Option<Vec<u8>> {
    let (count, whole, removed) = counted_two(words)?;
    let grid = unit_grid()?;
    let removed = read_map(rt, &grid, LAYER, removed)?;
    let whole = read_topology(rt, &grid, LAYER, whole)?;
    let left = left_last(rt.alloc(), &whole, &removed, count)?;
    topo_io::text_of(rt.alloc(), &left).ok()
}
