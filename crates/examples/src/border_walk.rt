//! An example: merges two shards, prints which features of a layer share a border, and walks the rings of the
//! layer's first polygon.

use chains::ArcRef;
use refine::merge_topologies;
use std::fs;
use topo::{Body, Topology};

/// The topology of the shards in two files; none where a file can't be read, a text is refused, their
/// grids differ, or memory is wanting.
fn merge_files(rt: &HostRuntime, left: &str, right: &str) -> Option<Topology> {
    let alloc = rt.alloc();
    let mut texts = Vec::new(alloc);
    texts.push(fs::read(rt, left).ok()?).ok()?;
    texts.push(fs::read(rt, right).ok()?).ok()?;
    merge_topologies(alloc, texts).ok()?
}

/// Prints which others each feature of the layer shares a border with.
fn print_neighbors(rt: &HostRuntime, topology: &Topology, layer: &str) -> Option<()> {
    let lists = query::neighbors(rt.alloc(), topology, layer).ok()?;
    for (place, others) in lists.iter().enumerate() {
        println!(rt; "feature {place} shares a border with {others:?}").ok()?;
    }
    Some(())
}

/// Prints the absolute positions that a list of arcs stitches to.
fn print_walk(rt: &HostRuntime, topology: &Topology, refs: &[ArcRef]) -> Option<()> {
    let grid = topology.grid();
    for position in topology.walk(refs) {
        let (x, y) = grid.to_absolute(*position);
        println!(rt; "{x},{y}").ok()?;
    }
    Some(())
}

/// Walks the rings of the first polygon of the layer, if there is one.
fn print_polygon(rt: &HostRuntime, topology: &Topology, layer: &str) -> Option<()> {
    for (place, geometry) in topology.geometries(layer)?.iter().enumerate() {
        if let Body::Polygon(rings) = &geometry.body {
            for ring in rings.as_slice() {
                println!(rt;
                    "a ring of feature {place}, along {} arcs:",
                    ring.as_slice().len()
                )
                .ok()?;
                print_walk(rt, topology, ring.as_slice())?;
            }
            return Some(());
        }
    }
    Some(())
}

/// Merges the topologies of two files, and prints what the borders of a layer are.
pub fn walk_borders(rt: &HostRuntime, words: &[String]) -> Option<()> {
    let [left, right, layer] = words else {
        return None;
    };
    let topology = merge_files(rt, left.as_str(), right.as_str())?;
    print_neighbors(rt, &topology, layer.as_str())?;
    print_polygon(rt, &topology, layer.as_str())
}
