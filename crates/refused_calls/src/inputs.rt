//! Maps and topologies of texts, and positions, to be lent to calls.

use grid::Pos;
use shapes::FeatureMap;
use std::alloc::Global;
use topo::Topology;

/// The features of a topology's text; none where memory is wanting.
pub fn read(alloc: Global, text: &str) -> Option<FeatureMap> {
    let (_, map) = topo_io::read(alloc, text.as_bytes()).ok()?;
    Some(map)
}

/// The topology of a text; none where memory is wanting.
pub fn built(alloc: Global, text: &str) -> Option<Topology> {
    let (grid, map) = topo_io::read(alloc, text.as_bytes()).ok()?;
    Topology::build(alloc, &grid, &map).ok()
}

/// Whether a topology is that of a text.
pub fn is_of(topology: &Topology, text: &str) -> bool {
    topo_io::is_text_of(topology, text.as_bytes())
}

/// Positions at these places; none where memory is wanting.
pub fn positions(alloc: Global, places: &[(i64, i64)]) -> Option<Vec<Pos>> {
    let mut made = Vec::new(alloc);
    for (x, y) in places {
        made.push(Pos::new(*x, *y)?).ok()?;
    }
    Some(made)
}
