//! What texts of topologies mean, plans of each grouping, what a text is compared with, and ids of numbers.
use refine::Plan;
use shapes::{FeatureMap, Id};
use std::alloc::Global;
use std::test::Fail;
use topo::Topology;
use worked_maps::boxed;

/// No layer, on another grid.
pub(crate) const ON_SCALE_TWO: &str =
    r#"{"arcs":[],"objects":{},"transform":{"scale":[2,2],"translate":[0,0]},"type":"Topology"}"#;

/// The id of a number, where 0 is none.
pub(crate) fn id_of(number: i64) -> Id {
    if number == 0 {
        Id::None
    } else {
        Id::Number(number)
    }
}

/// The features of a text.
pub(crate) fn map_of(alloc: Global, text: &str) -> Result<FeatureMap, Fail> {
    let (_, map) = topo_io::read(alloc, text.as_bytes())?;
    Ok(map)
}

/// The topology of a text.
pub(crate) fn topology_of(alloc: Global, text: &str) -> Result<Box<Topology>, Fail> {
    let (grid, map) = topo_io::read(alloc, text.as_bytes())?;
    boxed(alloc, Topology::build(alloc, &grid, &map))
}

/// Whether this is the text of a topology.
pub(crate) fn is_text_of(alloc: Global, topology: &Topology, text: &str) -> Result<bool, Fail> {
    Ok(topo_io::text_of(alloc, topology)?.as_slice() == text.as_bytes())
}

#[derive(Clone, Copy, Debug)]
pub(crate) enum Grouping {
    Left,
    Right,
    Halves,
}

pub(crate) const GROUPINGS: [Grouping; 3] = [Grouping::Left, Grouping::Right, Grouping::Halves];

/// The plan of so many leaves in a grouping; none of no leaf.
pub(crate) fn grouped(
    alloc: Global,
    grouping: Grouping,
    count: usize,
) -> Result<Option<Plan>, Fail> {
    Ok(match grouping {
        Grouping::Left => Plan::left(alloc, count)?,
        Grouping::Right => Plan::right(alloc, count)?,
        Grouping::Halves => Plan::halves(alloc, count)?,
    })
}

/// The plan of some leaves in a grouping.
pub(crate) fn plan_of(alloc: Global, grouping: Grouping, count: usize) -> Result<Plan, Fail> {
    Ok(grouped(alloc, grouping, count)?.ok_or("no plan")?)
}
