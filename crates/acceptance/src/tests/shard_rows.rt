//! Plans that are run as they stand, over shards that keep their map and over shards that keep
//! their topology: the same text in each order and grouping.
use crate::inputs::{UNIONS, Union};
use grid::Grid;
use refine::{Cut, Plan, Shard, Whole, run_plan};
use shapes::FeatureMap;
use std::alloc::Global;
use std::process::Abort;
use std::test::Fail;

/// All orders of two and of three texts.
const ORDERS: &[&[usize]] = &[
    &[0, 1],
    &[1, 0],
    &[0, 1, 2],
    &[0, 2, 1],
    &[1, 0, 2],
    &[1, 2, 0],
    &[2, 0, 1],
    &[2, 1, 0],
];

fn grid() -> Result<Grid, Fail> {
    Ok(Grid::new(1, 1, 0, 0).ok_or("no grid")?)
}

/// The map of a GeoJSON text's features, in the layer `a`.
fn map_of(alloc: Global, grid: &Grid, text: &str) -> Result<FeatureMap, Fail> {
    let features = geojson_io::read(alloc, text.as_bytes(), grid)?;
    Ok(FeatureMap::new(alloc).with_features("a", features)?)
}

/// The shard of a GeoJSON text's features, in the layer `a`.
fn shard<S: Shard>(alloc: Global, text: &str) -> Result<S, Fail> {
    let grid = grid()?;
    let map = map_of(alloc, &grid, text)?;
    Ok(S::from_map(alloc, &grid, &map)?)
}

/// The shards of texts in an order.
fn shards<S: Shard>(alloc: Global, texts: &[&str], order: &[usize]) -> Result<Vec<S>, Fail> {
    let mut made = Vec::new(alloc);
    for place in order {
        let text = texts.get(*place).ok_or("no such text")?;
        made.push(shard::<S>(alloc, *text)?)?;
    }
    Ok(made)
}

#[derive(Clone, Copy)]
enum Grouping {
    Left,
    Right,
    Halves,
}

const GROUPINGS: [Grouping; 3] = [Grouping::Left, Grouping::Right, Grouping::Halves];

/// The plan of so many leaves in a grouping; none of no leaf.
fn grouped(alloc: Global, grouping: Grouping, count: usize) -> Result<Option<Plan>, Fail> {
    Ok(match grouping {
        Grouping::Left => Plan::left(alloc, count)?,
        Grouping::Right => Plan::right(alloc, count)?,
        Grouping::Halves => Plan::halves(alloc, count)?,
    })
}

/// Whether the union's shards, joined in each grouping, have its text.
fn are_joined<S: Shard>(alloc: Global, shards: &[S], union: &Union) -> Result<bool, Fail> {
    for grouping in GROUPINGS {
        let plan = grouped(alloc, grouping, shards.len())?.ok_or("no plan")?;
        let text = run_plan(alloc, shards, &plan)?.text(alloc)?;
        if text.as_slice() != union.topology.as_bytes() {
            return Ok(false);
        }
    }
    Ok(true)
}

/// Whether the union's shards have its text in each order and grouping.
fn is_union<S: Shard>(alloc: Global, union: &Union) -> Result<bool, Fail> {
    for order in ORDERS {
        if order.len() == union.texts.len() {
            let shards = shards::<S>(alloc, union.texts, *order)?;
            if !are_joined(alloc, shards.as_slice(), union)? {
                return Ok(false);
            }
        }
    }
    Ok(true)
}

#[test]
fn shards_of_each_kind(rt: HostRuntime) -> Result<(), Fail> {
    for union in UNIONS {
        let title = union.title;
        assert!(rt; is_union::<Whole>(rt.alloc(), union)?, "{title}: maps");
        assert!(rt; is_union::<Cut>(rt.alloc(), union)?, "{title}: topologies");
    }
    Ok(())
}
