//! Maps joined by plans over each kind of shard. Expected texts are worked out by hand.
use crate::tests::inputs::{GROUPINGS, Grouping, ON_SCALE_TWO, plan_of};
use merging::{ByHalves, JoinMany};
use refine::cut_all::AtOnce;
use refine::cut_shard::Cut;
use refine::shard::Shard;
use refine::whole::Whole;
use refine::{JoinFault, run_plan};
use refused_calls::texts::THREE;
use shapes::{FeatureMap, Shape};
use std::alloc::Global;
use std::process::Abort;
use std::test::Fail;
use worked_maps::{FIRST, Places, SECOND, THIRD, boxed, insert, line, polygon, unit_grid};

const FROM_CORNER: &[(i64, i64)] = &[(1, 1), (2, 2)];

const CORNER: &str =
    "{\"arcs\":[[[1,1],[-1,0],[0,-1],[1,0],[0,1]],[[1,1],[1,1]]],\"bbox\":[0,0,2,2],\"objects\":{\"a\":{\"geometries\":[{\"arcs\":[[0]],\"type\":\"Polygon\"}],\"type\":\"GeometryCollection\"},\"b\":{\"geometries\":[{\"arcs\":[1],\"type\":\"LineString\"},{\"arcs\":[[0]],\"type\":\"Polygon\"}],\"type\":\"GeometryCollection\"}},\"transform\":{\"scale\":[1,1],\"translate\":[0,0]},\"type\":\"Topology\"}";

/// How many squares each of some shards has.
const COUNTS: &[i64] = &[1, 7, 1, 1, 3, 12, 2, 1, 1, 5, 9, 1, 4];

/// The map of one layer without features.
fn map_of(alloc: Global, layer: &str) -> Result<FeatureMap, Fail> {
    let mut map = FeatureMap::new(alloc);
    map.add_layer(layer)?;
    Ok(map)
}

/// The map of one layer with one square.
fn map_of_square(alloc: Global, layer: &str, places: Places) -> Result<FeatureMap, Fail> {
    let mut map = map_of(alloc, layer)?;
    insert(alloc, &mut map, layer, polygon(alloc, places)?)?;
    Ok(map)
}

/// The map of one layer with a line from a corner of the first square.
fn map_of_line(alloc: Global, layer: &str) -> Result<FeatureMap, Fail> {
    let mut map = map_of(alloc, layer)?;
    insert(alloc, &mut map, layer, line(alloc, FROM_CORNER)?)?;
    Ok(map)
}

fn shards<S: Shard>(alloc: Global, maps: &[FeatureMap]) -> Result<Vec<S>, Fail> {
    let grid = unit_grid()?;
    let mut made = Vec::new(alloc);
    for map in maps {
        made.push(S::from_map(alloc, &grid, map)?)?;
    }
    Ok(made)
}

/// Whether shards that are joined in a grouping have this text.
fn is_joined<S: Shard>(
    alloc: Global,
    shards: &[S],
    grouping: Grouping,
    text: &[u8],
) -> Result<bool, Fail> {
    let plan = plan_of(alloc, grouping, shards.len())?;
    let joined = boxed(alloc, run_plan(alloc, shards, &plan))?;
    Ok(joined.text(alloc)?.as_slice() == text)
}

/// Joins the maps as shards of a kind in each grouping, and compares the text.
fn check_shards<S: Shard>(
    rt: &impl Abort,
    alloc: Global,
    maps: &[FeatureMap],
    text: &[u8],
) -> Result<(), Fail> {
    let shards: Vec<S> = shards(alloc, maps)?;
    for grouping in GROUPINGS {
        assert!(rt;
            is_joined(alloc, shards.as_slice(), grouping, text)?,
            "{grouping:?}"
        );
    }
    Ok(())
}

/// Joins the maps as shards of each kind, and compares the text.
fn check_each_kind(
    rt: &impl Abort,
    alloc: Global,
    maps: &[FeatureMap],
    text: &[u8],
) -> Result<(), Fail> {
    check_shards::<Whole>(rt, alloc, maps, text)?;
    check_shards::<Cut>(rt, alloc, maps, text)
}

fn squares(alloc: Global, rings: &[Places]) -> Result<Vec<FeatureMap>, Fail> {
    let mut maps = Vec::new(alloc);
    for places in rings {
        maps.push(map_of_square(alloc, "a", *places)?)?;
    }
    Ok(maps)
}

fn check_squares(rt: &impl Abort, alloc: Global, rings: &[Places]) -> Result<(), Fail> {
    let maps = squares(alloc, rings)?;
    check_each_kind(rt, alloc, maps.as_slice(), THREE.as_bytes())
}

#[test]
fn squares_in_a_row(rt: HostRuntime) -> Result<(), Fail> {
    check_squares(&rt, rt.alloc(), &[FIRST, SECOND, THIRD])?;
    check_squares(&rt, rt.alloc(), &[THIRD, FIRST, SECOND, FIRST])
}

/// A square twice in the layer `a`, once in the layer `b`, and beside that a line from a corner of it.
fn squares_and_line(alloc: Global) -> Result<Vec<FeatureMap>, Fail> {
    let mut maps = squares(alloc, &[FIRST, FIRST])?;
    maps.push(map_of_square(alloc, "b", FIRST)?)?;
    maps.push(map_of_line(alloc, "b")?)?;
    Ok(maps)
}

/// A square in two layers, and in one of them a line from a corner of it, which becomes its seam.
#[test]
fn a_line_from_a_corner(rt: HostRuntime) -> Result<(), Fail> {
    let maps = squares_and_line(rt.alloc())?;
    check_each_kind(&rt, rt.alloc(), maps.as_slice(), CORNER.as_bytes())
}

/// The unit square that begins at this place of a row.
fn square(alloc: Global, left: i64) -> Result<Shape, Fail> {
    let right = left.saturating_add(1);
    let places = [(left, 0), (right, 0), (right, 1), (left, 1), (left, 0)];
    polygon(alloc, &places)
}

/// The map of squares in a row, from a place of it to another.
fn row(alloc: Global, first: i64, end: i64) -> Result<FeatureMap, Fail> {
    let mut map = map_of(alloc, "a")?;
    for left in first..end {
        insert(alloc, &mut map, "a", square(alloc, left)?)?;
    }
    Ok(map)
}

/// Rows of many squares and of few, one after the other, each with the square before its own.
fn rows(alloc: Global) -> Result<Vec<FeatureMap>, Fail> {
    let mut maps = Vec::new(alloc);
    let mut first: i64 = 0;
    for count in COUNTS {
        let end = first.saturating_add(*count);
        maps.push(row(alloc, first.saturating_sub(1), end)?)?;
        first = end;
    }
    Ok(maps)
}

/// The text of the map of all rows.
fn text_of_rows(alloc: Global) -> Result<Vec<u8>, Fail> {
    let whole = Whole::from_map(alloc, &unit_grid()?, &row(alloc, -1, 48)?)?;
    Ok(whole.text(alloc)?)
}

/// Large shards joined with small ones, in each grouping and in both orders: the text of the join
/// of their maps.
#[test]
fn shards_of_many_sizes(rt: HostRuntime) -> Result<(), Fail> {
    let mut maps = rows(rt.alloc())?;
    let text = text_of_rows(rt.alloc())?;
    check_each_kind(&rt, rt.alloc(), maps.as_slice(), text.as_slice())?;
    maps.reverse();
    check_shards::<Cut>(&rt, rt.alloc(), maps.as_slice(), text.as_slice())
}

/// Two squares on one grid, and no layer on another.
fn shards_on_two_grids(alloc: Global) -> Result<Vec<Cut>, Fail> {
    let maps = squares(alloc, &[FIRST, SECOND])?;
    let mut made: Vec<Cut> = shards(alloc, maps.as_slice())?;
    let (grid, map) = topo_io::read(alloc, ON_SCALE_TWO.as_bytes())?;
    made.push(Cut::from_map(alloc, &grid, &map)?)?;
    Ok(made)
}

/// Whether a way to join many finds that the third shard is on another grid.
fn finds_two_grids<J: JoinMany<Cut>>(alloc: Global) -> Result<bool, Fail> {
    let shards = shards_on_two_grids(alloc)?;
    if shards.is_empty() {
        return Ok(false);
    }
    Ok(matches!(J::join_many(alloc, shards), Err(JoinFault::OtherGrid)))
}

#[test]
fn shards_on_two_grids_are_refused(rt: HostRuntime) -> Result<(), Fail> {
    assert!(rt; finds_two_grids::<AtOnce>(rt.alloc())?);
    assert!(rt; finds_two_grids::<ByHalves>(rt.alloc())?);
    Ok(())
}
