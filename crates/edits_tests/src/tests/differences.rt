//! `compare`, on two maps of one layer.
use crate::tests::inputs::id_of;
use compare::{Changed, CompareFault, Comparison, LayerDifference, compare};
use grid::Grid;
use serde_json::Value;
use shapes::{Feature, FeatureMap, Props};
use std::alloc::Global;
use std::test::Fail;
use topo::Topology;
use worked_maps::{FIRST, Places, SECOND, THIRD, TRIANGLE, TURNED_TRIANGLE, boxed, polygon};

/// The square of `FIRST`, begun at another vertex.
const FIRST_TURNED: Places = &[(1, 1), (0, 1), (0, 0), (1, 0), (1, 1)];

/// A polygon of one ring: its id, where 0 is none, its properties, and its ring.
#[derive(Clone, Copy)]
struct Drawn(i64, &'static str, Places);

/// A title; the old layer and the new one; and the numbers that are removed, added and changed.
#[derive(Clone, Copy)]
struct Row {
    title: &'static str,
    old: &'static [Drawn],
    new: &'static [Drawn],
    removed: &'static [usize],
    added: &'static [usize],
    changed: &'static [(usize, usize)],
}

/// What differs.
const ROWS: &[Row] = &[
    Row {
        title: "nothing",
        old: &[],
        new: &[],
        removed: &[],
        added: &[],
        changed: &[],
    },
    Row {
        title: "the same features in another order",
        old: &[Drawn(1, "{}", FIRST), Drawn(2, "{}", SECOND)],
        new: &[Drawn(2, "{}", SECOND), Drawn(1, "{}", FIRST)],
        removed: &[],
        added: &[],
        changed: &[],
    },
    Row {
        title: "one goes and one comes",
        old: &[Drawn(1, "{}", FIRST), Drawn(2, "{}", SECOND)],
        new: &[Drawn(2, "{}", SECOND), Drawn(3, "{}", THIRD)],
        removed: &[0],
        added: &[1],
        changed: &[],
    },
    Row {
        title: "a new neighbour splits the arcs of a feature that stays",
        old: &[Drawn(1, "{}", FIRST)],
        new: &[Drawn(1, "{}", FIRST), Drawn(2, "{}", SECOND)],
        removed: &[],
        added: &[1],
        changed: &[],
    },
    Row {
        title: "other properties",
        old: &[Drawn(1, "{}", FIRST), Drawn(2, "{\"n\":1}", SECOND)],
        new: &[Drawn(1, "{}", FIRST), Drawn(2, "{\"n\":2}", SECOND)],
        removed: &[],
        added: &[],
        changed: &[(1, 1)],
    },
    Row {
        title: "another shape",
        old: &[Drawn(7, "{}", FIRST)],
        new: &[Drawn(5, "{}", FIRST), Drawn(7, "{}", SECOND)],
        removed: &[],
        added: &[0],
        changed: &[(0, 1)],
    },
    Row {
        title: "a ring in the other direction",
        old: &[Drawn(1, "{}", TRIANGLE)],
        new: &[Drawn(1, "{}", TURNED_TRIANGLE)],
        removed: &[],
        added: &[],
        changed: &[(0, 0)],
    },
    Row {
        title: "a ring that begins at another vertex is the same",
        old: &[Drawn(1, "{}", FIRST)],
        new: &[Drawn(1, "{}", FIRST_TURNED)],
        removed: &[],
        added: &[],
        changed: &[],
    },
    Row {
        title: "without an id",
        old: &[Drawn(0, "{}", FIRST), Drawn(0, "{}", THIRD)],
        new: &[Drawn(0, "{}", SECOND), Drawn(0, "{}", THIRD)],
        removed: &[0],
        added: &[0],
        changed: &[],
    },
    Row {
        title: "an id that stands twice in the new layer",
        old: &[Drawn(1, "{}", FIRST)],
        new: &[Drawn(1, "{}", SECOND), Drawn(1, "{}", THIRD)],
        removed: &[0],
        added: &[0, 1],
        changed: &[],
    },
    Row {
        title: "an id that stands twice in the old layer, once as it stays",
        old: &[Drawn(1, "{}", FIRST), Drawn(1, "{}", SECOND)],
        new: &[Drawn(1, "{}", FIRST)],
        removed: &[1],
        added: &[],
        changed: &[],
    },
];

fn props(alloc: Global, text: &str) -> Result<Props, Fail> {
    let value = boxed(alloc, Value::from_str(alloc, text))?;
    Ok(Props::from_value(alloc, &*value)?)
}

fn feature(alloc: Global, drawn: Drawn) -> Result<Feature, Fail> {
    let Drawn(number, text, places) = drawn;
    let props = props(alloc, text)?;
    let shape = polygon(alloc, places)?;
    Ok(Feature {
        id: id_of(number),
        props,
        shape,
    })
}

fn topology(
    alloc: Global,
    layer: &str,
    scale: i64,
    features: &[Drawn],
) -> Result<Box<Topology>, Fail> {
    let grid = Grid::new(scale, scale, 0, 0).ok_or("no grid")?;
    let mut map = FeatureMap::new(alloc);
    map.add_layer(layer)?;
    for drawn in features {
        map.insert(layer, feature(alloc, *drawn)?)?;
    }
    boxed(alloc, Topology::build(alloc, &grid, &map))
}

fn compared(alloc: Global, row: Row) -> Result<Box<Comparison>, Fail> {
    let old = topology(alloc, "a", 1, row.old)?;
    let new = topology(alloc, "a", 1, row.new)?;
    boxed(alloc, compare(alloc, &*old, &*new))
}

fn are_pairs(changed: &[Changed], pairs: &[(usize, usize)]) -> bool {
    changed.len() == pairs.len()
        && changed
            .iter()
            .zip(pairs.iter())
            .all(|(made, pair)| made.old == pair.0 && made.new == pair.1)
}

fn is_row(difference: &LayerDifference, row: Row) -> bool {
    difference.removed.as_slice() == row.removed
        && difference.added.as_slice() == row.added
        && are_pairs(difference.changed.as_slice(), row.changed)
}

#[test]
fn removed_added_and_changed(rt: HostRuntime) -> Result<(), Fail> {
    for row in ROWS {
        let difference = compared(rt.alloc(), *row)?.layer(rt.alloc(), "a")?;
        assert!(rt; is_row(&difference, *row), "{}", row.title);
    }
    Ok(())
}

/// Layers of which one topology has the first, another one the second, and none the third: what is removed and added.
const HALVES: &[(&str, &[usize], &[usize])] = &[
    ("a", &[0], &[]),
    ("b", &[], &[0]),
    ("c", &[], &[]),
];

fn is_half(
    alloc: Global,
    comparison: &Comparison,
    name: &str,
    removed: &[usize],
    added: &[usize],
) -> Result<bool, Fail> {
    let made = comparison.layer(alloc, name)?;
    Ok(
        made.removed.as_slice() == removed
            && made.added.as_slice() == added
            && made.changed.is_empty(),
    )
}

#[test]
fn a_layer_that_one_topology_has(rt: HostRuntime) -> Result<(), Fail> {
    let old = topology(rt.alloc(), "a", 1, &[Drawn(1, "{}", FIRST)])?;
    let new = topology(rt.alloc(), "b", 1, &[Drawn(1, "{}", FIRST)])?;
    let comparison = boxed(rt.alloc(), compare(rt.alloc(), &*old, &*new))?;
    for (name, removed, added) in HALVES {
        let is_half = is_half(rt.alloc(), &*comparison, *name, *removed, *added)?;
        assert!(rt; is_half, "{name}");
    }
    Ok(())
}

#[test]
fn other_grids(rt: HostRuntime) -> Result<(), Fail> {
    let old = topology(rt.alloc(), "a", 1, &[Drawn(1, "{}", FIRST)])?;
    let new = topology(rt.alloc(), "a", 2, &[Drawn(1, "{}", FIRST)])?;
    match compare(rt.alloc(), &*old, &*new) {
        Err(CompareFault::OtherGrid) => Ok(()),
        _ => Err(Fail::from("compared")),
    }
}
