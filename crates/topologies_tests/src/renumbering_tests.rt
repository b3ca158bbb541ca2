//! Tests of the order of geometries of `topo`: those of a layer, which a build sorts by their
//! features, ascend. The features tie by id and properties, and differ in their positions alone.
ghost use Rattle.topo.specs.Features.{HasFeature};
ghost use Rattle.topo.specs.GeometryOrder.Noded.{AreNoded};
ghost use Rattle.topo.specs.GeometryOrder.Noted.{IsRecordedFor};
ghost use Rattle.topo.specs.GeometryOrder.{HaveFeatures};

use chains::ArcTable;
use std::alloc::Global;
use std::test::Fail;
use topo::geometry_order::GeometryOrder;
use topo::{Geom, Topology};
use worked_maps::{Drawn, FIRST, SECOND, THIRD, TRIANGLE, topology_of};

/// Maps by their titles, and the number of features.
const CASES: &[(&str, &[Drawn], usize)] = &[
    (
        "three squares side by side, and the outline of the first two",
        &[Drawn {
            lines: &[],
            rings: &[
                FIRST,
                SECOND,
                THIRD,
                &[(0, 0), (1, 0), (2, 0), (2, 1), (1, 1), (0, 1), (0, 0)],
            ],
        }],
        4,
    ),
    (
        "a square cut into its corners, whose rings begin at one least vertex",
        &[Drawn {
            lines: &[&[(4, 0), (9, 9)], &[(4, 4), (8, 9)], &[(0, 4), (7, 9)]],
            rings: &[
                &[(0, 0), (4, 0), (4, 4), (0, 4), (0, 0)],
                &[(0, 0), (4, 0), (4, 4), (0, 0)],
                &[(0, 0), (4, 4), (0, 4), (0, 0)],
                &[(0, 0), (4, 4), (4, 0), (0, 0)],
                &[(0, 0), (0, 4), (4, 4), (4, 0), (0, 0)],
            ],
        }],
        8,
    ),
    (
        "rings that come to their least vertex again",
        &[Drawn {
            lines: &[],
            rings: &[
                &[(0, 0), (1, 2), (2, 1), (0, 0)],
                &[(0, 0), (1, 2), (2, 1), (0, 0), (3, 5), (5, 3), (0, 0)],
                &[(0, 0), (1, 2), (2, 1), (0, 0), (5, 3), (3, 5), (0, 0)],
                &[(0, 0), (3, 5), (5, 3), (0, 0)],
            ],
        }],
        4,
    ),
    (
        "lines along parts of one another, both ways",
        &[Drawn {
            lines: &[
                &[(0, 0), (1, 1), (2, 0), (3, 1), (4, 0)],
                &[(4, 0), (3, 1), (2, 0), (1, 1), (0, 0)],
                &[(0, 0), (1, 1), (2, 0)],
                &[(2, 0), (3, 1), (4, 0)],
                &[(2, 0), (1, 1), (0, 0)],
                &[(2, 0), (1, -1), (0, 0), (1, 1), (2, 0), (3, 1), (4, 0)],
            ],
            rings: &[TRIANGLE],
        }],
        7,
    ),
];

/// Whether a geometry comes before another one, and that behind it.
fn are_in_order(
    alloc: Global,
    arcs: &ArcTable,
    order: &mut GeometryOrder,
    geometry: &Geom,
    other: &Geom,
) -> Result<bool, Fail>
    requires noded { AreNoded arcs.now.arcs }
    requires recorded { IsRecordedFor arcs.now.arcs order.old }
    requires there { HasFeature arcs.now.arcs geometry.now }
    requires other_there { HasFeature arcs.now.arcs other.now }
    ensures { IsRecordedFor arcs.now.arcs order.new }
{
    if !order.order(alloc, arcs, geometry, other)?.is_lt() {
        return Ok(false);
    }
    if !order.order(alloc, arcs, other, geometry)?.is_gt() {
        return Ok(false);
    }
    Ok(order.order(alloc, arcs, geometry, geometry)?.is_eq())
}

/// Whether a geometry comes before others, and these come behind it.
fn comes_first(
    alloc: Global,
    arcs: &ArcTable,
    order: &mut GeometryOrder,
    geometry: &Geom,
    others: &[Geom],
) -> Result<bool, Fail>
    requires noded { AreNoded arcs.now.arcs }
    requires recorded { IsRecordedFor arcs.now.arcs order.old }
    requires there { HasFeature arcs.now.arcs geometry.now }
    requires others_there { HaveFeatures arcs.now.arcs others.now }
    ensures { IsRecordedFor arcs.now.arcs order.new }
{
    for other in others {
        if !are_in_order(alloc, arcs, order, geometry, other)? {
            return Ok(false);
        }
    }
    Ok(true)
}

/// Whether each geometry comes before those behind it.
fn all_ascend(alloc: Global, arcs: &ArcTable, geometries: &[Geom]) -> Result<bool, Fail>
    requires noded { AreNoded arcs.now.arcs }
    requires there { HaveFeatures arcs.now.arcs geometries.now }
{
    let mut order = GeometryOrder::new();
    let mut left = geometries;
    while let Some((geometry, others)) = left.split_first() {
        if !comes_first(alloc, arcs, &mut order, geometry, others)? {
            return Ok(false);
        }
        left = others;
    }
    Ok(true)
}

/// Whether the geometries of the layer of a worked map ascend, and there are so many.
fn ascends(alloc: Global, topology: &Topology, count: usize) -> Result<bool, Fail> {
    let Some(geometries) = topology.geometries("a") else {
        return Ok(false);
    };
    if geometries.len() != count {
        return Ok(false);
    }
    all_ascend(alloc, topology.arcs(), geometries)
}

#[test]
fn geometries_of_a_layer_ascend(rt: HostRuntime) -> Result<(), Fail> {
    for (title, maps, count) in CASES {
        let topology = topology_of(rt.alloc(), *maps)?;
        assert!(rt; ascends(rt.alloc(), &*topology, *count)?, "{title}");
    }
    Ok(())
}

/// The geometries from the last to the first, each twice.
fn backwards_twice(alloc: Global, geometries: &[Geom]) -> Result<Vec<Geom>, Fail> {
    let mut made = Vec::new(alloc);
    for geometry in geometries.iter().rev() {
        made.push(geometry.copy(alloc)?)?;
        made.push(geometry.copy(alloc)?)?;
    }
    Ok(made)
}

/// Whether geometries come back where each is given twice, from the last to the first.
fn come_back(alloc: Global, arcs: &ArcTable, geometries: &[Geom]) -> Result<bool, Fail> {
    let given = backwards_twice(alloc, geometries)?;
    let sorted = GeometryOrder::new().sort(alloc, arcs, given)?;
    Ok(sorted.as_slice() == geometries)
}

#[test]
fn geometries_are_sorted_and_once(rt: HostRuntime) -> Result<(), Fail> {
    for (title, maps, _) in CASES {
        let topology = topology_of(rt.alloc(), *maps)?;
        let Some(geometries) = topology.geometries("a") else {
            return Err((*title).into());
        };
        assert!(rt;
            come_back(rt.alloc(), topology.arcs(), geometries)?,
            "{title}"
        );
    }
    Ok(())
}
