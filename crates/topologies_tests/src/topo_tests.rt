//! Tests of `topo`: topologies of small maps, their arcs, lists of arcs and boxes, and the maps that
//! they expand to.
use chains::ArcRef;
use grid::Grid;
use shapes::FeatureMap;
use std::alloc::Global;
use std::test::Fail;
use topo::{Body, Topology};
use worked_maps::{
    Drawn, FIRST, Places, SHARED_EDGE, TRIANGLE, are_used, boxed, has_arcs, insert_all, is_at,
    refs_of, unit_grid,
};

/// A layer, and the used arcs of each of its geometries in order.
#[derive(Clone, Copy)]
struct Layer {
    name: &'static str,
    drawn: Drawn,
    lists: &'static [&'static [i64]],
}

/// A map, the arcs of its topology, which of them are marked as free loops, and the box around it.
#[derive(Clone, Copy)]
struct Case {
    title: &'static str,
    layers: &'static [Layer],
    arcs: &'static [Places],
    free: &'static [bool],
    bbox: Option<(i64, i64, i64, i64)>,
}

const SQUARES: &[Layer] = &[Layer {
    name: "a",
    drawn: SHARED_EDGE,
    lists: &[&[1, -1], &[2, -2]],
}];

const CASES: &[Case] = &[
    Case {
        title: "two squares with a shared edge",
        layers: SQUARES,
        arcs: &[
            &[(1, 0), (0, 0), (0, 1), (1, 1)],
            &[(1, 0), (1, 1)],
            &[(1, 0), (2, 0), (2, 1), (1, 1)],
        ],
        free: &[],
        bbox: Some((0, 0, 2, 1)),
    },
    Case {
        title: "a free loop that is used reversed",
        layers: &[Layer {
            name: "a",
            drawn: Drawn {
                lines: &[],
                rings: &[TRIANGLE],
            },
            lists: &[&[-1]],
        }],
        arcs: &[&[(0, 0), (0, 2), (2, 0), (0, 0)]],
        free: &[true],
        bbox: Some((0, 0, 2, 2)),
    },
    Case {
        title: "nothing in the only layer",
        layers: &[Layer {
            name: "a",
            drawn: Drawn {
                lines: &[],
                rings: &[],
            },
            lists: &[],
        }],
        arcs: &[],
        free: &[],
        bbox: None,
    },
    Case {
        title: "a square, and one of its edges in another layer",
        layers: &[
            Layer {
                name: "a",
                drawn: Drawn {
                    lines: &[],
                    rings: &[FIRST],
                },
                lists: &[&[1, -1]],
            },
            Layer {
                name: "b",
                drawn: Drawn {
                    lines: &[&[(1, 0), (1, 1)]],
                    rings: &[],
                },
                lists: &[&[1]],
            },
        ],
        arcs: &[&[(1, 0), (0, 0), (0, 1), (1, 1)], &[(1, 0), (1, 1)]],
        free: &[],
        bbox: Some((0, 0, 1, 1)),
    },
];

fn map_of(alloc: Global, layers: &[Layer]) -> Result<FeatureMap, Fail> {
    let mut map = FeatureMap::new(alloc);
    for layer in layers {
        map.add_layer(layer.name)?;
        insert_all(alloc, &mut map, layer.name, layer.drawn)?;
    }
    Ok(map)
}

/// The topology on the grid 1,1,0,0.
fn topology_of(alloc: Global, layers: &[Layer]) -> Result<Box<Topology>, Fail> {
    let grid = unit_grid()?;
    let map = map_of(alloc, layers)?;
    boxed(alloc, Topology::build(alloc, &grid, &map))
}

/// The used arcs of a line, or of the first ring of a polygon.
fn list_of(body: &Body) -> Option<&[ArcRef]> {
    match body {
        Body::Line(list) => Some(list.as_slice()),
        Body::Polygon(rings) => Some(rings.as_slice().first()?.as_slice()),
        _ => None,
    }
}

fn is_list(body: &Body, indexes: &[i64]) -> bool {
    match list_of(body) {
        Some(list) => are_used(list, indexes),
        None => false,
    }
}

fn is_layer(topology: &Topology, layer: &Layer) -> bool {
    let Some(geometries) = topology.geometries(layer.name) else {
        return false;
    };
    for (geometry, indexes) in geometries.iter().zip(layer.lists) {
        if !is_list(&geometry.body, *indexes) {
            return false;
        }
    }
    geometries.len() == layer.lists.len()
}

fn are_layers(topology: &Topology, layers: &[Layer]) -> bool {
    for layer in layers {
        if !is_layer(topology, layer) {
            return false;
        }
    }
    topology.layers().len() == layers.len() && topology.geometries("none").is_none()
}

fn is_topology(topology: &Topology, case: &Case) -> bool {
    has_arcs(topology.arcs(), case.arcs, case.free)
        && are_layers(topology, case.layers)
        && topology.bbox() == case.bbox
}

#[test]
fn topologies_of_maps_and_their_copies(rt: HostRuntime) -> Result<(), Fail> {
    for case in CASES {
        let topology = topology_of(rt.alloc(), case.layers)?;
        assert!(rt; is_topology(&*topology, case), "{}", case.title);
        let copy = boxed(rt.alloc(), topology.copy(rt.alloc()))?;
        assert!(rt; is_topology(&*copy, case), "the copy: {}", case.title);
    }
    Ok(())
}

fn are_same(map: &FeatureMap, other: &FeatureMap) -> Result<bool, Fail> {
    let names = map.names()?;
    for name in &names {
        if other.layer(name.text()) != map.layer(name.text()) {
            return Ok(false);
        }
    }
    Ok(other.names()?.len() == names.len())
}

/// Whether a topology expands to this map.
fn expands_to(alloc: Global, topology: &Topology, map: &FeatureMap) -> Result<bool, Fail> {
    let expanded = topology.expand(alloc)?;
    are_same(map, &expanded)
}

/// Whether a copy of the topology of a map expands to the map.
fn is_expanded(alloc: Global, layers: &[Layer]) -> Result<bool, Fail> {
    let map = map_of(alloc, layers)?;
    let topology = topology_of(alloc, layers)?;
    let copy = boxed(alloc, topology.copy(alloc))?;
    expands_to(alloc, &*copy, &map)
}

#[test]
fn copies_expand_to_their_maps(rt: HostRuntime) -> Result<(), Fail> {
    for case in CASES {
        assert!(rt; is_expanded(rt.alloc(), case.layers)?, "{}", case.title);
    }
    Ok(())
}

/// The walk along used arcs meets these places and no others.
fn walks_along(topology: &Topology, refs: &[ArcRef], places: &[(i64, i64)]) -> bool {
    let mut walk = topology.walk(refs);
    for place in places {
        if !walk.next().is_some_and(|position| is_at(&position, place)) {
            return false;
        }
    }
    walk.next().is_none()
}

/// The walk against used arcs meets these places from the last to the first, and no others.
fn walks_against(topology: &Topology, refs: &[ArcRef], places: &[(i64, i64)]) -> bool {
    let mut walk = topology.walk(refs);
    for place in places.iter().rev() {
        if !walk
            .next_back()
            .is_some_and(|position| is_at(&position, place))
        {
            return false;
        }
    }
    walk.next_back().is_none()
}

/// Lists of the arcs of `SQUARES`, and the places that they stitch to.
const WALKS: &[(&str, &[i64], Places)] = &[
    (
        "the first square",
        &[1, -1],
        &[(1, 0), (1, 1), (0, 1), (0, 0), (1, 0)],
    ),
    ("no arcs", &[], &[]),
];

fn walks_both_ways(
    alloc: Global,
    topology: &Topology,
    indexes: &[i64],
    places: &[(i64, i64)],
) -> Result<bool, Fail> {
    let refs = refs_of(alloc, indexes)?;
    Ok(walks_along(topology, &refs, places) && walks_against(topology, &refs, places))
}

#[test]
fn walks_from_both_ends(rt: HostRuntime) -> Result<(), Fail> {
    let topology = topology_of(rt.alloc(), SQUARES)?;
    for (title, indexes, places) in WALKS {
        let walks = walks_both_ways(rt.alloc(), &*topology, *indexes, *places)?;
        assert!(rt; walks, "{title}");
    }
    Ok(())
}

/// A line from one corner of its box to the other.
const DIAGONAL: &[Layer] = &[Layer {
    name: "a",
    drawn: Drawn {
        lines: &[&[
            (-1_000_000_000, -1_000_000_000),
            (1_000_000_000, 1_000_000_000),
        ]],
        rings: &[],
    },
    lists: &[&[0]],
}];

/// The box around `DIAGONAL`, in absolute numbers of the grid 10,10,-500,0.
const CORNERS: (i64, i64, i64, i64) = (
    -10_000_000_500,
    -10_000_000_000,
    9_999_999_500,
    10_000_000_000,
);

#[test]
fn bbox_in_absolute_numbers(rt: HostRuntime) -> Result<(), Fail> {
    let grid = Grid::new(10, 10, -500, 0).ok_or("no grid")?;
    let map = map_of(rt.alloc(), DIAGONAL)?;
    let topology = boxed(rt.alloc(), Topology::build(rt.alloc(), &grid, &map))?;
    assert!(rt; topology.bbox() == Some(CORNERS) && topology.grid() == grid);
    assert!(rt; expands_to(rt.alloc(), &*topology, &map)?);
    Ok(())
}
