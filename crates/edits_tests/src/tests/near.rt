//! `compare::quality::near_vertices`.
use compare::quality::{NearPlace, near_vertices};
use shapes::{Feature, FeatureMap, Id, Items, Props, Shape};
use std::alloc::Global;
use std::test::Fail;
use topo::Topology;
use worked_maps::{boxed, positions, unit_grid};

/// A place of a feature: x, y and the feature's number.
type Placed = (i64, i64, usize);

/// A title, the places of each feature in the order of features, how many steps, and the pairs that are near each other.
type Row = (
    &'static str,
    &'static [&'static [(i64, i64)]],
    u32,
    &'static [(Placed, Placed)],
);

/// Which pairs are near each other.
const ROWS: &[Row] = &[
    ("no feature", &[], 1, &[]),
    ("one vertex", &[&[(0, 0)]], 9, &[]),
    ("of one feature", &[&[(0, 0), (0, 1)]], 9, &[]),
    (
        "of two features",
        &[&[(0, 0)], &[(1, 1)]],
        1,
        &[((0, 0, 0), (1, 1, 1))],
    ),
    ("one step too far across", &[&[(0, 0)], &[(2, 1)]], 1, &[]),
    ("one step too far up", &[&[(0, 0)], &[(1, 2)]], 1, &[]),
    ("one step too far down", &[&[(0, 0)], &[(1, -2)]], 1, &[]),
    ("no step", &[&[(0, 0)], &[(0, 1)]], 0, &[]),
    (
        "one feature has both",
        &[&[(0, 0)], &[(0, 0), (0, 1)]],
        1,
        &[],
    ),
    (
        "both have one vertex, and each another",
        &[&[(0, 0), (3, 0)], &[(0, 0), (4, 0)]],
        1,
        &[((3, 0, 0), (4, 0, 1))],
    ),
    (
        "two features have both, and two others one each",
        &[
            &[(0, 0), (0, 1)],
            &[(0, 0), (0, 1), (5, 5)],
            &[(0, 0), (9, 9)],
            &[(0, 1), (-9, -9)],
        ],
        1,
        &[((0, 0, 2), (0, 1, 3))],
    ),
    (
        "behind far ones in each column",
        &[
            &[(0, 0)],
            &[
                (0, 5),
                (0, 6),
                (1, -9),
                (1, -8),
                (1, 1),
                (1, 7),
                (2, -2),
                (2, 2),
                (3, 0),
            ],
        ],
        2,
        &[
            ((0, 0, 0), (1, 1, 1)),
            ((0, 0, 0), (2, -2, 1)),
            ((0, 0, 0), (2, 2, 1)),
        ],
    ),
    (
        "three of three",
        &[&[(0, 0)], &[(0, 1)], &[(1, 0)]],
        1,
        &[
            ((0, 0, 0), (0, 1, 1)),
            ((0, 0, 0), (1, 0, 2)),
            ((0, 1, 1), (1, 0, 2)),
        ],
    ),
];

/// The topology of features, each with the points of its places; their ids are their numbers.
fn topology(alloc: Global, features: &[&[(i64, i64)]]) -> Result<Box<Topology>, Fail> {
    let grid = unit_grid()?;
    let mut map = FeatureMap::new(alloc);
    map.add_layer("a")?;
    for (number, places) in features.iter().enumerate() {
        let points = positions(alloc, *places)?;
        map.insert(
            "a",
            Feature {
                id: Id::Number(number as i64),
                props: Props::empty(alloc)?,
                shape: Shape::MultiPoint(Items::from_vec(points)),
            },
        )?;
    }
    boxed(alloc, Topology::build(alloc, &grid, &map))
}

fn is_place(made: NearPlace, placed: Placed) -> bool {
    (made.at.x(), made.at.y(), made.feature) == placed
}

fn are_pairs(made: &[(NearPlace, NearPlace)], pairs: &[(Placed, Placed)]) -> bool {
    made.len() == pairs.len()
        && made.iter().zip(pairs.iter()).all(|(made, pair)| is_place(made.0, pair.0)
            && is_place(made.1, pair.1))
}

#[test]
fn pairs_near_each_other(rt: HostRuntime) -> Result<(), Fail> {
    for (title, features, steps, pairs) in ROWS {
        let topology = topology(rt.alloc(), *features)?;
        let found = near_vertices(rt.alloc(), &*topology, *steps, 10)?;
        assert!(rt; found.count == pairs.len() as u128, "{title}: count");
        assert!(rt; are_pairs(found.first.as_slice(), *pairs), "{title}: pairs");
    }
    Ok(())
}

#[test]
fn no_more_than_are_asked_for(rt: HostRuntime) -> Result<(), Fail> {
    let topology = topology(rt.alloc(), &[&[(0, 0)], &[(0, 1)], &[(1, 0)]])?;
    let two = near_vertices(rt.alloc(), &*topology, 1, 2)?;
    let none = near_vertices(rt.alloc(), &*topology, 1, 0)?;
    assert!(rt; two.count == 3 && none.count == 3 && none.first.is_empty());
    assert!(rt;
        are_pairs(
            two.first.as_slice(),
            &[((0, 0, 0), (0, 1, 1)), ((0, 0, 0), (1, 0, 2))]
        )
    );
    Ok(())
}
