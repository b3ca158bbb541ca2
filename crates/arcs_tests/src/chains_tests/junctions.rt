//! Junctions, segments, and indexes of used arcs.
use crate::chains_tests::index_of;
use chains::{ArcRef, Segment, VisitIndex};
use grid::pos::Pos;
use std::test::Fail;
use worked_maps::{Drawn, Places, TRIANGLE};

/// Maps, places that are junctions, and places that are none.
const JUNCTIONS: &[(&str, Drawn, Places, Places)] = &[
    (
        "ends, and vertices of three segments",
        Drawn {
            lines: &[
                &[(0, 0), (1, 0), (2, 0), (3, 0)],
                &[(0, 0), (1, 0), (2, 0), (2, 1)],
                &[(3, 0), (2, 0), (1, 0), (0, 0)],
            ],
            rings: &[],
        },
        &[(0, 0), (2, 0), (3, 0), (2, 1)],
        &[(1, 0), (5, 5)],
    ),
    (
        "a ring twice",
        Drawn {
            lines: &[],
            rings: &[TRIANGLE, TRIANGLE],
        },
        &[],
        TRIANGLE,
    ),
    (
        "a closed line along a ring",
        Drawn {
            lines: &[&[(2, 0), (0, 2), (0, 0), (2, 0)]],
            rings: &[TRIANGLE],
        },
        &[(2, 0)],
        &[(0, 0), (0, 2)],
    ),
];

/// Whether each of the places is a junction, or none of them is.
fn are_junctions(index: &VisitIndex, places: Places, junctions: bool) -> bool {
    for (x, y) in places {
        match Pos::new(*x, *y) {
            Some(position) => {
                if index.is_junction(position) != junctions {
                    return false;
                }
            }
            None => return false,
        }
    }
    true
}

#[test]
fn junctions_of_maps(rt: HostRuntime) -> Result<(), Fail> {
    for (title, map, junctions, others) in JUNCTIONS {
        let index = index_of(rt.alloc(), *map)?;
        assert!(rt; are_junctions(&*index, *junctions, true), "{title}");
        assert!(rt; are_junctions(&*index, *others, false), "{title}");
    }
    Ok(())
}

fn place(x: i64, y: i64) -> Result<Pos, Fail> {
    Ok(Pos::new(x, y).ok_or("outside the limits")?)
}

#[test]
fn segments_have_the_lesser_end_first(rt: HostRuntime) -> Result<(), Fail> {
    let (a, b) = (place(1, 0)?, place(0, 5)?);
    let segment = Segment::new(a, b).ok_or("equal")?;
    assert!(rt; segment.ends() == (b, a));
    assert!(rt; Segment::new(b, a) == Some(segment));
    assert!(rt; Segment::new(a, a).is_none());
    Ok(())
}

#[test]
fn indexes_of_used_arcs(rt: HostRuntime) {
    for (arc, reversed, index) in [(0, false, 0), (0, true, -1), (1, true, -2), (7, false, 7)] {
        assert_eq!(rt; ArcRef { arc, reversed }.index(), index);
        assert_eq!(rt; ArcRef::from_index(index), ArcRef { arc, reversed });
    }
}
