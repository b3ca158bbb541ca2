//! Tests of `split_heal`: pairs of maps, what the arcs of each become, and the lists of lines and
//! rings. Expected indexes are worked out by hand.
use crate::chains_tests::run_along;
use chains::{ArcTable, VisitIndex, cut_arc};
use grid::pos::Pos;
use split_heal::{Recut, Side, recut};
use std::alloc::Global;
use std::collections::BTreeSet;
use std::test::Fail;
use worked_maps::{
    Drawn, FIRST, Of, SECOND, SHARED_EDGE, THIRD, TRIANGLE, TURNED_TRIANGLE, are_used, boxed,
    map_of, refs_of, rows, same_arcs, topology_of,
};

/// Two maps, and for each arc of each the indexes of the arcs that it is cut into.
#[derive(Clone, Copy)]
struct Row {
    title: &'static str,
    left: Drawn,
    right: Drawn,
    left_pieces: &'static [&'static [i64]],
    right_pieces: &'static [&'static [i64]],
}

const ROWS: &[Row] = &[
    Row {
        title: "a free loop, and a line from its side",
        left: Drawn {
            lines: &[],
            rings: &[TRIANGLE],
        },
        right: Drawn {
            lines: &[&[(2, 0), (3, 0)]],
            rings: &[],
        },
        left_pieces: &[&[0]],
        right_pieces: &[&[1]],
    },
    Row {
        title: "a free loop, and a closed line along it from another vertex",
        left: Drawn {
            lines: &[],
            rings: &[TRIANGLE],
        },
        right: Drawn {
            lines: &[&[(0, 2), (0, 0), (2, 0), (0, 2)]],
            rings: &[],
        },
        left_pieces: &[&[-1]],
        right_pieces: &[&[0]],
    },
    Row {
        title: "two users of a free loop, no junction",
        left: Drawn {
            lines: &[],
            rings: &[TRIANGLE],
        },
        right: Drawn {
            lines: &[],
            rings: &[TURNED_TRIANGLE],
        },
        left_pieces: &[&[0]],
        right_pieces: &[&[0]],
    },
    Row {
        title: "a junction of the union alone",
        left: Drawn {
            lines: &[&[(0, 0), (1, 0), (2, 0)]],
            rings: &[],
        },
        right: Drawn {
            lines: &[&[(0, 0), (1, 0), (1, 1)]],
            rings: &[],
        },
        left_pieces: &[&[0, 2]],
        right_pieces: &[&[0, 1]],
    },
    Row {
        title: "two squares with a shared edge, and the third",
        left: SHARED_EDGE,
        right: Drawn {
            lines: &[],
            rings: &[THIRD],
        },
        left_pieces: &[&[0], &[1], &[2, 4, -4]],
        right_pieces: &[&[4, -6]],
    },
    Row {
        title: "the first square, and the second",
        left: Drawn {
            lines: &[],
            rings: &[FIRST],
        },
        right: Drawn {
            lines: &[],
            rings: &[SECOND],
        },
        left_pieces: &[&[0, -2]],
        right_pieces: &[&[1, -3]],
    },
    LINE_TO_A_CORNER,
];

const LINE_TO_A_CORNER: Row = Row {
    title: "two squares with a shared edge, and a line that ends at a corner",
    left: SHARED_EDGE,
    right: Drawn {
        lines: &[&[(-1, 0), (0, 0)]],
        rings: &[],
    },
    left_pieces: &[&[-3, 1], &[3], &[4]],
    right_pieces: &[&[0]],
};

/// Cuts the arcs of a row's maps again.
fn recut_row(alloc: Global, row: &Row) -> Result<Box<Recut>, Fail> {
    let left = topology_of(alloc, &[row.left])?;
    let right = topology_of(alloc, &[row.right])?;
    boxed(alloc, recut(alloc, left.arcs(), right.arcs()))
}

/// Whether the arcs of a side are cut into those of the indexes, and the side has no more arcs.
fn are_pieces(made: &Recut, side: Side, lists: &[&[i64]]) -> bool {
    for (number, indexes) in lists.iter().enumerate() {
        if !made
            .pieces(side, number)
            .is_some_and(|pieces| are_used(pieces, *indexes))
        {
            return false;
        }
    }
    made.pieces(side, lists.len()).is_none()
}

#[test]
fn pieces_of_rows(rt: HostRuntime) -> Result<(), Fail> {
    for row in ROWS {
        let made = recut_row(rt.alloc(), row)?;
        let is_left = are_pieces(&*made, Side::Left, row.left_pieces);
        let is_right = are_pieces(&*made, Side::Right, row.right_pieces);
        assert!(rt;
            is_left && is_right,
            "{}: left {is_left}, right {is_right}",
            row.title
        );
    }
    Ok(())
}

/// Adds those of some positions that are junctions.
fn add_those(
    junctions: &mut BTreeSet<Pos>,
    index: &VisitIndex,
    positions: &[Pos],
) -> Result<(), Fail> {
    for position in positions {
        if index.is_junction(*position) {
            junctions.insert(*position)?;
        }
    }
    Ok(())
}

/// Adds those positions of arcs that are junctions.
fn add_junctions(
    junctions: &mut BTreeSet<Pos>,
    index: &VisitIndex,
    arcs: &ArcTable,
) -> Result<(), Fail> {
    for number in 0..arcs.len() {
        if let Some(arc) = arcs.arc(number) {
            add_those(junctions, index, arc)?;
        }
    }
    Ok(())
}

/// Whether each arc of a side is cut into its pieces by the call that takes any stops.
fn are_cut_at(
    alloc: Global,
    made: &Recut,
    side: Side,
    arcs: &ArcTable,
    junctions: &BTreeSet<Pos>,
) -> Result<bool, Fail> {
    for number in 0..arcs.len() {
        let cut = cut_arc(alloc, arcs, number, junctions)?;
        match made.pieces(side, number) {
            Some(used) => {
                if !run_along(made.arcs(), &cut, used) {
                    return Ok(false);
                }
            }
            None => return Ok(false),
        }
    }
    Ok(true)
}

/// Whether cutting the arcs of two topologies at these junctions gives what `recut` gives.
fn are_cut_alike(
    alloc: Global,
    left: &ArcTable,
    right: &ArcTable,
    junctions: &BTreeSet<Pos>,
) -> Result<bool, Fail> {
    let made = boxed(alloc, recut(alloc, left, right))?;
    Ok(
        are_cut_at(alloc, &*made, Side::Left, left, junctions)?
            && are_cut_at(alloc, &*made, Side::Right, right, junctions)?,
    )
}

/// The junctions of an index that are on the arcs of two tables.
fn junctions_on(
    alloc: Global,
    index: &VisitIndex,
    left: &ArcTable,
    right: &ArcTable,
) -> Result<BTreeSet<Pos>, Fail> {
    let mut junctions = BTreeSet::new(alloc);
    add_junctions(&mut junctions, index, left)?;
    add_junctions(&mut junctions, index, right)?;
    Ok(junctions)
}

/// The junctions of both maps of a row together, that are on the arcs of two tables.
fn junctions_of(
    alloc: Global,
    row: &Row,
    left: &ArcTable,
    right: &ArcTable,
) -> Result<BTreeSet<Pos>, Fail> {
    let map = map_of(alloc, &[row.left, row.right])?;
    let index = boxed(alloc, VisitIndex::of(alloc, &map))?;
    junctions_on(alloc, &*index, left, right)
}

/// Whether cutting the arcs of a row's maps at the junctions of both maps together gives what `recut`
/// gives.
fn is_cut_at_junctions(alloc: Global, row: &Row) -> Result<bool, Fail> {
    let left = topology_of(alloc, &[row.left])?;
    let right = topology_of(alloc, &[row.right])?;
    let junctions = junctions_of(alloc, row, left.arcs(), right.arcs())?;
    are_cut_alike(alloc, left.arcs(), right.arcs(), &junctions)
}

#[test]
fn arcs_cut_at_the_junctions_of_both_maps(rt: HostRuntime) -> Result<(), Fail> {
    for row in ROWS {
        assert!(rt; is_cut_at_junctions(rt.alloc(), row)?, "{}", row.title);
    }
    Ok(())
}

/// Whether the arcs that a row's maps are cut into are those of the topology of both maps.
fn are_arcs_of_both(alloc: Global, row: &Row) -> Result<bool, Fail> {
    let made = recut_row(alloc, row)?;
    let whole = topology_of(alloc, &[row.left, row.right])?;
    Ok(same_arcs(made.arcs(), whole.arcs()))
}

#[test]
fn arcs_are_those_of_both_maps_together(rt: HostRuntime) -> Result<(), Fail> {
    for row in ROWS {
        assert!(rt; are_arcs_of_both(rt.alloc(), row)?, "{}", row.title);
    }
    Ok(())
}

/// Lists of a line or a ring of `LINE_TO_A_CORNER`, and what they become.
const LISTS: &[(&str, Side, Of, &[i64], &[i64])] = rows! {
    "the ring of the first square is turned", Side::Left, Of::Ring, &[1, -1], &[2, 3, -2];
    "the ring of the second square", Side::Left, Of::Ring, &[2, -2], &[4, -4];
    "the line", Side::Right, Of::Line, &[0], &[0];
};

/// Whether a list of a side becomes the one of the indexes.
fn becomes(
    alloc: Global,
    made: &Recut,
    side: Side,
    of: Of,
    used: &[i64],
    indexes: &[i64],
) -> Result<bool, Fail> {
    let refs = refs_of(alloc, used)?;
    let list = match of {
        Of::Line => made.line(alloc, side, &refs)?,
        Of::Ring => made.ring(alloc, side, &refs)?,
    };
    Ok(are_used(list.as_slice(), indexes))
}

#[test]
fn lists_of_lines_and_rings(rt: HostRuntime) -> Result<(), Fail> {
    let made = recut_row(rt.alloc(), &LINE_TO_A_CORNER)?;
    for (title, side, of, used, indexes) in LISTS {
        let becomes = becomes(rt.alloc(), &*made, *side, *of, *used, *indexes)?;
        assert!(rt; becomes, "{title}");
    }
    Ok(())
}
