//! Lines and rings that are cut into pieces, and the tables of their arcs.
use crate::chains_tests::{LOOP, Part, Way, are_parts, pieces, run_along};
use chains::{ArcTable, Piece};
use std::alloc::Global;
use std::test::Fail;
use worked_maps::{Drawn, FIRST, Of, Places, TURNED_TRIANGLE, boxed, has_arcs, refs_of};

/// Lines and rings that are cut, each with the indexes of the arcs that it uses, and the arcs of their
/// table, of which some may be marked as free loops.
struct Row {
    title: &'static str,
    ways: &'static [(Way, &'static [i64])],
    arcs: &'static [Places],
    free: &'static [bool],
}

const STRAIGHT: Places = &[(0, 0), (1, 0), (2, 0)];

/// A line that another one leaves at (1, 0).
const LEFT: Way = Way {
    map: Drawn {
        lines: &[STRAIGHT, &[(0, 0), (1, 0), (1, 1)]],
        rings: &[],
    },
    of: Of::Line,
    places: STRAIGHT,
};

/// A line from the seam of the triangle, alone in its map.
const FROM_SEAM: Way = Way {
    map: Drawn {
        lines: &[&[(0, 0), (1, 0)]],
        rings: &[],
    },
    of: Of::Line,
    places: &[(0, 0), (1, 0)],
};

const TOUCHING: Places = &[(1, 1), (2, 1), (2, 2), (1, 2), (1, 1)];

/// The unit square at the origin, and one that touches it.
const TWO_SQUARES: Drawn = Drawn {
    lines: &[],
    rings: &[FIRST, TOUCHING],
};

const EIGHT: Places = &[(0, 0), (2, 0), (1, 1), (0, 2), (2, 2), (1, 1), (0, 0)];

const CROSSING: Places = &[(0, 0), (1, 1), (2, 2), (2, 0), (1, 1), (0, 2)];

const ROWS: &[Row] = &[
    Row {
        title: "a free loop used reversed",
        ways: &[(LOOP, &[-1])],
        arcs: &[TURNED_TRIANGLE],
        free: &[true],
    },
    Row {
        title: "a line is cut where another leaves it",
        ways: &[(LEFT, &[0, 1])],
        arcs: &[&[(0, 0), (1, 0)], &[(1, 0), (2, 0)]],
        free: &[false, false],
    },
    Row {
        title: "a line from the seam",
        ways: &[(FROM_SEAM, &[0])],
        arcs: &[&[(0, 0), (1, 0)]],
        free: &[false],
    },
    Row {
        title: "a free loop, and a line from its seam in another map",
        ways: &[(LOOP, &[-1]), (FROM_SEAM, &[1])],
        arcs: &[TURNED_TRIANGLE, &[(0, 0), (1, 0)]],
        free: &[true, false],
    },
    Row {
        title: "one piece twice",
        ways: &[(LOOP, &[-1]), (LOOP, &[-1])],
        arcs: &[TURNED_TRIANGLE],
        free: &[true],
    },
    Row {
        title: "no pieces",
        ways: &[],
        arcs: &[],
        free: &[],
    },
    Row {
        title: "squares that touch",
        ways: &[
            (
                Way {
                    map: TWO_SQUARES,
                    of: Of::Ring,
                    places: FIRST,
                },
                &[0],
            ),
            (
                Way {
                    map: TWO_SQUARES,
                    of: Of::Ring,
                    places: TOUCHING,
                },
                &[-2],
            ),
        ],
        arcs: &[
            &[(1, 1), (0, 1), (0, 0), (1, 0), (1, 1)],
            &[(1, 1), (1, 2), (2, 2), (2, 1), (1, 1)],
        ],
        free: &[false, false],
    },
    Row {
        title: "a ring that comes to a vertex again",
        ways: &[(
            Way {
                map: Drawn {
                    lines: &[],
                    rings: &[EIGHT],
                },
                of: Of::Ring,
                places: EIGHT,
            },
            &[0, 1],
        )],
        arcs: &[
            &[(1, 1), (0, 0), (2, 0), (1, 1)],
            &[(1, 1), (0, 2), (2, 2), (1, 1)],
        ],
        free: &[false, false],
    },
    Row {
        title: "a line that comes to a vertex again",
        ways: &[(
            Way {
                map: Drawn {
                    lines: &[CROSSING],
                    rings: &[],
                },
                of: Of::Line,
                places: CROSSING,
            },
            &[0, -3, -2],
        )],
        arcs: &[
            &[(0, 0), (1, 1)],
            &[(0, 2), (1, 1)],
            &[(1, 1), (2, 0), (2, 2), (1, 1)],
        ],
        free: &[false, false, false],
    },
];

/// The table of the pieces of a row's lines and rings.
fn table_of(alloc: Global, row: &Row) -> Result<Box<ArcTable>, Fail> {
    let mut made: Vec<Piece> = Vec::new(alloc);
    for (way, _) in row.ways {
        made.append(&mut pieces(alloc, way)?)?;
    }
    boxed(alloc, ArcTable::from_pieces(alloc, made))
}

#[test]
fn tables_of_rows(rt: HostRuntime) -> Result<(), Fail> {
    for row in ROWS {
        let table = table_of(rt.alloc(), row)?;
        assert!(rt; has_arcs(&*table, row.arcs, row.free), "{}", row.title);
        let copy = boxed(rt.alloc(), table.copy(rt.alloc()))?;
        assert!(rt;
            has_arcs(&*copy, row.arcs, row.free),
            "the copy: {}",
            row.title
        );
    }
    Ok(())
}

/// Whether the pieces of a line or a ring run along the arcs of the indexes.
fn uses(alloc: Global, table: &ArcTable, way: &Way, indexes: &[i64]) -> Result<bool, Fail> {
    let pieces = pieces(alloc, way)?;
    Ok(run_along(table, &pieces, &refs_of(alloc, indexes)?))
}

/// Whether the lines and rings of a row use the arcs that it says.
fn are_used(alloc: Global, row: &Row) -> Result<bool, Fail> {
    let table = table_of(alloc, row)?;
    for (way, indexes) in row.ways {
        if !uses(alloc, &*table, way, *indexes)? {
            return Ok(false);
        }
    }
    Ok(true)
}

#[test]
fn used_arcs_of_rows(rt: HostRuntime) -> Result<(), Fail> {
    for row in ROWS {
        assert!(rt; are_used(rt.alloc(), row)?, "{}", row.title);
    }
    Ok(())
}

/// Lines and rings, and their pieces.
const PARTS: &[(&str, Way, &[Part])] = &[
    (
        "a free loop used reversed",
        LOOP,
        &[(TURNED_TRIANGLE, true, true)],
    ),
    (
        "a line is cut where another leaves it",
        LEFT,
        &[
            (&[(0, 0), (1, 0)], false, false),
            (&[(1, 0), (2, 0)], false, false),
        ],
    ),
];

#[test]
fn pieces_of_lines_and_rings(rt: HostRuntime) -> Result<(), Fail> {
    for (title, way, parts) in PARTS {
        let pieces = pieces(rt.alloc(), way)?;
        assert!(rt; are_parts(&pieces, *parts), "{title}");
    }
    Ok(())
}
