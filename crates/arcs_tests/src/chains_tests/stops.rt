//! Arcs that are cut at stops.
use crate::chains_tests::{LOOP, Part, Way, are_parts, pieces, stops_at};
use chains::{ArcTable, cut_arc};
use std::alloc::Global;
use std::test::Fail;
use worked_maps::{Drawn, Of, Places, TURNED_TRIANGLE, boxed};

/// A line or a ring that has one arc, the stops, and the pieces of the arc.
struct Row {
    title: &'static str,
    way: Way,
    stops: Places,
    parts: &'static [Part],
}

const STEPS: Places = &[(0, 0), (1, 0), (1, 1)];

const STEPS_ALONE: Way = Way {
    map: Drawn {
        lines: &[STEPS],
        rings: &[],
    },
    of: Of::Line,
    places: STEPS,
};

const ROWS: &[Row] = &[
    Row {
        title: "a stop inside",
        way: STEPS_ALONE,
        stops: &[(1, 0)],
        parts: &[
            (&[(0, 0), (1, 0)], false, false),
            (&[(1, 0), (1, 1)], false, false),
        ],
    },
    Row {
        title: "no stop",
        way: STEPS_ALONE,
        stops: &[],
        parts: &[(STEPS, false, false)],
    },
    Row {
        title: "a stop at an end",
        way: STEPS_ALONE,
        stops: &[(0, 0)],
        parts: &[(STEPS, false, false)],
    },
    Row {
        title: "a part against its least direction",
        way: Way {
            map: Drawn {
                lines: &[&[(0, 0), (2, 2), (1, 0)]],
                rings: &[],
            },
            of: Of::Line,
            places: &[(0, 0), (2, 2), (1, 0)],
        },
        stops: &[(5, 5), (2, 2)],
        parts: &[
            (&[(0, 0), (2, 2)], false, false),
            (&[(1, 0), (2, 2)], true, false),
        ],
    },
    Row {
        title: "a free loop and no stop",
        way: LOOP,
        stops: &[],
        parts: &[(TURNED_TRIANGLE, false, true)],
    },
    Row {
        title: "a free loop and a stop elsewhere",
        way: LOOP,
        stops: &[(5, 5)],
        parts: &[(TURNED_TRIANGLE, false, true)],
    },
    Row {
        title: "a free loop and its seam",
        way: LOOP,
        stops: &[(0, 0)],
        parts: &[(TURNED_TRIANGLE, false, false)],
    },
    Row {
        title: "a free loop and another vertex",
        way: LOOP,
        stops: &[(2, 0)],
        parts: &[(&[(2, 0), (0, 0), (0, 2), (2, 0)], false, false)],
    },
    Row {
        title: "a free loop and two vertices",
        way: LOOP,
        stops: &[(2, 0), (0, 2)],
        parts: &[
            (&[(0, 2), (2, 0)], false, false),
            (&[(0, 2), (0, 0), (2, 0)], true, false),
        ],
    },
    Row {
        title: "a closed arc that is no free loop",
        way: Way {
            map: Drawn {
                lines: &[TURNED_TRIANGLE],
                rings: &[],
            },
            of: Of::Line,
            places: TURNED_TRIANGLE,
        },
        stops: &[(2, 0)],
        parts: &[
            (&[(0, 0), (0, 2), (2, 0)], false, false),
            (&[(0, 0), (2, 0)], true, false),
        ],
    },
];

/// Whether the only arc of a table is cut into the parts of a row.
fn is_arc_cut(alloc: Global, table: &ArcTable, row: &Row) -> Result<bool, Fail> {
    if table.len() != 1 {
        return Ok(false);
    }
    let cut = cut_arc(alloc, table, 0, &stops_at(alloc, row.stops)?)?;
    Ok(are_parts(&cut, row.parts))
}

/// Whether a row's arc is cut into its parts.
fn is_cut(alloc: Global, row: &Row) -> Result<bool, Fail> {
    let table = boxed(
        alloc,
        ArcTable::from_pieces(alloc, pieces(alloc, &row.way)?),
    )?;
    is_arc_cut(alloc, &*table, row)
}

#[test]
fn arcs_cut_at_stops(rt: HostRuntime) -> Result<(), Fail> {
    for row in ROWS {
        assert!(rt; is_cut(rt.alloc(), row)?, "{}", row.title);
    }
    Ok(())
}
