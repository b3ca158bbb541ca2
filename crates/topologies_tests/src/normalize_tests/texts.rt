//! Texts that are normalized.
use crate::normalize_tests::drawn::{
    Layers, Listed, is_left, is_made, left_without, normalize_layers,
};
use crate::places::{A, Arcs, B, C, D, E, F, G, H, I, J};
use grid::Pos;
use lines::items::Items;
use std::alloc::Global;
use std::test::Fail;
use worked_maps::lists;

/// Arcs and layers of a text, and what is made of them.
#[derive(Clone, Copy)]
struct Row {
    title: &'static str,
    arcs: Arcs,
    layers: Layers,
    made_arcs: Arcs,
    made_layers: Layers,
}

const SQUARES: Arcs = &[&[B, A, D, C], &[B, C], &[B, E, F, C]];

/// Two squares that share the border from B to C.
const SQUARE_LAYERS: Layers = &[
    ("left", Listed::Polygon(&[&[0, -2]])),
    ("right", Listed::Polygon(&[&[1, -3]])),
];

const ROWS: &[Row] = &[
    Row {
        title: "two squares that share a border, and a lake that begins at its greatest vertex",
        arcs: &[&[C, B], &[B, A, D, C], &[C, F, E, B], &[I, J, G, H, I]],
        layers: &[
            ("left", Listed::Polygon(&[&[0, 1]])),
            ("right", Listed::Polygon(&[&[-1, 2]])),
            ("water", Listed::Polygon(&[&[-4]])),
        ],
        made_arcs: &[&[B, A, D, C], &[B, C], &[B, E, F, C], &[G, J, I, H, G]],
        made_layers: &[
            ("left", Listed::Polygon(&[&[0, -2]])),
            ("right", Listed::Polygon(&[&[1, -3]])),
            ("water", Listed::Polygon(&[&[3]])),
        ],
    },
    Row {
        title: "a border that is cut at A, where no junction is",
        arcs: &[&[C, B], &[B, A], &[A, D, C], &[C, F, E, B]],
        layers: &[
            ("left", Listed::Polygon(&[&[0, 1, 2]])),
            ("right", Listed::Polygon(&[&[-1, 3]])),
        ],
        made_arcs: SQUARES,
        made_layers: SQUARE_LAYERS,
    },
    Row {
        title: "the border between two squares is doubled, against its direction",
        arcs: &[&[C, B], &[B, C], &[B, A, D, C], &[C, F, E, B]],
        layers: &[
            ("left", Listed::Polygon(&[&[0, 2]])),
            ("right", Listed::Polygon(&[&[1, 3]])),
        ],
        made_arcs: SQUARES,
        made_layers: SQUARE_LAYERS,
    },
    Row {
        title: "each square is an arc of its own",
        arcs: &[&[A, D, C, B, A], &[F, C, B, E, F]],
        layers: &[
            ("left", Listed::Polygon(&[&[-1]])),
            ("right", Listed::Polygon(&[&[-2]])),
        ],
        made_arcs: SQUARES,
        made_layers: &[
            ("left", Listed::Polygon(&[&[1, -1]])),
            ("right", Listed::Polygon(&[&[1, -3]])),
        ],
    },
    Row {
        title: "arcs that overlap from B to C, where lines end",
        arcs: &[&[A, B, C], &[B, C, D]],
        layers: &[("a", Listed::Line(&[0])), ("b", Listed::Line(&[1]))],
        made_arcs: &[&[A, B], &[D, C], &[B, C]],
        made_layers: &[("a", Listed::Line(&[0, 2])), ("b", Listed::Line(&[2, -2]))],
    },
    Row {
        title: "an arc that no list uses",
        arcs: &[&[E, F], &[A, B]],
        layers: &[("a", Listed::Line(&[1]))],
        made_arcs: &[&[A, B]],
        made_layers: &[("a", Listed::Line(&[0]))],
    },
    Row {
        title: "a line through two arcs, against their direction, is cut where no junction is",
        arcs: &[&[B, A], &[C, B]],
        layers: &[("a", Listed::Line(&[-1, -2]))],
        made_arcs: &[&[A, B, C]],
        made_layers: &[("a", Listed::Line(&[0]))],
    },
    Row {
        title: "at B three ends of arcs meet",
        arcs: &[&[A, B], &[B, C], &[E, B]],
        layers: &[("a", Listed::Line(&[0, 1])), ("b", Listed::Line(&[2, 1]))],
        made_arcs: &[&[A, B], &[B, C], &[B, E]],
        made_layers: &[("a", Listed::Line(&[0, 1])), ("b", Listed::Line(&[-3, 1]))],
    },
    Row {
        title: "at B a line ends and one begins",
        arcs: &[&[A, B], &[B, C]],
        layers: &[("a", Listed::Line(&[0])), ("b", Listed::Line(&[1]))],
        made_arcs: &[&[A, B], &[B, C]],
        made_layers: &[("a", Listed::Line(&[0])), ("b", Listed::Line(&[1]))],
    },
    Row {
        title: "a lake of two arcs, whose least vertex is inside one, used against both",
        arcs: &[&[J, G, H], &[H, I, J]],
        layers: &[("a", Listed::Polygon(&[&[-1, -2]]))],
        made_arcs: &[&[G, J, I, H, G]],
        made_layers: &[("a", Listed::Polygon(&[&[0]]))],
    },
    Row {
        title: "the ring around the two squares, cut at B and C",
        arcs: &[&[B, A, D, C], &[C, F, E, B]],
        layers: &[("both", Listed::Polygon(&[&[0, 1]]))],
        made_arcs: &[&[A, D, C, F, E, B, A]],
        made_layers: &[("both", Listed::Polygon(&[&[0]]))],
    },
    Row {
        title: "a lake at whose seam a line ends: D comes before B, but the loop from B is no free one",
        arcs: &[&[E, B], &[B, C, D, B]],
        layers: &[("a", Listed::Line(&[0])), ("a", Listed::Polygon(&[&[1]]))],
        made_arcs: &[&[B, D, C, B], &[B, E]],
        made_layers: &[("a", Listed::Line(&[-2])), ("a", Listed::Polygon(&[&[-1]]))],
    },
    Row {
        title: "bodies of all kinds: from G the loop goes to J and then to H, as it is used",
        arcs: &[&[B, A], &[H, G, J, H]],
        layers: &[
            ("a", Listed::Null),
            ("a", Listed::Lines(&[&[0], &[-1]])),
            ("a", Listed::Polygons(&[&[1], &[-2]])),
        ],
        made_arcs: &[&[A, B], &[G, J, H, G]],
        made_layers: &[
            ("a", Listed::Null),
            ("a", Listed::Lines(&[&[-1], &[0]])),
            ("a", Listed::Polygons(&[&[1], &[-2]])),
        ],
    },
    // Lists that stitch to nothing get an arc which is not there.
    Row {
        title: "a line of an arc that is not there",
        arcs: &[&[A, B]],
        layers: &[("a", Listed::Line(&[0, 1])), ("b", Listed::Line(&[0]))],
        made_arcs: &[&[A, B]],
        made_layers: &[("a", Listed::Line(&[1])), ("b", Listed::Line(&[0]))],
    },
    Row {
        title: "a line of an arc with a position twice",
        arcs: &[&[A, A, B]],
        layers: &[("a", Listed::Line(&[0]))],
        made_arcs: &[&[A, B]],
        made_layers: &[("a", Listed::Line(&[1]))],
    },
    // From A the loop goes to D and to B; backwards to B first.
    Row {
        title: "a loop that begins elsewhere, and is read the other way",
        arcs: &[&[D, B, A, D]],
        layers: &[("a", Listed::Polygon(&[&[0]]))],
        made_arcs: &[&[A, D, B, A]],
        made_layers: &[("a", Listed::Polygon(&[&[0]]))],
    },
    Row {
        title: "a ring of an arc of one position",
        arcs: &[&[A]],
        layers: &[("a", Listed::Polygon(&[&[0]]))],
        made_arcs: &[],
        made_layers: &[("a", Listed::Polygon(&[&[0]]))],
    },
];

/// Whether the arcs, and the layers of a row, make what the row says.
fn makes(alloc: Global, arcs: &[Items<Pos>], row: &Row) -> Result<bool, Fail> {
    match normalize_layers(alloc, arcs, row.layers)? {
        Some(made) => is_made(alloc, &*made, row.made_arcs, row.made_layers),
        None => Ok(false),
    }
}

#[test]
fn texts_normalized(rt: HostRuntime) -> Result<(), Fail> {
    for row in ROWS {
        let arcs = lists(rt.alloc(), row.arcs)?;
        assert!(rt; makes(rt.alloc(), &arcs, row)?, "{}", row.title);
    }
    Ok(())
}

/// Texts whose arcs repeat positions, and what is left without these.
const REPEATS: &[Row] = &[
    Row {
        title: "a position twice at both ends and three times inside",
        arcs: &[&[A, A, B, B, B, C, C]],
        layers: &[("a", Listed::Line(&[-1]))],
        made_arcs: &[&[A, B, C]],
        made_layers: &[("a", Listed::Line(&[-1]))],
    },
    Row {
        title: "arcs of one position leave the lists, in both directions",
        arcs: &[&[A, A], &[A, B], &[B, B, B], &[B, C]],
        layers: &[
            ("a", Listed::Line(&[0, 1, -3, 3])),
            ("b", Listed::Polygons(&[&[2], &[-2, 0]])),
            ("c", Listed::Lines(&[&[3, -4], &[-1]])),
        ],
        made_arcs: &[&[A], &[A, B], &[B], &[B, C]],
        made_layers: &[
            ("a", Listed::Line(&[1, 3])),
            ("b", Listed::Polygons(&[&[], &[-2]])),
            ("c", Listed::Lines(&[&[3, -4], &[]])),
        ],
    },
];

#[test]
fn repeated_positions_are_dropped(rt: HostRuntime) -> Result<(), Fail> {
    for row in REPEATS {
        let arcs = lists(rt.alloc(), row.arcs)?;
        let Some(left) = left_without(rt.alloc(), &arcs, row.layers)? else {
            return Err(row.title.into());
        };
        assert!(rt;
            is_left(rt.alloc(), &*left, row.made_arcs, row.made_layers)?,
            "{}",
            row.title
        );
    }
    Ok(())
}

#[test]
fn arcs_that_repeat_no_position_stay(rt: HostRuntime) -> Result<(), Fail> {
    let arcs = lists(rt.alloc(), SQUARES)?;
    assert!(rt; left_without(rt.alloc(), &arcs, SQUARE_LAYERS)?.is_none());
    Ok(())
}
