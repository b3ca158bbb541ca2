//! Tests of `split_heal`: maps of which something is taken out, what is left of their arcs, and the lists
//! of lines and rings. Expected indexes are worked out by hand.
use split_heal::{HealedArcs, heal};
use std::alloc::Global;
use std::test::Fail;
use worked_maps::{
    Drawn, FIRST, Of, Places, SECOND, SHARED_EDGE, THIRD, TRIANGLE, are_used, boxed, positions,
    refs_of, same_arcs, topology_of,
};

/// A list of old arcs, and of new ones that it becomes.
type Become = (Of, &'static [i64], &'static [i64]);

/// A map, what is left of it, which of its arcs are used by that, and where the lines that are left
/// begin and end; for each new arc the indexes of the old ones that it is joined of; and lists of
/// the lines and rings that are left, with what they become.
#[derive(Clone, Copy)]
struct Row {
    title: &'static str,
    whole: Drawn,
    left: Drawn,
    kept: &'static [bool],
    ends: Places,
    pieces: &'static [&'static [i64]],
    lists: &'static [Become],
}

const NOTHING: Drawn = Drawn {
    lines: &[],
    rings: &[],
};

const ROWS: &[Row] = &[
    Row {
        title: "the middle one of three squares",
        whole: Drawn {
            lines: &[],
            rings: &[FIRST, SECOND, THIRD],
        },
        left: Drawn {
            lines: &[],
            rings: &[FIRST, THIRD],
        },
        kept: &[true, true, false, false, true, true],
        ends: &[],
        pieces: &[&[0, -2], &[4, -6]],
        lists: &[(Of::Ring, &[1, -1], &[-1]), (Of::Ring, &[5, -5], &[-2])],
    },
    Row {
        title: "one of two squares with a shared edge",
        whole: SHARED_EDGE,
        left: Drawn {
            lines: &[],
            rings: &[FIRST],
        },
        kept: &[true, true, false],
        ends: &[],
        pieces: &[&[0, -2]],
        lists: &[(Of::Ring, &[1, -1], &[-1])],
    },
    Row {
        title: "a line that makes a junction",
        whole: Drawn {
            lines: &[&[(0, 0), (1, 0), (2, 0)], &[(0, 0), (1, 0), (1, 1)]],
            rings: &[],
        },
        left: Drawn {
            lines: &[&[(0, 0), (1, 0), (2, 0)]],
            rings: &[],
        },
        kept: &[true, false, true],
        ends: &[(0, 0), (2, 0)],
        pieces: &[&[0, 2]],
        lists: &[(Of::Line, &[0, 2], &[0])],
    },
    Row {
        title: "a line from the side of a loop",
        whole: Drawn {
            lines: &[&[(2, 0), (3, 0)]],
            rings: &[TRIANGLE],
        },
        left: Drawn {
            lines: &[],
            rings: &[TRIANGLE],
        },
        kept: &[true, false],
        ends: &[],
        pieces: &[&[0]],
        lists: &[(Of::Ring, &[-1], &[-1])],
    },
    Row {
        title: "the loop that a line begins on",
        whole: Drawn {
            lines: &[&[(2, 0), (3, 0)]],
            rings: &[TRIANGLE],
        },
        left: Drawn {
            lines: &[&[(2, 0), (3, 0)]],
            rings: &[],
        },
        kept: &[false, true],
        ends: &[(2, 0), (3, 0)],
        pieces: &[&[1]],
        lists: &[(Of::Line, &[1], &[0])],
    },
    Row {
        title: "all",
        whole: SHARED_EDGE,
        left: NOTHING,
        kept: &[false, false, false],
        ends: &[],
        pieces: &[],
        lists: &[],
    },
];

/// Joins what is left of a row's map.
fn heal_row(alloc: Global, row: &Row) -> Result<Box<HealedArcs>, Fail> {
    let ends = positions(alloc, row.ends)?;
    let whole = topology_of(alloc, &[row.whole])?;
    boxed(alloc, heal(alloc, whole.arcs(), row.kept, &ends))
}

/// Whether the new arcs are joined of those of the indexes, and there are no more.
fn are_pieces(made: &HealedArcs, lists: &[&[i64]]) -> bool {
    for (number, indexes) in lists.iter().enumerate() {
        if !made
            .pieces(number)
            .is_some_and(|pieces| are_used(pieces, *indexes))
        {
            return false;
        }
    }
    made.pieces(lists.len()).is_none()
}

/// Whether the arcs that are joined again are those of the topology of what is left.
fn are_arcs_of_left(alloc: Global, made: &HealedArcs, left: Drawn) -> Result<bool, Fail> {
    let left = topology_of(alloc, &[left])?;
    Ok(same_arcs(made.arcs(), left.arcs()))
}

fn becomes(alloc: Global, made: &HealedArcs, list: &Become) -> Result<bool, Fail> {
    let (of, old, new) = list;
    let refs = refs_of(alloc, *old)?;
    let list = match of {
        Of::Line => made.line(alloc, refs.as_slice())?,
        Of::Ring => made.ring(alloc, refs.as_slice())?,
    };
    Ok(are_used(list.as_slice(), *new))
}

/// Whether the lists become what they say.
fn become_lists(alloc: Global, made: &HealedArcs, lists: &[Become]) -> Result<bool, Fail> {
    for list in lists {
        if !becomes(alloc, made, list)? {
            return Ok(false);
        }
    }
    Ok(true)
}

/// What was made otherwise than a row says; an empty word where nothing was.
fn difference(alloc: Global, made: &HealedArcs, row: &Row) -> Result<&'static str, Fail> {
    if !are_pieces(made, row.pieces) {
        return Ok("pieces");
    }
    if !are_arcs_of_left(alloc, made, row.left)? {
        return Ok("arcs");
    }
    if !become_lists(alloc, made, row.lists)? {
        return Ok("lists");
    }
    Ok("")
}

#[test]
fn arcs_and_lists_of_rows(rt: HostRuntime) -> Result<(), Fail> {
    for row in ROWS {
        let made = heal_row(rt.alloc(), row)?;
        let difference = difference(rt.alloc(), &*made, row)?;
        assert!(rt; difference.is_empty(), "{}: {difference}", row.title);
    }
    Ok(())
}
