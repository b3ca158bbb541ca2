//! Arcs of two maps cut again.

use faults::OutOfMemory;
use refused_calls::calls::Borrowed;
use refused_calls::comparing::{are_used, same_arcs};
use refused_calls::inputs::{built, is_of};
use refused_calls::outcome::{Answer, Tally};
use refused_calls::tables::both;
use refused_calls::texts::{FREE_LOOP, LINE, LOOP_AND_LINE, SHARED_EDGE, THIRD, THREE};
use split_heal::{Recut, Side, recut};
use std::alloc::Global;
use topo::Topology;

/// Two maps, for each arc of each the indexes of the arcs that it is cut into, and the map of both.
#[derive(Clone, Copy)]
struct Row {
    title: &'static str,
    left: &'static str,
    left_pieces: &'static [&'static [i64]],
    right: &'static str,
    right_pieces: &'static [&'static [i64]],
    both: &'static str,
}

const ROWS: &[Row] = &[
    Row {
        title: "two squares, and the third",
        left: SHARED_EDGE,
        left_pieces: &[&[0], &[1], &[2, 4, -4]],
        right: THIRD,
        right_pieces: &[&[4, -6]],
        both: THREE,
    },
    Row {
        title: "a free loop, and a line from its side",
        left: FREE_LOOP,
        left_pieces: &[&[0]],
        right: LINE,
        right_pieces: &[&[1]],
        both: LOOP_AND_LINE,
    },
];

/// The topologies of a row.
#[derive(Drop)]
struct Pair {
    row: &'static Row,
    left: Topology,
    right: Topology,
    both: Topology,
}

impl Pair {
    fn of(alloc: Global, row: &'static Row) -> Option<Pair> {
        let sides = both(built(alloc, row.left), built(alloc, row.right));
        let ((left, right), whole) = both(sides, built(alloc, row.both))?;
        Some(Pair {
            row,
            left,
            right,
            both: whole,
        })
    }
}

impl Borrowed for Pair {
    fn is_as_before(&self) -> bool {
        is_of(&self.left, self.row.left) && is_of(&self.right, self.row.right)
    }
}

fn are_pieces(made: &Recut, side: Side, lists: &[&[i64]]) -> bool {
    for (number, indexes) in lists.iter().enumerate() {
        let Some(pieces) = made.pieces(side, number) else {
            return false;
        };
        if !are_used(pieces, indexes) {
            return false;
        }
    }
    made.pieces(side, lists.len()).is_none()
}

fn ask(alloc: Global, pair: &Pair) -> Answer {
    match recut(alloc, pair.left.arcs(), pair.right.arcs()) {
        Ok(made) => Answer::of(
            are_pieces(&made, Side::Left, pair.row.left_pieces)
                && are_pieces(&made, Side::Right, pair.row.right_pieces)
                && same_arcs(made.arcs(), pair.both.arcs()),
        ),
        Err(OutOfMemory) => Answer::Wanting,
    }
}

/// Cuts the arcs of each row again.
pub(crate) fn test(rt: &HostRuntime, tally: &mut Tally) {
    for row in ROWS {
        if let Some(pair) = tally.borrowed(rt, row.title, "recut", |alloc| Pair::of(alloc, row)) {
            tally.ask(rt, row.title, &pair, "split_heal::recut", ask);
        }
    }
}
