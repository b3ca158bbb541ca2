//! Features taken out of topologies.

use faults::OutOfMemory;
use refine::remove::remove;
use refine::{JoinFault, Removal, remove_topology};
use refused_calls::calls::Borrowed;
use refused_calls::comparing::{are_used, same_map};
use refused_calls::inputs::{built, is_of, read};
use refused_calls::outcome::{Answer, Tally};
use refused_calls::tables::both;
use refused_calls::texts::{
    EMPTY, ENDS, FIRST, FREE_LOOP, LINE, LOOP_AND_LINE, SECOND, SHARED_EDGE, THREE,
};
use shapes::FeatureMap;
use std::alloc::Global;
use topo::Topology;

/// A map, what is taken out of it, what is left, and for each of its arcs the indexes of the old ones.
#[derive(Clone, Copy)]
struct Row {
    title: &'static str,
    whole: &'static str,
    removed: &'static str,
    left: &'static str,
    pieces: &'static [&'static [i64]],
}

const ROWS: &[Row] = &[
    Row {
        title: "the seam vanishes",
        whole: LOOP_AND_LINE,
        removed: LINE,
        left: FREE_LOOP,
        pieces: &[&[0]],
    },
    Row {
        title: "one of two squares with a shared edge",
        whole: SHARED_EDGE,
        removed: SECOND,
        left: FIRST,
        pieces: &[&[0, -2]],
    },
    Row {
        title: "the middle one of three squares",
        whole: THREE,
        removed: SECOND,
        left: ENDS,
        pieces: &[&[0, -2], &[4, -6]],
    },
    Row {
        title: "all of two squares",
        whole: SHARED_EDGE,
        removed: SHARED_EDGE,
        left: EMPTY,
        pieces: &[],
    },
];

/// The map of a row and what is taken out of it, with a copy, and as a topology.
#[derive(Drop)]
struct Removing {
    row: &'static Row,
    whole: Topology,
    removed: FeatureMap,
    copy: FeatureMap,
    topology: Topology,
}

impl Removing {
    fn of(alloc: Global, row: &'static Row) -> Option<Removing> {
        let topologies = both(built(alloc, row.whole), built(alloc, row.removed));
        let maps = both(read(alloc, row.removed), read(alloc, row.removed));
        let ((whole, topology), (removed, copy)) = both(topologies, maps)?;
        Some(Removing {
            row,
            whole,
            removed,
            copy,
            topology,
        })
    }
}

impl Borrowed for Removing {
    fn is_as_before(&self) -> bool {
        is_of(&self.whole, self.row.whole)
            && is_of(&self.topology, self.row.removed)
            && same_map(&self.removed, &self.copy)
    }
}

fn are_pieces(made: &Removal, lists: &[&[i64]]) -> bool {
    for (number, indexes) in lists.iter().enumerate() {
        let Some(pieces) = made.pieces(number) else {
            return false;
        };
        if !are_used(pieces, indexes) {
            return false;
        }
    }
    made.pieces(lists.len()).is_none()
}

/// Whether this is what is left, by the row.
fn answer_of(made: Removal, row: &Row) -> Answer {
    Answer::of(is_of(made.topology(), row.left) && are_pieces(&made, row.pieces))
}

fn ask(alloc: Global, removing: &Removing) -> Answer {
    match remove(alloc, &removing.whole, &removing.removed) {
        Ok(made) => answer_of(made, removing.row),
        Err(OutOfMemory) => Answer::Wanting,
    }
}

fn ask_by_topology(alloc: Global, removing: &Removing) -> Answer {
    match remove_topology(alloc, &removing.whole, &removing.topology) {
        Ok(made) => answer_of(made, removing.row),
        Err(JoinFault::OutOfMemory) => Answer::Wanting,
        Err(JoinFault::OtherGrid) => Answer::of(false),
    }
}

/// Takes out what each row says.
pub(crate) fn test(rt: &HostRuntime, tally: &mut Tally) {
    for row in ROWS {
        if let Some(removing) = tally.borrowed(
            rt,
            row.title,
            "remove",
            |alloc| Removing::of(alloc, row),
        ) {
            tally.ask(rt, row.title, &removing, "refine::remove", ask);
            tally.ask(
                rt,
                row.title,
                &removing,
                "refine::remove_topology",
                ask_by_topology,
            );
        }
    }
}
