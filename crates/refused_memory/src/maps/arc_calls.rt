//! Arcs of a text as they are: whether they are noded, and which of them are free loops.

use chains::ArcTable;
use faults::OutOfMemory;
use grid::Pos;
use lines::items::Items;
use refused_calls::calls;
use refused_calls::calls::Borrowed;
use refused_calls::comparing::{are_lists_of, same_arcs};
use refused_calls::inputs::{built, is_of, positions};
use refused_calls::outcome::{Answer, Tally};
use refused_calls::tables::both;
use refused_calls::texts::{FREE_LOOP, LOOP_AND_LINE, SHARED_EDGE};
use std::alloc::Global;
use topo::Topology;
use validate::{free_loops, is_noded};

/// A map, the ends of its lines, and for each of its arcs whether it is a free loop.
#[derive(Clone, Copy)]
struct Row {
    title: &'static str,
    topology: &'static str,
    line_ends: &'static [(i64, i64)],
    free: &'static [bool],
}

const ROWS: &[Row] = &[
    Row {
        title: "shared edge",
        topology: SHARED_EDGE,
        line_ends: &[],
        free: &[false, false, false],
    },
    Row {
        title: "a free loop",
        topology: FREE_LOOP,
        line_ends: &[],
        free: &[true],
    },
    Row {
        title: "the seam vanishes",
        topology: LOOP_AND_LINE,
        line_ends: &[(2, 0), (3, 0)],
        free: &[false, false],
    },
];

/// The arcs of a row as lists, and its topology.
#[derive(Drop)]
struct ArcsOfRow {
    row: &'static Row,
    topology: Topology,
    arcs: Vec<Items<Pos>>,
}

fn items_of(alloc: Global, arc: &[Pos]) -> Option<Items<Pos>> {
    Some(Items::from_vec(arc.to_vec(alloc).ok()?))
}

/// The arcs of a table as lists.
fn lists(alloc: Global, table: &ArcTable) -> Option<Vec<Items<Pos>>> {
    let mut made = Vec::new(alloc);
    for number in 0..table.len() {
        made.push(items_of(alloc, table.arc(number)?)?).ok()?;
    }
    Some(made)
}

impl ArcsOfRow {
    fn of(alloc: Global, row: &'static Row) -> Option<ArcsOfRow> {
        let topology = built(alloc, row.topology)?;
        let arcs = lists(alloc, topology.arcs());
        let (topology, arcs) = both(Some(topology), arcs)?;
        Some(ArcsOfRow {
            row,
            topology,
            arcs,
        })
    }
}

impl Borrowed for ArcsOfRow {
    fn is_as_before(&self) -> bool {
        is_of(&self.topology, self.row.topology)
            && are_lists_of(self.arcs.as_slice(), self.topology.arcs())
    }
}

fn noded(alloc: Global, table: &ArcTable, arcs_of_row: &ArcsOfRow) -> Answer {
    match is_noded(alloc, table) {
        Ok(is_noded) => Answer::of(is_noded && same_arcs(table, arcs_of_row.topology.arcs())),
        Err(OutOfMemory) => Answer::Wanting,
    }
}

fn read(alloc: Global, arcs_of_row: &ArcsOfRow) -> Answer {
    let Some(arcs) = lists(alloc, arcs_of_row.topology.arcs()) else {
        return Answer::Unasked;
    };
    match ArcTable::from_sorted(alloc, arcs, arcs_of_row.row.free) {
        Ok(Some(table)) => noded(alloc, &table, arcs_of_row),
        Ok(None) => Answer::Wrong,
        Err(OutOfMemory) => Answer::Wanting,
    }
}

fn mark(alloc: Global, arcs_of_row: &ArcsOfRow) -> Answer {
    let Some(line_ends) = positions(alloc, arcs_of_row.row.line_ends) else {
        return Answer::Unasked;
    };
    match free_loops(alloc, arcs_of_row.arcs.as_slice(), line_ends) {
        Ok(marks) => Answer::of(marks.as_slice() == arcs_of_row.row.free),
        Err(OutOfMemory) => Answer::Wanting,
    }
}

fn test_row(rt: &HostRuntime, tally: &mut Tally, row: &'static Row) {
    let made = tally.borrowed(rt, row.title, "its arcs", |alloc| ArcsOfRow::of(alloc, row));
    if let Some(arcs_of_row) = made {
        calls!(tally.ask(rt, row.title, &arcs_of_row); "is_noded" => read, "free_loops" => mark);
    }
}

/// Makes each call that judges the arcs of a row.
pub(crate) fn test(rt: &HostRuntime, tally: &mut Tally) {
    for row in ROWS {
        test_row(rt, tally, row);
    }
}
