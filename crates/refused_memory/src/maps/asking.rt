//! Questions to topologies.

use crate::maps::worked::Worked;
use chains::ArcTable;
use query::QueryFault;
use refused_calls::calls;
use refused_calls::comparing::{are_arcs, are_features, are_neighbors};
use refused_calls::outcome::{Answer, Tally};
use refused_calls::texts::Places;
use std::alloc::Global;

fn of_fault(fault: QueryFault) -> Answer {
    match fault {
        QueryFault::OutOfMemory => Answer::Wanting,
        QueryFault::NoLayer => Answer::Wrong,
    }
}

fn features(alloc: Global, worked: &Worked) -> Answer {
    match query::feature(alloc, &worked.topology, "a") {
        Ok(features) => Answer::of(are_features(features.as_slice(), &worked.copy)),
        Err(fault) => of_fault(fault),
    }
}

fn neighbors(alloc: Global, worked: &Worked) -> Answer {
    match query::neighbors(alloc, &worked.topology, "a") {
        Ok(lists) => Answer::of(are_neighbors(lists.as_slice(), worked.row.neighbors)),
        Err(fault) => of_fault(fault),
    }
}

fn judge(made: Result<ArcTable, QueryFault>, lines: &[Places]) -> Answer {
    match made {
        Ok(table) => Answer::of(are_arcs(&table, lines)),
        Err(fault) => of_fault(fault),
    }
}

fn borders(alloc: Global, worked: &Worked) -> Answer {
    let made = query::mesh(alloc, &worked.topology, None, |_, _| true);
    judge(made, worked.row.borders)
}

fn interior(alloc: Global, worked: &Worked) -> Answer {
    let made = query::mesh(alloc, &worked.topology, Some("a"), |a, b| a != b);
    judge(made, worked.row.interior)
}

fn exterior(alloc: Global, worked: &Worked) -> Answer {
    let made = query::mesh(alloc, &worked.topology, Some("a"), |a, b| a == b);
    judge(made, worked.row.exterior)
}

/// Asks each question.
pub(crate) fn test(rt: &HostRuntime, tally: &mut Tally, worked: &Worked) {
    calls!(tally.ask(rt, worked.row.title, worked);
        "query::feature" => features,
        "query::neighbors" => neighbors,
        "query::mesh of all borders" => borders,
        "query::mesh of interior borders" => interior,
        "query::mesh of exterior borders" => exterior,
    );
}
