//! Lists of arcs that are cut again.

use arcs::{NewLists, replace_arcs};
use chains::{ArcRef, ArcTable};
use faults::OutOfMemory;
use refused_calls::calls::Borrowed;
use refused_calls::comparing::{are_used, same_arcs};
use refused_calls::inputs::{built, is_of};
use refused_calls::outcome::Tally;
use refused_calls::tables::{Lends, Row, both};
use refused_calls::texts::{SHARED_EDGE, THIRD, THREE};
use split_heal::{Recut, Side, recut, recut_all, recut_owned};
use std::alloc::Global;
use topo::Topology;

/// Two squares and a third, all three, and how the arcs are cut again.
#[derive(Drop)]
struct Lists {
    two: Topology,
    third: Topology,
    three: Topology,
    recut: Recut,
}

/// The arcs of two squares and of a third, cut again.
fn cut_again(alloc: Global) -> Option<Recut> {
    let (two, third) = both(built(alloc, SHARED_EDGE), built(alloc, THIRD))?;
    recut(alloc, two.arcs(), third.arcs()).ok()
}

impl Borrowed for Lists {
    fn is_as_before(&self) -> bool {
        is_of(&self.two, SHARED_EDGE)
            && is_of(&self.third, THIRD)
            && same_arcs(self.recut.arcs(), self.three.arcs())
    }
}

/// The arcs are shared with the topologies, which stay.
fn owned(alloc: Global, lists: &Lists) -> Result<bool, OutOfMemory> {
    let left = lists.two.arcs().share(alloc)?;
    let right = lists.third.arcs().share(alloc)?;
    let made = recut_owned(alloc, left, right)?;
    Ok(same_arcs(made.arcs(), lists.three.arcs()))
}

fn line(alloc: Global, lists: &Lists) -> Result<bool, OutOfMemory> {
    let used = [ArcRef::from_index(2)];
    let made = lists.recut.line(alloc, Side::Left, &used)?;
    Ok(are_used(made.as_slice(), &[2, 4, -4]))
}

fn ring(alloc: Global, lists: &Lists) -> Result<bool, OutOfMemory> {
    let used = [ArcRef::from_index(-1)];
    let made = lists.recut.ring(alloc, Side::Right, &used)?;
    Ok(are_used(made.as_slice(), &[5, -5]))
}

fn replaced(alloc: Global, lists: &Lists) -> Result<bool, OutOfMemory> {
    let used = [ArcRef::from_index(2)];
    let made = replace_arcs(alloc, &lists.recut.lists(Side::Left), &used)?;
    Ok(are_used(made.as_slice(), &[2, 4, -4]))
}

/// The tables of two squares and of a third.
fn tables(alloc: Global, lists: &Lists) -> Result<Vec<ArcTable>, OutOfMemory> {
    let mut tables = Vec::with_capacity(alloc, 2)?;
    tables.push(lists.two.arcs().share(alloc)?)?;
    tables.push(lists.third.arcs().share(alloc)?)?;
    Ok(tables)
}

fn all(alloc: Global, lists: &Lists) -> Result<bool, OutOfMemory> {
    let made = recut_all(alloc, tables(alloc, lists)?)?;
    Ok(same_arcs(made.arcs(), lists.three.arcs()))
}

fn line_of_all(alloc: Global, lists: &Lists) -> Result<bool, OutOfMemory> {
    let recut = recut_all(alloc, tables(alloc, lists)?)?;
    let made = recut.lists(0).line(alloc, &[ArcRef::from_index(2)])?;
    Ok(are_used(made.as_slice(), &[2, 4, -4]))
}

fn ring_of_all(alloc: Global, lists: &Lists) -> Result<bool, OutOfMemory> {
    let recut = recut_all(alloc, tables(alloc, lists)?)?;
    let made = recut.lists(1).ring(alloc, &[ArcRef::from_index(-1)])?;
    Ok(are_used(made.as_slice(), &[5, -5]))
}

/// Tells the calls apart.
#[derive(Clone, Copy)]
enum Call {
    Owned,
    Line,
    Ring,
    Replaced,
    All,
    LineOfAll,
    RingOfAll,
}

const ROWS: &[Row<Call>] = &[
    ("split_heal::recut_owned", Call::Owned),
    ("Recut::line", Call::Line),
    ("Recut::ring", Call::Ring),
    ("arcs::replace_arcs", Call::Replaced),
    ("split_heal::recut_all", Call::All),
    ("RecutLists::line", Call::LineOfAll),
    ("RecutLists::ring", Call::RingOfAll),
];

impl Lends for Lists {
    type Call = Call;

    fn make(alloc: Global) -> Option<Lists> {
        let squares = both(built(alloc, SHARED_EDGE), built(alloc, THIRD));
        let of_all = both(built(alloc, THREE), cut_again(alloc));
        let ((two, third), (three, recut)) = both(squares, of_all)?;
        Some(Lists {
            two,
            third,
            three,
            recut,
        })
    }

    fn answer(&self, alloc: Global, call: Call) -> Result<bool, OutOfMemory> {
        match call {
            Call::Owned => owned(alloc, self),
            Call::Line => line(alloc, self),
            Call::Ring => ring(alloc, self),
            Call::Replaced => replaced(alloc, self),
            Call::All => all(alloc, self),
            Call::LineOfAll => line_of_all(alloc, self),
            Call::RingOfAll => ring_of_all(alloc, self),
        }
    }
}

/// Makes each call of lists of arcs.
pub(crate) fn test(rt: &HostRuntime, tally: &mut Tally) {
    tally.attempt_each::<Lists>(rt, "lists of arcs", ROWS);
}
