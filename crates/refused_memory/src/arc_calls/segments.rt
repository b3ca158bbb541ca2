//! The pieces of an arc, and the maximal chains over segments.

use crate::arc_calls::pieces::{OF_ARC, SHARED, are_parts};
use chains::{cut_arc, maximal, maximal_with};
use faults::OutOfMemory;
use grid::Pos;
use refused_calls::calls::Borrowed;
use refused_calls::comparing::are_arcs;
use refused_calls::inputs::{built, is_of, positions};
use refused_calls::outcome::Tally;
use refused_calls::tables::{Lends, Row, both};
use refused_calls::texts::FIRST;
use std::alloc::Global;
use std::collections::BTreeSet;
use topo::Topology;

/// The first of two squares, and the ends of the side that they share.
#[derive(Drop)]
struct Segments {
    first: Topology,
    stops: BTreeSet<Pos>,
}

/// The ends of the shared side.
fn stops(alloc: Global) -> Option<BTreeSet<Pos>> {
    let mut stops = BTreeSet::new(alloc);
    for stop in positions(alloc, SHARED)? {
        stops.insert(stop).ok()?;
    }
    Some(stops)
}

impl Borrowed for Segments {
    fn is_as_before(&self) -> bool {
        is_of(&self.first, FIRST) && self.stops.len() == 2
    }
}

/// The first square's arc, a free loop, is cut from the lesser of the stops on.
fn arc(alloc: Global, borrowed: &Segments) -> Result<bool, OutOfMemory> {
    let arcs = borrowed.first.arcs();
    if arcs.len() != 1 {
        return Ok(false);
    }
    let pieces = cut_arc(alloc, arcs, 0, &borrowed.stops)?;
    Ok(are_parts(pieces.as_slice(), OF_ARC))
}

/// Over no segments there are no chains.
fn chains(alloc: Global, borrowed: &Segments) -> Result<bool, OutOfMemory> {
    let none = BTreeSet::new(alloc);
    let table = maximal(alloc, &none, &borrowed.stops)?;
    Ok(are_arcs(&table, &[]))
}

/// A chain that stands already.
fn whole(alloc: Global) -> Result<Vec<Vec<Pos>>, OutOfMemory> {
    let Some(chain) = positions(alloc, SHARED) else {
        return Err(OutOfMemory);
    };
    let mut whole = Vec::new(alloc);
    whole.push(chain)?;
    Ok(whole)
}

/// The chain that stands, and no segments beside it.
fn chains_beside(alloc: Global, borrowed: &Segments) -> Result<bool, OutOfMemory> {
    let table = maximal_with(alloc, whole(alloc)?, &[], &borrowed.stops)?;
    Ok(are_arcs(&table, &[SHARED]))
}

/// Tells the calls apart.
#[derive(Clone, Copy)]
enum Call {
    Arc,
    Chains,
    ChainsBeside,
}

const ROWS: &[Row<Call>] = &[
    ("chains::cut_arc", Call::Arc),
    ("chains::maximal", Call::Chains),
    ("chains::maximal_with", Call::ChainsBeside),
];

impl Lends for Segments {
    type Call = Call;

    fn make(alloc: Global) -> Option<Segments> {
        let (first, stops) = both(built(alloc, FIRST), stops(alloc))?;
        Some(Segments { first, stops })
    }

    fn answer(&self, alloc: Global, call: Call) -> Result<bool, OutOfMemory> {
        match call {
            Call::Arc => arc(alloc, self),
            Call::Chains => chains(alloc, self),
            Call::ChainsBeside => chains_beside(alloc, self),
        }
    }
}

/// Makes each call of segments.
pub(crate) fn test(rt: &HostRuntime, tally: &mut Tally) {
    tally.attempt_each::<Segments>(rt, "segments", ROWS);
}
