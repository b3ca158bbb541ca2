//! Arcs that are healed where features go, and lists of them.

use chains::{ArcRef, ArcTable};
use faults::OutOfMemory;
use refused_calls::calls::Borrowed;
use refused_calls::comparing::{are_used, same_arcs};
use refused_calls::inputs::{built, is_of, positions};
use refused_calls::outcome::Tally;
use refused_calls::tables::both;
use refused_calls::texts::{FIRST, Places, SHARED_EDGE};
use refused_calls::{calls, layer};
use split_heal::{HealedArcs, heal};
use std::alloc::Global;
use topo::Topology;

/// Two lines that part after their first segment.
const FORK: &str = layer!(
    r#"{"arcs":[[[0,0],[1,0]],[[1,0],[0,1]],[[1,0],[1,0]]],"bbox":[0,0,2,1],"objects":{"a":{"geometries":[{"arcs":[0,1],"type":"LineString"},{"arcs":[0,2],"type":"LineString"}"#
);

/// The arcs of the first of two squares.
const FIRST_ARCS: &[bool] = &[true, true, false];

/// The arcs of the second line, and its ends.
const LINE_ARCS: &[bool] = &[true, false, true];

const LINE_ENDS: Places = &[(0, 0), (2, 0)];

/// Two squares, the first alone, and two lines; and the arcs of the first square and of the second line.
#[derive(Drop)]
struct HealedMaps {
    two: Topology,
    first: Topology,
    fork: Topology,
    square: HealedArcs,
    line: HealedArcs,
}

fn heal_arcs_of(
    alloc: Global,
    table: &ArcTable,
    kept: &[bool],
    ends: Places,
) -> Option<HealedArcs> {
    let ends = positions(alloc, ends)?;
    heal(alloc, table, kept, ends.as_slice()).ok()
}

impl HealedMaps {
    fn with_maps(alloc: Global, two: Topology, fork: Topology) -> Option<HealedMaps> {
        let square = heal_arcs_of(alloc, two.arcs(), FIRST_ARCS, &[]);
        let line = heal_arcs_of(alloc, fork.arcs(), LINE_ARCS, LINE_ENDS);
        let maps = both(built(alloc, FIRST), Some((two, fork)));
        let ((square, line), (first, (two, fork))) = both(both(square, line), maps)?;
        Some(HealedMaps {
            two,
            first,
            fork,
            square,
            line,
        })
    }

    fn of(alloc: Global) -> Option<HealedMaps> {
        let (two, fork) = both(built(alloc, SHARED_EDGE), built(alloc, FORK))?;
        HealedMaps::with_maps(alloc, two, fork)
    }
}

impl Borrowed for HealedMaps {
    fn is_as_before(&self) -> bool {
        is_of(&self.two, SHARED_EDGE)
            && is_of(&self.fork, FORK)
            && same_arcs(self.square.arcs(), self.first.arcs())
            && self.line.arcs().len() == 1
    }
}

fn heal_first(alloc: Global, healed: &HealedMaps) -> Result<bool, OutOfMemory> {
    let made = heal(alloc, healed.two.arcs(), FIRST_ARCS, &[])?;
    Ok(same_arcs(made.arcs(), healed.first.arcs()))
}

fn line(alloc: Global, healed: &HealedMaps) -> Result<bool, OutOfMemory> {
    let used = [ArcRef::from_index(0), ArcRef::from_index(2)];
    let made = healed.line.line(alloc, &used)?;
    Ok(are_used(made.as_slice(), &[0]))
}

fn ring(alloc: Global, healed: &HealedMaps) -> Result<bool, OutOfMemory> {
    let used = [ArcRef::from_index(1), ArcRef::from_index(-1)];
    let made = healed.square.ring(alloc, &used)?;
    Ok(are_used(made.as_slice(), &[-1]))
}

/// Makes each call that heals arcs.
pub(crate) fn test(rt: &HostRuntime, tally: &mut Tally) {
    if let Some(healed) = tally.borrowed(rt, "healed arcs", "their maps", HealedMaps::of) {
        calls!(tally.attempt(rt, "healed arcs", &healed);
            "split_heal::heal" => heal_first,
            "HealedArcs::line" => line,
            "HealedArcs::ring" => ring,
        );
    }
}
