//! The lines over the segments of some arcs.
ghost use Rattle.chains.specs.Along.{HasArcs};
ghost use Rattle.chains.specs.declared.segment.Segment.{Segment};
ghost use Rattle.query.specs.Joining.{with_mark, with_marks};
ghost use Rattle.query.specs.Mesh.{AreLinesOver};
ghost use Rattle.std.specs.Prelude.{◌≡◌, IfOk, List, false, replicate};

use crate::stops::stops_of;
use chains::ArcTable;
use faults::OutOfMemory;
use split_heal::heal;
use std::alloc::{AllocError, Global};
use topo::Topology;

fn add_mark(marks: &mut [bool], number: usize)
    ensures { marks.new ≡ with_mark marks.old number }
{
    if number < marks.len() {
        marks[number] = true;
    }
}

/// For each of so many arcs whether its number is chosen.
fn marks_of(alloc: Global, count: usize, chosen: &[usize]) -> Result<Vec<bool>, AllocError>
    ensures { IfOk result (λ v. v.items ≡ with_marks (replicate count false) chosen.now) }
{
    let mut marks = vec![in alloc; false; count]?;
    for number in chosen {
        add_mark(&mut marks, *number);
    }
    Ok(marks)
}

/// The maximal lines over the segments of the arcs of these numbers. They stop at the vertices that lie
/// on a number of these segments other than two; each is in its least direction, and they are sorted.
pub(crate) fn lines_over(
    alloc: Global,
    topology: &Topology,
    chosen: &[usize],
) -> Result<ArcTable, OutOfMemory>
    ensures { IfOk result (λ lines. (segments : List Segment) × HasArcs topology.now.arcs.arcs chosen.now segments × AreLinesOver segments lines) }
{
    let arcs = topology.arcs();
    let stops = stops_of(alloc, arcs, chosen)?;
    let marks = marks_of(alloc, arcs.len(), chosen)?;
    let joined = heal(alloc, arcs, &marks, &stops)?;
    let (lines, _) = joined.into_parts();
    Ok(lines)
}
