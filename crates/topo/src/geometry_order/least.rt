//! The least step along each arc, in both directions.
ghost use Rattle.topo.specs.GeometryOrder.Least.{least_at, least_both, least_of};
ghost use Rattle.std.specs.Prelude.{◌≡◌, IfOk};

use arcs::step::ArcStep;
use arcs::table::{ArcRef, ArcTable};
use faults::OutOfMemory;
use grid::Pos;
use std::alloc::Global;

/// The least steps along an arc and against it.
#[derive(Clone, Copy)]
pub(crate) struct LeastSteps {
    forward: ArcStep,
    backward: ArcStep,
}

/// The least steps of an arc; `None` where it has no two positions.
fn least_steps(arc: &[Pos]) -> Option<LeastSteps>
    ensures { result ≡ least_both arc.now }
{
    let (first, others) = arc.split_first()?;
    let (second, rest) = others.split_first()?;
    let (from, mut here) = (*first, *second);
    let mut forward = ArcStep { from, to: here };
    let mut backward = ArcStep {
        from: here,
        to: from,
    };
    for next in rest {
        let (from, to) = (here, *next);
        forward = forward.min(ArcStep { from, to });
        backward = backward.min(ArcStep { from: to, to: from });
        here = to;
    }
    Some(LeastSteps { forward, backward })
}

/// The least steps of each arc of a table.
pub(crate) fn least_of_arcs(
    alloc: Global,
    arcs: &ArcTable,
) -> Result<Vec<Option<LeastSteps>>, OutOfMemory>
    ensures { IfOk result (λ v. v.items ≡ least_of arcs.now.arcs) }
{
    let mut least = Vec::with_capacity(alloc, arcs.len())?;
    for arc in arcs.iter() {
        least.push(least_steps(arc))?;
    }
    Ok(least)
}

/// The least step along a used arc; `None` where no arc has its number.
pub(crate) fn least_step(least: &[Option<LeastSteps>], used: &ArcRef) -> Option<ArcStep>
    ensures { result ≡ least_at least.now used.now }
{
    let of_arc = (*least.get(used.arc)?)?;
    if used.reversed {
        Some(of_arc.backward)
    } else {
        Some(of_arc.forward)
    }
}
