//! The steps of a walk, each from a position to the next.
ghost use Rattle.query.specs.Steps as spec;
ghost use Rattle.query.specs.Steps.{behind_step};
ghost use Rattle.std.specs.Prelude.{◌≡◌};

use arcs::ArcStep;
use grid::Pos;
use topo::Walk;

/// Whether the step goes from one position to another.
pub(crate) fn is_step(step: ArcStep, from: Pos, to: Pos) -> bool
    ensures { result ≡ spec.is_step step from to }
{
    step.from == from && step.to == to
}

/// The least step of a walk; None where it has none.
pub(crate) fn least_step(mut walk: Walk) -> Option<ArcStep>
    ensures { result ≡ spec.least_step walk.entry }
{
    let from = *walk.next()?;
    let mut here = *walk.next()?;
    let mut least = ArcStep { from, to: here };
    while let Some(next) = walk.next() {
        least = least.min(ArcStep {
            from: here,
            to: *next,
        });
        here = *next;
    }
    Some(least)
}

/// What is left of a walk behind a step.
pub(crate) fn behind(mut walk: Walk<'_>, step: ArcStep) -> Walk<'_>
    ensures { result ≡ behind_step step walk.entry }
{
    if let Some(first) = walk.next() {
        let mut here = *first;
        while let Some(next) = walk.next() {
            if is_step(step, here, *next) {
                return walk;
            }
            here = *next;
        }
    }
    walk
}
