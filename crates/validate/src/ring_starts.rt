//! Whether a list of used arcs begins with the one that starts least.
ghost use Rattle.validate.specs.RingStarts as spec;
ghost use Rattle.arcs.specs.Steps.{step_along};
ghost use Rattle.std.specs.Prelude.{◌≡◌};

use arcs::ArcStep;
use chains::table::{ArcRef, ArcTable};

fn starts_before(table: &ArcTable, used: ArcRef, start: &ArcStep) -> bool
    ensures { result ≡ spec.before_if (step_along table.now.arcs used) start.now }
{
    match table.first_step(used) {
        Some(other) => other < *start,
        None => false,
    }
}

fn none_starts(table: &ArcTable, start: &ArcStep, refs: &[ArcRef]) -> bool
    ensures { result ≡ spec.none_starts table.now.arcs start.now refs.now }
{
    for used in refs {
        if starts_before(table, *used, start) {
            return false;
        }
    }
    true
}

/// Whether no used arc starts before the first; it has two vertices or more.
pub(crate) fn starts_least(table: &ArcTable, refs: &[ArcRef]) -> bool
    ensures { result ≡ spec.starts_least table.now.arcs refs.now }
{
    let Some((first, others)) = refs.split_first() else {
        return false;
    };
    match table.first_step(*first) {
        Some(start) => none_starts(table, &start, others),
        None => false,
    }
}
