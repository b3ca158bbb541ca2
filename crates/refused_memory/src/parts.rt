//! Calls that take memory of values and features, geometries, and readers of parts.

mod features;
mod texts;
mod topologies;
mod values;

use refused_calls::outcome::Tally;

/// Makes these calls.
pub(crate) fn test(rt: &HostRuntime, tally: &mut Tally) {
    values::test(rt, tally);
    features::test(rt, tally);
    topologies::test(rt, tally);
    texts::test(rt, tally);
}
