//! Calls of numbers, values and sinks.

mod handed;
mod numbers;
mod values;
mod writers;

use handed::Lists;
use numbers::Numbers;
use refused_calls::outcome::Tally;
use values::{Features, Values};
use writers::Writers;

/// Makes these calls.
pub(crate) fn test(rt: &HostRuntime, tally: &mut Tally) {
    tally.test_handed::<((Numbers, Writers), ((Values, Features), Lists))>(rt);
}
