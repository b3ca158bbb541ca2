//! Calls of arcs and topologies.

mod arc_calls;
mod results;

use arc_calls::{Cut, Squares};
use refused_calls::outcome::Tally;
use results::{CutAtOnce, Results, Shards};

/// Makes these calls.
pub(crate) fn test(rt: &HostRuntime, tally: &mut Tally) {
    tally.test_handed::<((Squares, Cut), (Results, (CutAtOnce, Shards)))>(rt);
}
