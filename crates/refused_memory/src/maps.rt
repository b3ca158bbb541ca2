//! Calls that read, build, ask, cut arcs again, write and put maps together, on worked maps.

mod arc_calls;
mod asking;
mod parts;
mod readers;
mod recuts;
mod streams;
mod taken;
mod texts;
mod unions;
mod worked;
mod writers;

use refused_calls::outcome::Tally;
use streams::Squares;

/// Makes these calls; last those that take no memory.
pub(crate) fn test(rt: &HostRuntime, tally: &mut Tally) {
    let borrowed = tally.borrowed(rt, "without memory", "its map", Squares::of);
    parts::test(rt, tally);
    worked::test(rt, tally);
    taken::test(rt, tally);
    recuts::test(rt, tally);
    unions::test(rt, tally);
    arc_calls::test(rt, tally);
    if let Some(squares) = &borrowed {
        streams::test(rt, tally, squares);
    }
}
