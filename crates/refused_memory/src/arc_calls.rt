//! Calls that take memory of arcs and of what they are made of: indexes of visits, pieces, segments, tables
//! and lists of arcs.

mod indexes;
mod lists;
mod pieces;
mod segments;
mod tables;

use refused_calls::outcome::Tally;

/// Makes these calls.
pub(crate) fn test(rt: &HostRuntime, tally: &mut Tally) {
    indexes::test(rt, tally);
    pieces::test(rt, tally);
    segments::test(rt, tally);
    tables::test(rt, tally);
    lists::test(rt, tally);
}
