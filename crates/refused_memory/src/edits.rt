//! Calls that merge texts and shards, join arcs again, take features out of topologies and edit sessions, on
//! worked maps. A session that was to be edited is compared, too.

mod healing;
mod joins;
mod removals;
mod sessions;
mod shards;

use refused_calls::outcome::Tally;

/// Makes these calls.
pub(crate) fn test(rt: &HostRuntime, tally: &mut Tally) {
    joins::test(rt, tally);
    shards::test(rt, tally);
    healing::test(rt, tally);
    removals::test(rt, tally);
    sessions::test(rt, tally);
}
