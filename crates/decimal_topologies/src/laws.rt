//! The law of topologies and their faults, promised by a function that does nothing.
ghost use Rattle.decimal_topologies.specs.Laws.{TopologiesAreSound};

/// A topology of which the fixing rules leave something of each feature has no faults.
pub fn fixable_topologies_are_faultless()
    ensures { TopologiesAreSound }
{}
