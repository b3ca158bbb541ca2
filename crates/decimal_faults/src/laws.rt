//! The laws of maps and their faults, each promised by a function that does nothing.
ghost use Rattle.decimal_faults.specs.Laws as law;

/// A map of which the fixing rules leave something of each feature has no faults, and of a map without faults they leave
/// something of each feature.
pub fn fixable_maps_are_faultless()
    ensures sound { law.MapsAreSound }
    ensures fixable { law.MapsAreFixable }
{}
