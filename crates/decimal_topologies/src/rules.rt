//! How a topology is read.
use decimal_maps::MapRules;

/// How a topology is read.
#[derive(Clone, Copy)]
pub struct TopologyRules<'r> {
    pub map: MapRules<'r>,
    /// The only object that is read, where one is named.
    pub layer: Option<&'r str>,
}
