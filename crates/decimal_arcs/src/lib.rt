//! The transform and the arcs of a topology in decimal numbers: all faults of them that the fixing rules leave, and the
//! arcs in steps of the grid, each position rounded once.
#![tactic(auto)]

pub mod arcs;
mod axes;
pub mod place;
mod places;
pub mod transform;
