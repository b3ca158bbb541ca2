//! Topologies in the unit of the map again.
#![tactic(auto)]

pub mod topology;
