//! Vertices that different features share or nearly share: how many there are, and how they are joined.
#![tactic(auto)]

pub mod nearly_shared;
