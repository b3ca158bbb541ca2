//! Texts of topologies normalized: their arcs are noded, so that each stretch is an arc once, and healed,
//! so that arcs end only where they have to. Positions that an arc repeats are dropped first. Work is on arcs
//! alone: no feature is stitched.
#![tactic(auto)]

mod arc_lines;
pub mod arc_lists;
mod copies;
mod heal;
mod lists;
pub mod repeats;
mod split;
mod stitches;
mod used;
pub mod whole;

pub use repeats::{WithoutRepeats, without_repeats};
pub use whole::{Normalized, normalize};
