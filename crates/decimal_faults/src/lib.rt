//! All faults of GeoJSON texts in decimal numbers that the fixing rules leave, and the reader of a tree that has none.
//!
//! A part of a tree is given by the list of its faults, in the order of their paths and then of their numbers, and by what
//! it means. It is checked, which gives all its faults, or made, which gives what it means where it has none.
#![tactic(auto)]

pub mod coordinates;
pub mod feature;
pub mod geometry;
pub mod laws;
pub mod lists;
pub mod members;
pub mod outline;
pub mod part;
pub mod position;
mod root;

pub use root::{faults, read_value};
