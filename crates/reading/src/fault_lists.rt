//! What finds the faults of values: all of them, in order, or the first alone.
//!
//! A part of a text is given by the list of its faults, in the order of their paths and then of their numbers.
//! What finds all of them and what finds the first is one code, which stops where enough are found.

pub mod found;
pub mod info;
pub mod judge;
pub mod members;
pub mod shape;
pub mod types;

pub use found::Wanted;
pub use judge::{Judge, ListOf};
