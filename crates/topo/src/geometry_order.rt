//! The order of a layer's geometries, told by their arcs: nothing is stitched.
//!
//! A topology has each segment at one place of one arc. So of two used arcs that differ the first two
//! positions differ, and lists of used arcs are in the order of the positions that they stitch to where they are
//! compared by these alone. A ring is compared from its least step on, which is in one of its arcs.

mod bodies;
mod keys;
mod least;
mod lists;
mod order;
mod sorting;

pub use order::GeometryOrder;
