//! Topologies of texts taken as they are: the lists and layers of a text, checked over its arcs, so that
//! nothing is stitched or built again.

pub mod ends;
pub mod laws;
pub mod lists;
mod order;
pub mod sorting;
pub mod topology;

pub use ends::line_ends;
pub use lists::lists_are_valid;
pub use sorting::layers_sorted;
pub use topology::{Accepted, take};
