//! Topologies taken as they are: what is checked of arcs and of lists of arcs, so that the arcs are
//! those of the map that they make.
#![tactic(auto)]

pub mod accept;
pub mod arc_ends;
pub mod chaining;
mod end_tests;
pub mod laws;
pub mod lists;
pub mod loops;
pub mod noding;
pub mod numbered_arcs;
mod ring_starts;
mod shared_vertices;
pub mod used_arcs;

pub use arc_ends::{add_line_ends, ends_meet};
pub use chaining::{ends_along, run};
pub use lists::{is_valid_ring, line_run};
pub use loops::free_loops;
pub use noding::{arcs_in_order, is_noded};
pub use numbered_arcs::NumberedArcs;
pub use used_arcs::ArcsUsed;
