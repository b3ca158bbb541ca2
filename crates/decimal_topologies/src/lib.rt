//! TopoJSON in decimal numbers: all faults of a topology that the fixing rules leave, and the reader of one that has none.
//!
//! Its arcs are rounded once, in a table (`decimal_arcs`). The lines and rings of its geometries are lists of numbers of arcs, which are
//! stitched together to lists of positions; so what is made of a topology is what is made of GeoJSON in decimal numbers.
#![tactic(auto)]

mod bodies;
mod feature;
mod geometry;
pub mod laws;
mod numbers;
pub mod objects;
mod root;
pub mod rules;
mod stitching;
mod used;

pub use objects::TopologyLayer;
pub use root::{is_topology, read_topology, topology_faults};
pub use rules::TopologyRules;
