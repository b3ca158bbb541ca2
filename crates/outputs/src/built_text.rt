//! From GeoJSON texts, each of a layer, to the topology of their map and to its canonical text.

pub mod building;
pub mod laws;

pub use building::{BuildFault, build_borrowed, build_text, build_topology};
