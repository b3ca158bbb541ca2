//! The topology of a map (TopoJSON section 2.1): its arcs, each once, and each line and ring as a list
//! of arcs.
#![tactic(auto)]

pub mod arc_slice;
mod bounds;
mod building;
mod cuts;
mod expanding;
pub mod geom;
pub mod geometry_order;
pub mod layer_laws;
pub mod order;
mod rewritten;
pub mod stitching;
pub mod topology;
pub mod used_arcs;
pub mod walk;

pub use arc_slice::ArcSlice;
pub use geom::{Body, Geom};
pub use order::kind_order;
pub use rewritten::{
    copy_rewritten, geometries_rewritten, geometry_rewritten, layer_rewritten, layers_rewritten,
};
pub use topology::{Layer, Topology};
pub use used_arcs::mark_body;
pub use walk::Walk;
