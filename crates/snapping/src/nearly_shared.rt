//! Vertices that are nearly shared: those of different features that are a few steps of the grid apart.
//!
//! Where borders differ by noise, rounding makes two vertices of one. Then the border is no longer shared, and
//! the topology has two arcs for it.

mod clusters;
mod component;
mod counts;
mod index;
mod joining;
mod neighbours;
mod vertices;

pub use clusters::{Clusters, GREATEST_DISTANCE};
pub use counts::VertexCounts;
pub use index::VertexIndex;
pub use joining::join_shape;
pub use vertices::Vertices;
