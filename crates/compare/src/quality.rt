//! Checks of a map's quality: vertices that lie near each other and are of different features, where a border
//! was drawn twice and slivers come from, and ids that are missing or occur more than once.

mod ids;
mod near;
pub mod pairs;
mod search;
pub mod uses;
pub mod vertex;
pub mod vertices;

pub use ids::{repeated_ids, without_id};
pub use near::{NearVertices, near_vertices};
pub use pairs::NearPlace;
