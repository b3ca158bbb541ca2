//! Geometries in whole numbers, without what snapping spoiled: lines and rings of which too few positions are left,
//! and those that use a segment twice. It also splits GeometryCollections, and turns rings.
#![tactic(auto)]

mod broken;
mod closing;
mod feature;
mod geometry;
pub mod laws;
mod linework;
mod lists;
mod loops;
mod measures;
mod polygons;
pub mod raw;
pub mod rules;
mod runs;

pub use broken::Broken;
pub use feature::FixedFeature;
pub use geometry::fix_geometry;
pub use lines::items::Items;
pub use linework::{unfixed_line, unfixed_ring};
pub use measures::area;
pub use raw::{RawGeometry, RawShape};
pub use rules::{Collapsed, FeatureFixes, Fixes, FixingRules, Rewind};
