//! Features: ids, properties, shapes, and maps from layer names to sets of features.
#![tactic(auto)]

pub mod feature;
pub mod feature_map;
mod fitting;
pub mod form;
pub mod form_map;
pub mod form_parts;
pub mod insert_fault;
pub mod layer;
pub mod nesting;
pub mod props;
pub mod shape;
pub mod spelled;
pub mod writing;

pub use faults::{Fault, FaultKind, OutOfMemory, Step};
pub use feature::Feature;
pub use feature_map::FeatureMap;
pub use form::Form;
pub use insert_fault::InsertFault;
pub use layer::{FeatureLayer, feature_set};
pub use lines::copying;
pub use lines::items::Items;
pub use lines::line::Line;
pub use lines::ring::Ring;
pub use lines::shape_fault::ShapeFault;
pub use props::{PropFault, Props};
pub use shape::{Id, Shape};
pub use sinks::{Answer, Kept, Refused, Script, Sink, Tap, WriteFault, put};
pub use spelled::Spelled;
