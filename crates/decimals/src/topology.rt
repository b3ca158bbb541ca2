//! Topologies with their transform and their bounding box in the unit of the map, as degrees.
//!
//! A topology in whole absolute numbers has the same arcs, and decimal numbers in its transform. Its
//! `type` comes first, where GDAL looks for it, and its rings may be turned as a reader wants them.
//!
//! Positions may be rounded to the transform of another topology, as topoquantize does.

mod area;
mod box_transform;
mod decimal_transform;
mod fault;
mod geometries;
pub mod laws;
mod layers;
mod pairs;
mod properties;
mod quantized_axis;
mod quantized_writer;
mod quantizer;
mod rules;
mod transform_fault;
mod turning;
mod writer;

pub use decimal_transform::DecimalTransform;
pub use fault::DecimalFault;
pub use quantized_writer::text_on;
pub use rules::{BackRules, NumbersBack};
pub use transform_fault::TransformFault;
pub use writer::text_of;
