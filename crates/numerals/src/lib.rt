//! Decimal numerals snapped to a grid, each to the nearest whole number of steps.
#![tactic(auto)]

pub mod axis;
pub mod decimal;
mod digits;
mod fraction;
pub mod laws;
pub mod rounding;
mod short;
pub mod step;
pub mod whole_numbers;

pub use axis::{DecimalAxis, is_fit};
pub use decimal::Decimal;
pub use rounding::{snap, snap_measured};
pub use step::DecimalStep;
pub use whole_numbers::whole;
