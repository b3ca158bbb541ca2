//! Ids and properties of a map in decimal numbers.
#![tactic(auto)]

pub mod back;
pub mod columns;
mod decimals;
mod id;
pub mod info;
pub mod judge;
pub mod laws;
mod numeral;
mod properties;
pub mod read;
pub mod rules;
mod values;

pub use back::properties_back;
pub use columns::Columns;
pub use info::{Attributes, Unread};
pub use judge::attribute_faults;
pub use read::read_attributes;
pub use rules::{AttributeRules, Reals, Scale};
