//! What became of the features of a topology in another one, layer by layer: which are only in the old one, which
//! only in the new one, and which have the same id, or the same value of a property, and differ.
#![tactic(auto)]

mod comparison;
mod difference;
mod fault;
mod index;
mod keys;
mod pairs;
mod partners;
mod property;
pub mod quality;

pub use comparison::{Comparison, compare};
pub use difference::{Changed, LayerDifference};
pub use fault::CompareFault;
pub use pairs::LayerPair;
