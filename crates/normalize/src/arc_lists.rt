//! Which lists of a text's arcs are lines or rings, told by what is known of each arc, so that the positions
//! of a list need not be put together.

mod labels;
pub mod lists;
mod segments;
pub mod summaries;
pub mod verdict;

pub use lists::ArcLists;
pub use verdict::ListVerdict;
