//! The table of a map's arcs: pieces in their least direction, sorted, each once, and used arcs by their
//! numbers.
#![tactic(auto)]

pub mod arc_marks;
mod arcs_box;
pub mod ends;
mod key;
pub mod marking;
mod merging;
pub mod new_lists;
mod numbering;
pub mod ordered;
pub mod piece;
mod shared_positions;
pub mod step;
mod stored;
pub mod table;
pub mod table_arcs;
pub mod turning;
pub mod used_arcs;
pub mod writing;

pub use arc_marks::ArcMarks;
pub use arcs_box::Extent;
pub use new_lists::{HavePieces, NewLists, replace_arcs};
pub use piece::Piece;
pub use step::ArcStep;
pub use table::{ArcRef, ArcTable};
pub use turning::turn_ring;
