//! Chains of a map: segments, the index of visits, pieces of lines and rings, and the maximal chains
//! over any segments. The table of arcs is that of `arcs`, and passed on.
#![tactic(auto)]

pub mod arc_cutting;
pub mod cutting;
pub mod joining;
mod listing;
mod recent;
mod repeats;
pub mod segment;
mod starts;
mod stop_set;
mod stops;
mod vertex_filter;
pub mod visits;

pub use arc_cutting::cut_arc;
pub use arcs::{
    ArcMarks, ArcRef, ArcStep, ArcTable, Extent, Piece, arc_marks, marking, ordered, step, table,
    table_arcs, turn_ring, turning, used_arcs,
};
pub use cutting::{add_pieces, cut_line, cut_ring};
pub use joining::{maximal, maximal_with};
pub use segment::Segment;
pub use visits::{ArcsIndex, PiecesIndex, VisitIndex};
