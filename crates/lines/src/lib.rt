//! Lines and rings: lists of positions that use no segment twice.
#![tactic(auto)]

pub mod copying;
pub mod items;
pub mod line;
pub mod neighbours;
pub mod pair;
pub mod position_filter;
pub mod ring;
pub mod shape_fault;
pub mod text;
mod trail;
mod visited;
