//! What GeoJSON and TopoJSON share of reading along the tokens of a text: lists, ids and properties,
//! words that have to be there, values of which the first brackets are behind, and whole texts.

pub mod info;
pub mod items;
pub mod list;
pub mod opened;
pub mod part;
pub mod text;
