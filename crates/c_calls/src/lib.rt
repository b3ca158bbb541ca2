//! How calls of the library for C end, and what they are passed: outcomes and refusals, the room of an answer, names, grids
//! and choices.
#![tactic(auto)]

pub mod borrowed;
pub mod options;
pub mod outcome;
pub mod refusal;
pub mod room;
