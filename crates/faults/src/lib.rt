//! Why a text or a call is refused, and where.
#![tactic(auto)]

pub mod fault;

pub use fault::{Fault, FaultKind, OutOfMemory, Step};
