//! Why lists of edits are not done to their end; and, passed on, why shards are not joined, plans not
//! run, and texts not merged.

pub use merging::fault::{JoinFault, MergeFault, PlanFault};
use thiserror::Error;

/// Why a list of edits is not done to its end.
#[derive(Clone, Copy, PartialEq, Eq, Debug, Error)]
#[error("edit {place}: {fault}")]
pub struct EditsFault {
    /// The place of the first edit that is refused.
    pub place: usize,
    /// Why it is refused.
    pub fault: JoinFault,
}
