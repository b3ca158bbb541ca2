//! Why shards are not joined, plans not run, and texts not merged.
ghost use Rattle.merging.specs.declared.fault.JoinFault.TheVariants as join;
ghost use Rattle.merging.specs.declared.fault.MergeFault.TheVariants as merge;
ghost use Rattle.std.specs.Prelude.{◌≡◌};

use faults::{Fault, OutOfMemory};
use std::alloc::{AllocError, AllocFailed};
use thiserror::Error;

/// Why two shards are not joined.
#[derive(Clone, Copy, PartialEq, Eq, Debug, Error)]
pub enum JoinFault {
    /// The shards' grids differ.
    #[error("another grid")]
    OtherGrid,
    /// A growth of memory was refused.
    #[error("out of memory")]
    OutOfMemory,
}

impl From<OutOfMemory> for JoinFault {
    ghost from_gives = { λ _ f. f ≡ join.OutOfMemory };

    fn from(_: OutOfMemory) -> JoinFault {
        JoinFault::OutOfMemory
    }
}

impl<T: Drop> From<AllocFailed<T>> for JoinFault {
    ghost from_gives = { λ _ f. f ≡ join.OutOfMemory };

    fn from(_: AllocFailed<T>) -> JoinFault {
        JoinFault::OutOfMemory
    }
}

/// Why a plan is not run.
#[derive(Clone, Copy, PartialEq, Eq, Debug, Error)]
pub enum PlanFault {
    /// This leaf is no index of the list; the first such from the left.
    #[error("leaf {0} is past the list")]
    BadPlan(usize),
    /// The shard of this number is on another grid than shard 0; the first such.
    #[error("shard {0} is on another grid")]
    OtherGrid(usize),
    /// A growth of memory was refused.
    #[error("out of memory")]
    OutOfMemory,
}

/// Why texts are not merged.
#[derive(PartialEq, Eq, Drop, Debug, Error)]
pub enum MergeFault {
    /// This leaf of the plan is no index of the list; the first such from the left.
    #[error("leaf {0} is past the list")]
    BadPlan(usize),
    /// The text of this number is refused, the first such, with its first error, which is never out
    /// of memory.
    #[error("text {0} is refused")]
    Text(usize, Fault),
    /// The text of this number has another transform than text 0; the first such.
    #[error("text {0} is on another grid")]
    OtherGrid(usize),
    /// A growth of memory was refused.
    #[error("out of memory")]
    OutOfMemory,
}

impl From<OutOfMemory> for MergeFault {
    ghost from_gives = { λ _ f. f ≡ merge.OutOfMemory };

    fn from(_: OutOfMemory) -> MergeFault {
        MergeFault::OutOfMemory
    }
}

impl From<AllocError> for MergeFault {
    ghost from_gives = { λ _ f. f ≡ merge.OutOfMemory };

    fn from(_: AllocError) -> MergeFault {
        MergeFault::OutOfMemory
    }
}

impl<T: Drop> From<AllocFailed<T>> for MergeFault {
    ghost from_gives = { λ _ f. f ≡ merge.OutOfMemory };

    fn from(_: AllocFailed<T>) -> MergeFault {
        MergeFault::OutOfMemory
    }
}
