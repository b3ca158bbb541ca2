//! Why a question to a topology has no answer.
ghost use Rattle.query.specs.declared.fault.QueryFault.TheVariants.{OutOfMemory as WantOfMemory};
ghost use Rattle.std.specs.Prelude.{◌≡◌};

use faults::OutOfMemory;
use std::alloc::{AllocError, AllocFailed};
use thiserror::Error;

/// Why a question about a layer has no answer.
#[derive(Clone, Copy, PartialEq, Eq, Debug, Error)]
pub enum QueryFault {
    /// The topology has no layer of that name.
    #[error("no such layer")]
    NoLayer,
    /// A growth of memory was refused.
    #[error("out of memory")]
    OutOfMemory,
}

impl From<AllocError> for QueryFault {
    ghost from_gives = { λ _ f. f ≡ WantOfMemory };

    fn from(_: AllocError) -> QueryFault {
        QueryFault::OutOfMemory
    }
}

impl<T: Drop> From<AllocFailed<T>> for QueryFault {
    ghost from_gives = { λ _ f. f ≡ WantOfMemory };

    fn from(_: AllocFailed<T>) -> QueryFault {
        QueryFault::OutOfMemory
    }
}

impl From<OutOfMemory> for QueryFault {
    ghost from_gives = { λ _ f. f ≡ WantOfMemory };

    fn from(_: OutOfMemory) -> QueryFault {
        QueryFault::OutOfMemory
    }
}
