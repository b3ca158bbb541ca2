//! Why a feature is not put into a map.
ghost use Rattle.shapes.specs.declared.insert_fault.InsertFault.TheVariants.{OutOfMemory};
ghost use Rattle.std.specs.Prelude.{◌≡◌};

use std::alloc::AllocFailed;
use thiserror::Error;

/// Why a feature is not put into a map.
#[derive(Clone, Copy, PartialEq, Eq, Debug, Error)]
pub enum InsertFault {
    /// The map has no layer of that name.
    #[error("no such layer")]
    NoLayer,
    /// A growth of memory was refused.
    #[error("out of memory")]
    OutOfMemory,
}

impl<T: Drop> From<AllocFailed<T>> for InsertFault {
    ghost from_gives = { λ _ f. f ≡ OutOfMemory };

    fn from(_: AllocFailed<T>) -> InsertFault {
        InsertFault::OutOfMemory
    }
}
