//! Why topologies were not compared.
ghost use Rattle.compare.specs.declared.fault.CompareFault.TheVariants.{OutOfMemory as WantOfMemory};
ghost use Rattle.std.specs.Prelude.{◌≡◌};

use faults::OutOfMemory;
use std::alloc::{AllocError, AllocFailed};
use thiserror::Error;

/// Why two topologies were not compared.
#[derive(Clone, Copy, PartialEq, Eq, Debug, Error)]
pub enum CompareFault {
    /// The grids differ.
    #[error("another grid")]
    OtherGrid,
    /// A growth of memory was refused.
    #[error("out of memory")]
    OutOfMemory,
}

impl From<AllocError> for CompareFault {
    ghost from_gives = { λ _ f. f ≡ WantOfMemory };

    fn from(_: AllocError) -> CompareFault {
        CompareFault::OutOfMemory
    }
}

impl<T: Drop> From<AllocFailed<T>> for CompareFault {
    ghost from_gives = { λ _ f. f ≡ WantOfMemory };

    fn from(_: AllocFailed<T>) -> CompareFault {
        CompareFault::OutOfMemory
    }
}

impl From<OutOfMemory> for CompareFault {
    ghost from_gives = { λ _ f. f ≡ WantOfMemory };

    fn from(_: OutOfMemory) -> CompareFault {
        CompareFault::OutOfMemory
    }
}
