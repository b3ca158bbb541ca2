//! Why a topology has no text in the unit of the map.
ghost use Rattle.decimals.specs.declared.topology.fault.DecimalFault.TheVariants.{OutOfMemory};
ghost use Rattle.std.specs.Prelude.{◌≡◌};

use sinks::WriteFault;
use std::alloc::{AllocError, AllocFailed};
use thiserror::Error;

/// Why a topology has no text in the unit of the map.
#[derive(Clone, Copy, PartialEq, Eq, Debug, Drop, Error)]
pub enum DecimalFault {
    /// A number of the transform or the bounding box has too many digits.
    #[error("too many digits")]
    TooManyDigits,
    /// A growth of memory was refused.
    #[error("out of memory")]
    OutOfMemory,
}

impl From<AllocError> for DecimalFault {
    ghost from_gives = { λ _ f. f ≡ OutOfMemory };

    fn from(_error: AllocError) -> DecimalFault {
        DecimalFault::OutOfMemory
    }
}

impl<T: Drop> From<AllocFailed<T>> for DecimalFault {
    ghost from_gives = { λ _ f. f ≡ OutOfMemory };

    fn from(_failed: AllocFailed<T>) -> DecimalFault {
        DecimalFault::OutOfMemory
    }
}

impl From<faults::OutOfMemory> for DecimalFault {
    ghost from_gives = { λ _ f. f ≡ OutOfMemory };

    fn from(_fault: faults::OutOfMemory) -> DecimalFault {
        DecimalFault::OutOfMemory
    }
}

impl From<WriteFault> for DecimalFault {
    ghost from_gives = { λ _ f. f ≡ OutOfMemory };

    fn from(_fault: WriteFault) -> DecimalFault {
        DecimalFault::OutOfMemory
    }
}
