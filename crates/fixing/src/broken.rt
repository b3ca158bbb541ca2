//! Why nothing is made of a geometry.
ghost use Rattle.fixing.specs.declared.broken.Broken.TheVariants.{OutOfMemory};
ghost use Rattle.std.specs.Prelude.{◌≡◌};

use faults::OutOfMemory;
use std::alloc::{AllocError, AllocFailed};

/// Why nothing is made of a geometry.
#[derive(Clone, Copy, PartialEq, Eq, Debug, Drop)]
pub enum Broken {
    /// The rules refuse it: one of its lines or rings has a fault that they don't fix, or it is a GeometryCollection that
    /// they don't split.
    Refused,
    /// A growth of memory was refused.
    OutOfMemory,
}

impl From<OutOfMemory> for Broken {
    ghost from_gives = { λ _ f. f ≡ OutOfMemory };

    fn from(_error: OutOfMemory) -> Broken {
        Broken::OutOfMemory
    }
}

impl From<AllocError> for Broken {
    ghost from_gives = { λ _ f. f ≡ OutOfMemory };

    fn from(_error: AllocError) -> Broken {
        Broken::OutOfMemory
    }
}

impl<T: Drop> From<AllocFailed<T>> for Broken {
    ghost from_gives = { λ _ f. f ≡ OutOfMemory };

    fn from(_failed: AllocFailed<T>) -> Broken {
        Broken::OutOfMemory
    }
}
