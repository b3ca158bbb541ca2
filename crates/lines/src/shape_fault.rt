//! Why a list of positions is no line or ring.
ghost use Rattle.lines.specs.declared.shape_fault.ShapeFault.TheVariants.{OutOfMemory};
ghost use Rattle.std.specs.Prelude.{◌≡◌};

use std::alloc::{AllocError, AllocFailed};
use thiserror::Error;

/// Why a list of positions is no line or ring.
#[derive(Clone, Copy, PartialEq, Eq, Debug, Error)]
pub enum ShapeFault {
    /// Too few positions are left once equal neighbours are read as one.
    #[error("too few positions")]
    TooShort,
    /// The first and the last position of a ring differ (RFC 7946, section 3.1.6).
    #[error("the first and the last position differ")]
    NotClosed,
    /// Some segment occurs twice.
    #[error("a segment stands twice")]
    Revisit,
    /// A growth of memory was refused.
    #[error("out of memory")]
    OutOfMemory,
}

impl From<AllocError> for ShapeFault {
    ghost from_gives = { λ _ f. f ≡ OutOfMemory };

    fn from(_: AllocError) -> ShapeFault {
        ShapeFault::OutOfMemory
    }
}

impl<T: Drop> From<AllocFailed<T>> for ShapeFault {
    ghost from_gives = { λ _ f. f ≡ OutOfMemory };

    fn from(_: AllocFailed<T>) -> ShapeFault {
        ShapeFault::OutOfMemory
    }
}
