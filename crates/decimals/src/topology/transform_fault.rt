//! Why a text gives no transform.
ghost use Rattle.decimals.specs.declared.topology.transform_fault.TransformFault.TheVariants.{OutOfMemory};
ghost use Rattle.std.specs.Prelude.{◌≡◌};

use std::alloc::{AllocError, AllocFailed};
use thiserror::Error;

/// Why a text gives no transform.
#[derive(Clone, Copy, PartialEq, Eq, Debug, Drop, Error)]
pub enum TransformFault {
    /// The text is no JSON.
    #[error("no JSON")]
    NotJson,
    /// Its `type` is not `Topology`.
    #[error("no topology")]
    NotTopology,
    /// It has no `transform`.
    #[error("no transform")]
    NoTransform,
    /// `scale` or `translate` is no list of two numbers.
    #[error("scale and translate have to be two numbers each")]
    NotTwoNumbers,
    /// A scale is 0.
    #[error("a scale of 0")]
    ZeroScale,
    /// Over one power of ten, the numbers of x or of y have more than 25 digits, or with what an absolute 1 is worth
    /// more than 37, or that has more than 18.
    #[error("too many digits")]
    TooManyDigits,
    /// A growth of memory was refused.
    #[error("out of memory")]
    OutOfMemory,
}

impl From<AllocError> for TransformFault {
    ghost from_gives = { λ _ f. f ≡ OutOfMemory };

    fn from(_error: AllocError) -> TransformFault {
        TransformFault::OutOfMemory
    }
}

impl<T: Drop> From<AllocFailed<T>> for TransformFault {
    ghost from_gives = { λ _ f. f ≡ OutOfMemory };

    fn from(_failed: AllocFailed<T>) -> TransformFault {
        TransformFault::OutOfMemory
    }
}
