//! Why no difference was found or written.
use thiserror::Error;

/// Why no difference was found or written.
#[derive(Clone, Copy, PartialEq, Eq, Debug, Error)]
pub enum DifferenceFault {
    /// The grids differ.
    #[error("another grid")]
    OtherGrid,
    /// Neither topology has a layer of that name.
    #[error("no such layer")]
    NoLayer,
    /// A growth of memory was refused.
    #[error("out of memory")]
    OutOfMemory,
    /// The sink failed.
    #[error("output failed")]
    Write,
}
