//! Why a layer wasn't written.
use thiserror::Error;

/// Why a layer wasn't written.
#[derive(Clone, Copy, PartialEq, Eq, Debug, Error)]
pub enum LayerFault {
    /// The topology has no layer of that name.
    #[error("no such layer")]
    NoLayer,
    /// The sink failed.
    #[error("output failed")]
    Write,
}
