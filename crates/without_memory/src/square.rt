//! The unit square, of which both groups of calls have lines and rings.

use refused_calls::inputs::positions;
use refused_calls::texts::Places;
use shapes::Ring;
use std::alloc::Global;

/// The unit square, which comes back to its first place.
pub(crate) const SQUARE: Places = &[(0, 0), (1, 0), (1, 1), (0, 1), (0, 0)];

/// Its ring.
pub(crate) fn ring(alloc: Global) -> Option<Ring> {
    Ring::from_closed(alloc, positions(alloc, SQUARE)?).ok()
}
