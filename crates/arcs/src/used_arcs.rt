//! Lists of used arcs in the other direction.
ghost use Rattle.std.specs.Prelude.{◌≡◌, ◌++◌, OnOk, cond};
ghost use Rattle.theory.specs.ArcNumbers as spec;
ghost use Rattle.theory.specs.ArcNumbers.{backwards};

use crate::table::ArcRef;
use std::alloc::AllocError;

impl ArcRef {
    /// The used arc in the other direction.
    pub fn flip(self) -> ArcRef
        ensures { result ≡ spec.flipped self }
    {
        ArcRef {
            arc: self.arc,
            reversed: !self.reversed,
        }
    }
}

/// Adds used arcs in reverse order, each in the other direction.
///
/// # Errors
/// Where memory is refused.
pub fn add_backwards(refs: &mut Vec<ArcRef>, used: &[ArcRef]) -> Result<(), AllocError>
    ensures { OnOk result (refs.new.items ≡ refs.old.items ++ backwards used.now) }
{
    let mut left = used;
    while let Some((last, before)) = left.split_last() {
        refs.push(last.flip())?;
        left = before;
    }
    Ok(())
}

/// Adds the pieces of an arc that is used along its direction or against it.
///
/// # Errors
/// Where memory is refused.
pub fn add_in_direction(
    refs: &mut Vec<ArcRef>,
    pieces: &[ArcRef],
    reversed: bool,
) -> Result<(), AllocError>
    ensures { OnOk result (refs.new.items ≡ refs.old.items ++ cond reversed (backwards pieces.now) pieces.now) }
{
    if reversed {
        add_backwards(refs, pieces)
    } else {
        refs.extend_from_slice(pieces)
    }
}
