//! The numbers of the arcs that stay.
ghost use Rattle.split_heal.specs.Choosing.{kept_numbers};
ghost use Rattle.std.specs.Prelude.{◌≡◌, IfOk};

use std::alloc::{AllocError, Global};

/// The numbers of the marks that are set.
pub(crate) fn numbers_of(alloc: Global, kept: &[bool]) -> Result<Vec<usize>, AllocError>
    ensures { IfOk result (λ v. v.items ≡ kept_numbers 0 kept.now) }
{
    let mut numbers = Vec::new(alloc);
    for (i, keeps) in kept.iter().enumerate() {
        if *keeps {
            numbers.push(i)?;
        }
    }
    Ok(numbers)
}
