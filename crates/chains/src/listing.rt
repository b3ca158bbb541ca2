//! Sets as lists.
ghost use Rattle.std.specs.Prelude.{◌≡◌, IfOk};

use std::alloc::{AllocError, Global};
use std::collections::BTreeSet;

/// The items of a set, in their order.
pub(crate) fn list_of_set<T: Ord + Copy>(
    alloc: Global,
    set: &BTreeSet<T>,
) -> Result<Vec<T>, AllocError>
    ensures { IfOk result (λ v. v.items ≡ set.now.keys) }
{
    let mut list = Vec::with_capacity(alloc, set.len())?;
    for item in set.iter() {
        list.push(*item)?;
    }
    Ok(list)
}
