//! Copies on an allocator.
ghost use Rattle.std.specs.Prelude.{◌≡◌, IfOk};

use crate::items::Items;
use crate::line::Line;
use crate::ring::Ring;
use faults::OutOfMemory;
use grid::pos::Pos;
use std::alloc::Global;

/// A value that can be copied; its memory comes from the allocator.
pub trait CopyIn: Sized + Drop {
    /// An equal value, or out of memory.
    fn copy_in(&self, alloc: Global) -> Result<Self, OutOfMemory>
        ensures { IfOk result (λ x. x ≡ self.now) };
}

impl CopyIn for Pos {
    fn copy_in(&self, _alloc: Global) -> Result<Pos, OutOfMemory> {
        Ok(*self)
    }
}

impl CopyIn for Line {
    fn copy_in(&self, alloc: Global) -> Result<Line, OutOfMemory> {
        self.copy(alloc)
    }
}

impl CopyIn for Ring {
    fn copy_in(&self, alloc: Global) -> Result<Ring, OutOfMemory> {
        self.copy(alloc)
    }
}

impl<T: CopyIn> CopyIn for Items<T> {
    fn copy_in(&self, alloc: Global) -> Result<Items<T>, OutOfMemory> {
        let items = copy_each(alloc, self.as_slice())?;
        Ok(Items::from_vec(items))
    }
}

/// Equal values, in their order.
///
/// # Errors
/// Where memory is refused.
pub fn copy_each<T: CopyIn>(alloc: Global, items: &[T]) -> Result<Vec<T>, OutOfMemory>
    ensures { IfOk result (λ copies. copies.items ≡ items.now) }
{
    let mut copies = Vec::new(alloc);
    copies.reserve(items.len())?;
    for item in items {
        copies.push(item.copy_in(alloc)?)?;
    }
    Ok(copies)
}
