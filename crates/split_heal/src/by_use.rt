//! What is noted of used arcs, by the numbers of the arcs.
ghost use Rattle.split_heal.specs.ArcUseMap.{value_at, recorded_of, with_recorded};
ghost use Rattle.std.specs.Ordering.{is_eq, nat_cmp};
ghost use Rattle.std.specs.Prelude.{◌≡◌, ◌<◌, ℕ, IfOk, OnOk, None, Some, cond, length};
ghost use Rattle.theory.specs.ArcNumbers as numbers;

use chains::table::ArcRef;
use std::alloc::{AllocError, Global};

/// What is noted of used arcs: of those that are used ahead, and of those that are used reversed.
#[derive(Drop)]
pub(crate) struct ArcUseMap<T> {
    ahead: Vec<Option<T>>,
    against: Vec<Option<T>>,
}

/// Makes a place, with nothing noted there, where there is none.
fn reach<T: Copy>(slots: &mut Vec<Option<T>>, place: usize) -> Result<(), AllocError>
    ensures same { OnOk result ((k : ℕ) → value_at slots.new.items k ≡ value_at slots.old.items k) }
    ensures there { OnOk result (place < length slots.new.items) }
{
    if place < slots.len() {
        return Ok(());
    }
    let Some(count) = place.checked_add(1) else {
        return Err(AllocError);
    };
    slots.resize(count, None)?;
    Ok(())
}

/// Notes a value at a place.
fn put_at<T: Copy>(slots: &mut Vec<Option<T>>, place: usize, value: T) -> Result<(), AllocError>
    ensures { OnOk result ((k : ℕ) → value_at slots.new.items k ≡ cond (is_eq (nat_cmp place k)) (Some value) (value_at slots.old.items k)) }
{
    reach(slots, place)?;
    slots[place] = Some(value);
    Ok(())
}

fn value_at<T: Copy>(slots: &[Option<T>], place: usize) -> Option<T>
    ensures { result ≡ value_at slots.now place }
{
    let recorded = slots.get(place)?;
    *recorded
}

impl<T: Copy> ArcUseMap<T> {
    /// Nothing noted, with room for so many arcs.
    pub(crate) fn with_capacity(alloc: Global, count: usize) -> Result<ArcUseMap<T>, AllocError>
        ensures { IfOk result (λ b. (q : numbers.ArcRef) → recorded_of b q ≡ None) }
    {
        Ok(ArcUseMap {
            ahead: Vec::with_capacity(alloc, count)?,
            against: Vec::with_capacity(alloc, count)?,
        })
    }

    /// Notes a value of a used arc.
    pub(crate) fn set(&mut self, used: ArcRef, value: T) -> Result<(), AllocError>
        ensures { OnOk result ((q : numbers.ArcRef) → recorded_of self.new q ≡ with_recorded used value (recorded_of self.old) q) }
    {
        if used.reversed {
            put_at(&mut self.against, used.arc, value)
        } else {
            put_at(&mut self.ahead, used.arc, value)
        }
    }

    /// What is noted of a used arc.
    pub(crate) fn get(&self, used: ArcRef) -> Option<T>
        ensures { result ≡ recorded_of self.now used }
    {
        if used.reversed {
            value_at(&self.against, used.arc)
        } else {
            value_at(&self.ahead, used.arc)
        }
    }
}
