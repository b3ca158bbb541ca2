//! Plans that join a whole list in one of three groupings.
ghost use Rattle.merging.specs.Groupings.{IsNode, IsLeft, IsRight, IsHalves};
ghost use Rattle.merging.specs.Leaves.{leaves};
ghost use Rattle.std.specs.List.{range_with_len};
ghost use Rattle.std.specs.Prelude.{◌≡◌, ◌<◌, ◌≤◌, ◌+◌, ◌^◌, IfOk, MatchOption};

use crate::plan::Plan;
use faults::OutOfMemory;
use std::alloc::Global;

impl Plan {
    /// `((0,1),2)` and so on.
    pub fn left(alloc: Global, count: usize) -> Result<Option<Plan>, OutOfMemory>
        ensures grouping { IfOk result (λ o. MatchOption o (count ≡ 0) (λ p. IsLeft p count)) }
        ensures leaves { IfOk result (λ o. MatchOption o (count ≡ 0) (λ p. leaves p ≡ range_with_len 0 count)) }
    {
        if count == 0 {
            return Ok(None);
        }
        let mut plan = Plan::Leaf(0);
        for index in 1..count {
            plan = node(alloc, plan, Plan::Leaf(index))?;
        }
        Ok(Some(plan))
    }

    /// `(0,(1,2))` and so on.
    pub fn right(alloc: Global, count: usize) -> Result<Option<Plan>, OutOfMemory>
        ensures grouping { IfOk result (λ o. MatchOption o (count ≡ 0) (λ p. IsRight p 0 count)) }
        ensures leaves { IfOk result (λ o. MatchOption o (count ≡ 0) (λ p. leaves p ≡ range_with_len 0 count)) }
    {
        let Some(last) = count.checked_sub(1) else {
            return Ok(None);
        };
        let mut plan = Plan::Leaf(last);
        for index in (0..last).rev() {
            plan = node(alloc, Plan::Leaf(index), plan)?;
        }
        Ok(Some(plan))
    }

    /// The first half on the left, rounded down, and so on inside.
    pub fn halves(alloc: Global, count: usize) -> Result<Option<Plan>, OutOfMemory>
        ensures grouping { IfOk result (λ o. MatchOption o (count ≡ 0) (λ p. IsHalves p 0 count)) }
        ensures leaves { IfOk result (λ o. MatchOption o (count ≡ 0) (λ p. leaves p ≡ range_with_len 0 count)) }
    {
        if count == 0 {
            return Ok(None);
        }
        Ok(Some(halves_from(alloc, 0, count)?))
    }
}

fn node(alloc: Global, left: Plan, right: Plan) -> Result<Plan, OutOfMemory>
    ensures { IfOk result (IsNode left right) }
{
    let left = Box::new(alloc, left)?;
    let right = Box::new(alloc, right)?;
    Ok(Plan::Node(left, right))
}

fn halves_from(alloc: Global, start: usize, count: usize) -> Result<Plan, OutOfMemory>
    requires some { 1 ≤ count }
    requires room { start + count < 2 ^ 64 }
    ensures { IfOk result (λ p. IsHalves p start count) }
{
    if count == 1 {
        return Ok(Plan::Leaf(start));
    }
    let half = count / 2;
    let left = halves_from(alloc, start, half)?;
    let right = halves_from(alloc, start + half, count - half)?;
    node(alloc, left, right)
}
