//! Which shards of a list a plan names.
ghost use Rattle.merging.specs.Leaves.{leaves, HasIndexes};
ghost use Rattle.merging.specs.Naming.{marked};
ghost use Rattle.std.specs.Prelude.{◌≡◌, IfOk, false, replicate};

use crate::plan::Plan;
use faults::OutOfMemory;
use std::alloc::Global;

/// A mark for each index of a list of `count`, set where the plan names the index.
// It goes through the plan from the right; what waits on the left stands on the heap.
pub fn named_indexes(alloc: Global, plan: &Plan, count: usize) -> Result<Vec<bool>, OutOfMemory>
    requires indexes { HasIndexes count plan.now }
    ensures { IfOk result (λ v. v.items ≡ marked (replicate count false) (leaves plan.now)) }
{
    let mut marks = vec![in alloc; false; count]?;
    let mut waiting = Vec::new(alloc);
    let mut rest = plan;
    loop {
        match rest {
            Plan::Leaf(index) => {
                marks[*index] = true;
                let Some(before) = waiting.pop() else {
                    return Ok(marks);
                };
                rest = before;
            }
            Plan::Node(left, right) => {
                waiting.push(&**left)?;
                rest = right;
            }
        }
    }
}
