//! Running a plan over a list of shards, by a stack of what is left to do and one of the shards made so far.
ghost use Rattle.grid.specs.Place.{Transform};
ghost use Rattle.merging.specs.Leaves.{leaves, HasIndexes};
ghost use Rattle.merging.specs.Plans.{AreOnOneGrid, first_other, off_grid, union_at, plan_fault};
ghost use Rattle.merging.specs.Running.{LastJoined};
ghost use Rattle.merging.specs.declared.fault.JoinFault.TheVariants as join_fault;
ghost use Rattle.merging.specs.declared.fault.PlanFault.TheVariants.{OutOfMemory};
ghost use Rattle.merging.specs.declared.fault.PlanFault.{PlanFault};
ghost use Rattle.std.specs.Prelude.{◌≡◌, ◌≤◌, ◌↔◌, ◌⊎◌, true, All, IfOk, IfErr, IsOkUnless, None, Some, Err, length, map};

use crate::fault::{JoinFault, PlanFault};
use crate::plan::{Plan, first_bad_leaf};
use crate::shard::{Shard, same_grid};
use grid::transform::Grid;
use std::alloc::Global;

// What is left to do: to run a plan, or to join the two shards made last.
#[derive(Clone, Copy)]
enum Task<'a> {
    Run(&'a Plan),
    Join,
}

// Joins the two shards made last, and puts their join in their place.
fn join_last<S: Shard>(alloc: Global, made: &mut Vec<S>) -> Result<(), JoinFault>
    requires two { 2 ≤ length made.old.items }
    ensures joined { IfOk result (λ _. LastJoined S.map_of made.old.items made.new.items) }
    ensures grid { (g : Transform) → All (λ s. S.grid_of s ≡ g) made.old.items → IfOk result (λ _. All (λ s. S.grid_of s ≡ g) made.new.items) }
    ensures memory { (g : Transform) → All (λ s. S.grid_of s ≡ g) made.old.items → IsOkUnless result join_fault.OutOfMemory }
{
    let Some(second) = made.pop() else {
        unreachable!();
    };
    let Some(first) = made.pop() else {
        unreachable!();
    };
    made.push(first.join_owned(alloc, second)?)?;
    Ok(())
}

// The join of the shards at the leaves, in the plan's grouping. What is left to do and the shards made so far
// are two stacks on the heap.
fn join_leaves<S: Shard>(
    alloc: Global,
    shards: &[S],
    grid: Grid,
    plan: &Plan,
) -> Result<S, JoinFault>
    requires indexes { HasIndexes (length shards.now) plan.now }
    requires one_grid { All (λ s. S.grid_of s ≡ grid) shards.now }
    ensures grid { IfOk result (λ s. S.grid_of s ≡ grid) }
    ensures map { IfOk result (λ s. S.map_of s ≡ union_at (map S.map_of shards.now) (leaves plan.now)) }
    ensures memory { IsOkUnless result join_fault.OutOfMemory }
{
    let mut tasks = Vec::new(alloc);
    let mut made = Vec::new(alloc);
    tasks.push(Task::Run(plan))?;
    while let Some(task) = tasks.pop() {
        match task {
            Task::Run(part) => match part {
                Plan::Leaf(index) => made.push(shards[*index].copy(alloc)?)?,
                Plan::Node(left, right) => {
                    tasks.push(Task::Join)?;
                    tasks.push(Task::Run(&**right))?;
                    tasks.push(Task::Run(&**left))?;
                }
            },
            Task::Join => join_last(alloc, &mut made)?,
        }
    }
    let Some(shard) = made.pop() else {
        unreachable!();
    };
    Ok(shard)
}

fn first_off_grid<S: Shard>(shards: &[S], grid: Grid) -> Option<usize>
    ensures { result ≡ off_grid S.grid_of grid shards.now }
{
    shards
        .iter()
        .position(|shard| !same_grid(&shard.grid(), &grid))
}

// The number of the first shard that is on another grid than shard 0.
fn first_other_grid<S: Shard>(shards: &[S]) -> Option<usize>
    ensures { result ≡ first_other S.grid_of shards.now }
{
    let Some(first) = shards.first() else {
        return None;
    };
    first_off_grid(shards, first.grid())
}

/// Whether all shards are on one grid.
pub fn are_on_one_grid<S: Shard>(shards: &[S]) -> bool
    ensures { (result ≡ true) ↔ AreOnOneGrid S.grid_of shards.now }
{
    first_other_grid(shards).is_none()
}

/// Joins the shards that the plan names, in its grouping.
///
/// # Errors
/// `BadPlan` with the first leaf from the left that is no index of the list; otherwise `OtherGrid`
/// with the number of the first shard of the list, named or not, whose grid differs from shard 0's.
pub fn run_plan<S: Shard>(alloc: Global, shards: &[S], plan: &Plan) -> Result<S, PlanFault>
    ensures refused { (f : PlanFault) → plan_fault S.grid_of shards.now (leaves plan.now) ≡ Some f → result ≡ Err f }
    ensures faults { IfErr result (λ f. (f ≡ OutOfMemory) ⊎ (plan_fault S.grid_of shards.now (leaves plan.now) ≡ Some f)) }
    ensures grid { IfOk result (λ s. All (λ t. S.grid_of t ≡ S.grid_of s) shards.now) }
    ensures map { IfOk result (λ s. S.map_of s ≡ union_at (map S.map_of shards.now) (leaves plan.now)) }
{
    if let Some(leaf) = first_bad_leaf(alloc, plan, shards.len()) {
        return Err(PlanFault::BadPlan(leaf));
    }
    if let Some(number) = first_other_grid(shards) {
        return Err(PlanFault::OtherGrid(number));
    }
    let Some(first) = shards.first() else {
        return Err(PlanFault::BadPlan(0));
    };
    match join_leaves(alloc, shards, first.grid(), plan) {
        Ok(shard) => Ok(shard),
        Err(_) => Err(PlanFault::OutOfMemory),
    }
}
