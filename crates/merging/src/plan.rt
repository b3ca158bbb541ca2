//! Plans: which shards of a list are joined, and in what grouping.
ghost use Rattle.merging.specs.Leaves.{leaves, first_outside};
ghost use Rattle.std.specs.Prelude.{◌≡◌};

pub mod grouping;
pub mod naming;
pub mod running;

pub use naming::named_indexes;
pub use running::{are_on_one_grid, run_plan};
use std::alloc::Global;
use std::mem;

/// Which indexes of a list of shards are joined, from left to right, and in what grouping. A plan of
/// any depth is run and dropped without a call for each level of it.
pub enum Plan {
    /// The shard at an index of the list.
    Leaf(usize),
    /// The join of what two plans give.
    Node(Box<Plan>, Box<Plan>),
}

impl Drop for Plan {
    // Turns a plan to the right until its left plan is a leaf, gives that up, and goes on with the right plan.
    // So no call goes down the plan, and no memory is asked for.
    fn drop(mut self) {
        loop {
            match self {
                Plan::Leaf(_) => return,
                Plan::Node(mut left, mut right) => {
                    if let Plan::Node(first, second) = &mut *left {
                        mem::swap(first, second);
                        mem::swap(second, &mut right);
                        self = Plan::Node(right, left);
                    } else {
                        self = Box::into_inner(left);
                        let Plan::Leaf(_) = self else {
                            unreachable!();
                        };
                        self = Box::into_inner(right);
                    }
                }
            }
        }
    }
}

/// The first leaf from the left that is no index of a list of `count`.
// It looks at the plan from the right; what waits on the left stands on the heap. Only where memory for that is refused
// is the right told by a call.
pub fn first_bad_leaf(alloc: Global, plan: &Plan, count: usize) -> Option<usize>
    ensures first { result ≡ first_outside count (leaves plan.now) }
{
    let mut waiting = Vec::new(alloc);
    let mut rest = plan;
    let mut found = None;
    loop {
        match rest {
            Plan::Leaf(index) => {
                if *index >= count {
                    found = Some(*index);
                }
                let Some(before) = waiting.pop() else {
                    return found;
                };
                rest = before;
            }
            Plan::Node(left, right) => match &**left {
                Plan::Leaf(index) if *index < count => rest = right,
                Plan::Leaf(_) => rest = left,
                Plan::Node(..) => match waiting.push(&**left) {
                    Ok(()) => rest = right,
                    Err(_) => {
                        found = first_bad_leaf(alloc, right, count).or(found);
                        rest = left;
                    }
                },
            },
        }
    }
}
