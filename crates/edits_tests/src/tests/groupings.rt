//! How plans group their leaves.
use crate::tests::inputs::{Grouping, plan_of};
use refine::Plan;
use std::test::Fail;

fn is_leaf(plan: &Plan, place: usize) -> bool {
    match plan {
        Plan::Leaf(leaf) => *leaf == place,
        Plan::Node(_, _) => false,
    }
}

/// Whether a plan joins two places.
fn is_join(plan: &Plan, left: usize, right: usize) -> bool {
    match plan {
        Plan::Leaf(_) => false,
        Plan::Node(first, second) => is_leaf(&**first, left) && is_leaf(&**second, right),
    }
}

/// Whether a plan is `(2,(3,4))`.
fn is_upper_half(plan: &Plan) -> bool {
    match plan {
        Plan::Leaf(_) => false,
        Plan::Node(first, second) => is_leaf(&**first, 2) && is_join(&**second, 3, 4),
    }
}

/// Whether a plan is `((0,1),(2,(3,4)))`.
fn is_five_in_halves(plan: &Plan) -> bool {
    match plan {
        Plan::Leaf(_) => false,
        Plan::Node(first, second) => is_join(&**first, 0, 1) && is_upper_half(&**second),
    }
}

#[test]
fn halves_of_five_leaves(rt: HostRuntime) -> Result<(), Fail> {
    let plan = plan_of(rt.alloc(), Grouping::Halves, 5)?;
    assert!(rt; is_five_in_halves(&plan));
    Ok(())
}
