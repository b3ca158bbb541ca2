//! Merging shards: a shard is a grid and a map of features, a plan says which shards are joined and in what
//! grouping. What is here holds for every kind of shard.
#![tactic(auto)]

pub mod fault;
pub mod join_many;
mod joining;
pub mod laws;
pub mod merge;
pub mod plan;
pub mod shard;
mod z_order;

pub use fault::{JoinFault, MergeFault, PlanFault};
pub use join_many::{ByHalves, JoinMany};
pub use merge::{merge_all, merge_all_by, merge_as, merge_as_by};
pub use plan::{Plan, are_on_one_grid, first_bad_leaf, named_indexes, run_plan};
pub use shard::Shard;
