//! Joining and editing topologies: arcs are cut again where new borders meet them, and joined again where
//! borders go. The two kinds of shard, merges of texts, removals and sessions.
#![tactic(auto)]

mod cut;
pub mod cut_all;
pub mod cut_shard;
mod difference;
pub mod edit;
pub mod fault;
pub mod laws;
pub mod merge;
pub mod remove;
pub mod session;
pub mod whole;

pub use cut_shard::Cut;
pub use edit::Edit;
pub use fault::{EditsFault, JoinFault, MergeFault, PlanFault};
pub use merge::{merge_borrowed_topologies, merge_texts, merge_topologies};
pub use merging::{Plan, Shard, plan, run_plan, shard};
pub use remove::{Removal, remove_topology};
pub use session::Session;
pub use split_heal::{Recut, Side, recut};
pub use whole::Whole;
