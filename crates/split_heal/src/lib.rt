//! Arcs split at new nodes, and healed at nodes that are none any more.
#![tactic(auto)]

mod arc_run;
mod by_use;
mod choosing;
mod healed_arcs;
pub mod healed_lists;
pub mod healing;
pub mod healing_laws;
mod piece_lists;
mod pseudo_nodes;
pub mod recut_lists;
pub mod split;
pub mod split_all;
pub mod split_lists;
pub mod splitting_laws;
mod start_table;
mod walking;

pub use arc_run::ArcRun;
pub use healed_lists::HealedArcs;
pub use healing::heal;
pub use recut_lists::RecutLists;
pub use split::{recut, recut_owned};
pub use split_all::{RecutAll, recut_all};
pub use split_lists::{Recut, Side};
