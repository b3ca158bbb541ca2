//! Ways to join a list of shards.
ghost use Rattle.grid.specs.Place.{Transform};
ghost use Rattle.merging.specs.Plans.{AreOnOneGrid, union_all};
ghost use Rattle.merging.specs.declared.fault.JoinFault.TheVariants.{OtherGrid};
ghost use Rattle.std.specs.Prelude.{◌≡◌, ◌<◌, ◌↔◌, All, IfOk, IsErrOf, length, map};

use crate::fault::JoinFault;
use crate::joining::join_all;
use crate::plan::are_on_one_grid;
use crate::shard::Shard;
use std::alloc::Global;

/// A way to join a list of shards of one kind. An implementation repeats the clauses.
pub trait JoinMany<S: Shard> {
    /// The join of all shards, each once.
    ///
    /// # Errors
    /// `OtherGrid` exactly where grids differ; `OutOfMemory`.
    fn join_many(alloc: Global, shards: Vec<S>) -> Result<S, JoinFault>
        requires some { 0 < length shards.items }
        ensures union { IfOk result (λ s. S.map_of s ≡ union_all (map S.map_of shards.items)) }
        ensures grid { (g : Transform) → All (λ s. S.grid_of s ≡ g) shards.items → IfOk result (λ s. S.grid_of s ≡ g) }
        ensures other_grid { IsErrOf result OtherGrid ↔ ¬ AreOnOneGrid S.grid_of shards.items };
}

/// Two at a time, by halves, along a Z-order curve.
pub struct ByHalves;

impl<S: Shard> JoinMany<S> for ByHalves {
    fn join_many(alloc: Global, shards: Vec<S>) -> Result<S, JoinFault>
        requires some { 0 < length shards.items }
        ensures union { IfOk result (λ s. S.map_of s ≡ union_all (map S.map_of shards.items)) }
        ensures grid { (g : Transform) → All (λ s. S.grid_of s ≡ g) shards.items → IfOk result (λ s. S.grid_of s ≡ g) }
        ensures other_grid { IsErrOf result OtherGrid ↔ ¬ AreOnOneGrid S.grid_of shards.items }
    {
        if !are_on_one_grid(&shards) {
            return Err(JoinFault::OtherGrid);
        }
        join_all(alloc, shards)
    }
}
