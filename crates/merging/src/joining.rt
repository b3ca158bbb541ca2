//! Joining a list of shards, each once.
ghost use Rattle.grid.specs.Place.{Transform};
ghost use Rattle.merging.specs.Plans.{union_all};
ghost use Rattle.merging.specs.declared.fault.JoinFault.TheVariants.{OutOfMemory};
ghost use Rattle.std.specs.Prelude.{◌≡◌, ◌≤◌, ◌<◌, ◌+◌, ◌*◌, All, IfOk, IsOkUnless, length, map};

use crate::fault::JoinFault;
use crate::shard::Shard;
use crate::z_order::sort_by_z_order;
use std::alloc::Global;

// The shards joined in pairs of neighbours; the last of an odd number stays as it is.
fn join_pairs<S: Shard>(alloc: Global, shards: Vec<S>) -> Result<Vec<S>, JoinFault>
    ensures half { IfOk result (λ v. length shards.items ≤ 2 * length v.items) }
    ensures rest { IfOk result (λ v. 2 * length v.items ≤ length shards.items + 1) }
    ensures union { IfOk result (λ v. union_all (map S.map_of v.items) ≡ union_all (map S.map_of shards.items)) }
    ensures grid { (g : Transform) → All (λ s. S.grid_of s ≡ g) shards.items → IfOk result (λ v. All (λ s. S.grid_of s ≡ g) v.items) }
    ensures memory { (g : Transform) → All (λ s. S.grid_of s ≡ g) shards.items → IsOkUnless result OutOfMemory }
{
    let mut joined = Vec::new(alloc);
    let mut left = shards.into_iter();
    while let Some(first) = left.next() {
        let Some(second) = left.next() else {
            joined.push(first)?;
            return Ok(joined);
        };
        joined.push(first.join_owned(alloc, second)?)?;
    }
    Ok(joined)
}

/// The join of all shards, by halves, along a Z-order curve: a round joins neighbours, until one is left. Each
/// shard is passed to the join that takes it.
pub(crate) fn join_all<S: Shard>(alloc: Global, shards: Vec<S>) -> Result<S, JoinFault>
    requires some { 0 < length shards.items }
    ensures union { IfOk result (λ s. S.map_of s ≡ union_all (map S.map_of shards.items)) }
    ensures grid { (g : Transform) → All (λ s. S.grid_of s ≡ g) shards.items → IfOk result (λ s. S.grid_of s ≡ g) }
    ensures memory { (g : Transform) → All (λ s. S.grid_of s ≡ g) shards.items → IsOkUnless result OutOfMemory }
{
    let mut left = shards;
    sort_by_z_order(&mut left);
    'rounds: while left.len() > 1 {
        left = join_pairs(alloc, left)?;
    }
    let Some(shard) = left.pop() else {
        unreachable!();
    };
    Ok(shard)
}
