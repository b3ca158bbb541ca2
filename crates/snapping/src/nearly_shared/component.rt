//! The positions that are connected with one.
ghost use Rattle.snapping.specs.NearlyShared.Rest.{Takes};
ghost use Rattle.std.specs.BTreeMap.{btree_map_len};
ghost use Rattle.std.specs.Prelude.{◌≤◌, IfOk};

use grid::pos::Pos;
use std::alloc::{AllocError, Global};
use std::collections::BTreeMap;

/// Takes a component out of those that are left: its first position, whose neighbours are given, and all that are
/// connected with it.
pub(crate) fn take_component(
    alloc: Global,
    left: &mut BTreeMap<Pos, Vec<Pos>>,
    first: Pos,
    others: Vec<Pos>,
) -> Result<Vec<Pos>, AllocError>
    ensures taken { IfOk result (λ v. Takes first others left.old left.new v.items) }
    ensures fewer { btree_map_len left.new ≤ btree_map_len left.old }
{
    let mut waiting = others;
    let mut members = Vec::new(alloc);
    members.push(first)?;
    while let Some(position) = waiting.pop() {
        if let Some(behind) = left.remove(&position) {
            members.push(position)?;
            waiting.extend_from_slice(&behind)?;
        }
    }
    Ok(members)
}
