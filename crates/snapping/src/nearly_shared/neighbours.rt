//! For each position of a pair that is nearly shared, those that it is nearly shared with.
ghost use Rattle.grid.specs.declared.pos.Pos as positions;
ghost use Rattle.snapping.specs.NearlyShared.Joined.{positions_in};
ghost use Rattle.snapping.specs.NearlyShared.Rest.{AreBeside, beside, recorded};
ghost use Rattle.std.specs.Prelude.{◌≡◌, IfOk, OnOk};

use compare::quality::pairs::NearPlace;
use grid::pos::Pos;
use std::alloc::{AllocError, Global};
use std::collections::BTreeMap;

/// Notes that one position is nearly shared with another.
fn add(
    alloc: Global,
    near: &mut BTreeMap<Pos, Vec<Pos>>,
    one: Pos,
    other: Pos,
) -> Result<(), AllocError>
    ensures { OnOk result ((q : positions.Pos) → beside near.new q ≡ recorded one other q (beside near.old q)) }
{
    let mut others = near.remove(&one).unwrap_or(Vec::new(alloc));
    others.push(other)?;
    near.insert(one, others)?;
    Ok(())
}

/// For each position of the pairs, the other position of each pair that has it.
pub(crate) fn neighbours_of(
    alloc: Global,
    pairs: &[(NearPlace, NearPlace)],
) -> Result<BTreeMap<Pos, Vec<Pos>>, AllocError>
    ensures { IfOk result (AreBeside (positions_in pairs.now)) }
{
    let mut near = BTreeMap::new(alloc);
    for (one, other) in pairs {
        add(alloc, &mut near, one.at, other.at)?;
        add(alloc, &mut near, other.at, one.at)?;
    }
    Ok(near)
}
