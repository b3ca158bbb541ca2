//! The bits of the vertices that two tables of arcs may share. Most vertices of the other table find a
//! bit of theirs not set, and so are known to be no vertices of the first.
ghost use Rattle.arcs.specs.Extents.{within};
ghost use Rattle.chains.specs.VertexFilter as spec;
ghost use Rattle.chains.specs.VertexFilter.{HoldCommon, may_hold};
ghost use Rattle.std.specs.List.{list_any};
ghost use Rattle.std.specs.Prelude.{◌≡◌, ◌++◌, IfOk, OnOk, map as map_list};
ghost use Rattle.theory.specs.Lists.{gathered};
ghost use Rattle.theory.specs.TopologyFunction.{keep};

use arcs::Extent;
use arcs::table::ArcTable;
use grid::pos::Pos;
use lines::position_filter::PositionFilter;
use std::alloc::{AllocError, Global};

/// The extent of a table's arcs, the bits of those vertices that lie in the extent of the other table,
/// and which arcs have such vertices.
#[derive(Drop)]
pub(crate) struct VertexFilter {
    extent: Extent,
    bits: PositionFilter,
    pub(crate) near: Vec<bool>,
}

/// Adds those positions of an arc that lie in an extent, and answers whether some do.
fn add_within(list: &mut Vec<Pos>, arc: &[Pos], extent: &Extent) -> Result<bool, AllocError>
    ensures list { OnOk result (list.new.items ≡ list.old.items ++ keep (within extent.now) arc.now) }
    ensures near { IfOk result (λ b. b ≡ list_any (within extent.now) arc.now) }
{
    let mut near = false;
    for position in arc {
        if extent.has(*position) {
            list.push(*position)?;
            near = true;
        }
    }
    Ok(near)
}

/// Adds the vertices of a table's arcs that lie in an extent, and answers which arcs have some.
fn add_table(
    alloc: Global,
    list: &mut Vec<Pos>,
    table: &ArcTable,
    extent: &Extent,
) -> Result<Vec<bool>, AllocError>
    ensures list { OnOk result (list.new.items ≡ list.old.items ++ gathered (keep (within extent.now)) table.now.arcs) }
    ensures near { IfOk result (λ v. v.items ≡ map_list (list_any (within extent.now)) table.now.arcs) }
{
    let mut near = Vec::with_capacity(alloc, table.len())?;
    for arc in table.iter() {
        near.push(add_within(list, arc, extent)?)?;
    }
    Ok(near)
}

impl VertexFilter {
    /// The bits of the vertices of a table's arcs that may be vertices of another table, where both
    /// tables' extents are given.
    pub(crate) fn of(
        alloc: Global,
        table: &ArcTable,
        extent: Extent,
        other: &Extent,
    ) -> Result<VertexFilter, AllocError>
        ensures common { IfOk result (λ s. HoldCommon extent other.now s table.now.arcs) }
        ensures extent { IfOk result (λ s. s.extent ≡ extent) }
        ensures near { IfOk result (λ s. s.near.items ≡ map_list (list_any (within other.now)) table.now.arcs) }
    {
        let mut list = Vec::new(alloc);
        let near = add_table(alloc, &mut list, table, other)?;
        let bits = PositionFilter::of(alloc, &list)?;
        Ok(VertexFilter { extent, bits, near })
    }

    /// Whether a position may be a vertex of both tables. Where a vertex of the other table may not,
    /// it is none of this table.
    fn may_hold(&self, p: Pos) -> bool
        ensures { result ≡ may_hold self.now p }
    {
        self.extent.has(p) && self.bits.may_hold(p)
    }

    /// Whether some of the positions may be vertices of both tables.
    pub(crate) fn may_meet(&self, positions: &[Pos]) -> bool
        ensures { result ≡ list_any (may_hold self.now) positions.now }
    {
        for position in positions {
            if self.may_hold(*position) {
                return true;
            }
        }
        false
    }
}

/// The inner vertices of an arc: of a free loop all, otherwise all but the ends.
pub(crate) fn inside(arc: &[Pos], free: bool) -> &[Pos]
    ensures { result.now ≡ spec.inside free arc.now }
{
    if free {
        return arc;
    }
    let Some((_, others)) = arc.split_first() else {
        return arc;
    };
    match others.split_last() {
        Some((_, inner)) => inner,
        None => others,
    }
}
