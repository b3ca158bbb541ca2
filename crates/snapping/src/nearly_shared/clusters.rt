//! Vertices that are nearly shared, each moved to the least position that it is connected with.
ghost use Rattle.grid.specs.declared.pos.Pos as positions;
ghost use Rattle.lines.specs.Turned.{position_cmp};
ghost use Rattle.snapping.specs.NearlyShared.Connected.{are_within};
ghost use Rattle.snapping.specs.NearlyShared.Joined.{AreJoined, moved_in, positions_in, target_in, wide_in};
ghost use Rattle.snapping.specs.NearlyShared.Rest.{all_within, moved_to};
ghost use Rattle.std.specs.BTreeMap.{get};
ghost use Rattle.std.specs.List.Sorted.{IsStrictlySortedBy};
ghost use Rattle.std.specs.Prelude.{◌≡◌, ◌↔◌, IfOk, IsTrue, OnOk, [], length, slice_get};

use crate::nearly_shared::component::take_component;
use crate::nearly_shared::neighbours::neighbours_of;
use compare::quality::pairs::NearPlace;
use grid::pos::Pos;
use std::alloc::{AllocError, Global};
use std::collections::BTreeMap;

/// The greatest distance of vertices that can be joined, in steps.
pub const GREATEST_DISTANCE: u32 = 10;

/// What becomes of vertices that are nearly shared. Those that pairs connect are a component. It is narrow where each
/// of its vertices is no further from its least position, by x, then by y, than those of a pair may be from each other,
/// along x and along y.
#[derive(Drop)]
pub struct Clusters {
    /// Each position that is moved, and where to.
    moves: BTreeMap<Pos, Pos>,
    /// The least position of each component that isn't narrow, in order.
    wide: Vec<Pos>,
}

impl Clusters {
    /// Where a position is moved to: the least position of its component, if that is narrow; else where it was.
    pub fn target(&self, position: Pos) -> Pos
        ensures { result ≡ target_in self.now position }
    {
        self.moves.get(&position).copied().unwrap_or(position)
    }

    /// How many positions are moved.
    pub fn len(&self) -> usize
        ensures count { result ≡ length (moved_in self.now) }
        ensures once { IsStrictlySortedBy position_cmp (moved_in self.now) }
    {
        self.moves.len()
    }

    /// Whether none is.
    pub fn is_empty(&self) -> bool
        ensures { IsTrue result ↔ (moved_in self.now ≡ []) }
    {
        self.moves.is_empty()
    }

    /// How many components aren't narrow: their vertices stay where they are.
    pub fn wide(&self) -> usize
        ensures { result ≡ length (wide_in self.now) }
    {
        self.wide.len()
    }

    /// The least position of the first of these.
    pub fn first_wide(&self) -> Option<Pos>
        ensures { result ≡ slice_get (wide_in self.now) 0 }
    {
        self.wide.first().copied()
    }
}

/// Whether two positions are at most so many steps apart, along x and along y.
fn is_within(most: u32, one: Pos, other: Pos) -> bool
    ensures { result ≡ are_within most one other }
{
    one.x().abs_diff(other.x()) <= most as u64 && one.y().abs_diff(other.y()) <= most as u64
}

/// Whether each of the positions is at most so many steps from the first one.
fn is_narrow(most: u32, first: Pos, members: &[Pos]) -> bool
    ensures { result ≡ all_within most first members.now }
{
    for member in members {
        if !is_within(most, first, *member) {
            return false;
        }
    }
    true
}

/// Moves the other members of a component to its first one.
fn move_all(moves: &mut BTreeMap<Pos, Pos>, first: Pos, members: &[Pos]) -> Result<(), AllocError>
    ensures { OnOk result ((q : positions.Pos) → get position_cmp moves.new q ≡ moved_to first members.now q (get position_cmp moves.old q)) }
{
    for member in members {
        if *member != first {
            moves.insert(*member, first)?;
        }
    }
    Ok(())
}

/// What becomes of the positions of pairs that are nearly shared.
pub(crate) fn clusters_of(
    alloc: Global,
    pairs: &[(NearPlace, NearPlace)],
    most: u32,
) -> Result<Clusters, AllocError>
    ensures { IfOk result (AreJoined most (positions_in pairs.now)) }
{
    let mut left = neighbours_of(alloc, pairs)?;
    let mut moves = BTreeMap::new(alloc);
    let mut wide = Vec::new(alloc);
    while let Some((first, others)) = left.pop_first() {
        let members = take_component(alloc, &mut left, first, others)?;
        if is_narrow(most, first, &members) {
            move_all(&mut moves, first, &members)?;
        } else {
            wide.push(first)?;
        }
    }
    Ok(Clusters { moves, wide })
}
