//! What two tables of arcs are cut into.
ghost use Rattle.grid.specs.declared.pos.Pos.{Pos};
ghost use Rattle.lines.specs.Turned.{position_cmp};
ghost use Rattle.split_heal.specs.PartsOfAll.{of_table};
ghost use Rattle.split_heal.specs.SplitParts.{both_parts, number_of, of_side};
ghost use Rattle.std.specs.Option.{option_map};
ghost use Rattle.std.specs.Prelude.{◌≡◌, List, IfOk, slice_get};
ghost use Rattle.theory.specs.ArcNumbers.{StitchTo};
ghost use Rattle.theory.specs.Geometry.{Geometry, IsSound, IsLineOf, IsRingOf, JunctionOf};
ghost use Rattle.theory.specs.Refinement.{IsPartOf, IsRefinementOf, replaced, turned_used};
ghost use Rattle.theory.specs.Topology.{IsRingList};

use crate::recut_lists::RecutLists;
use crate::split_all::RecutAll;
use arcs::NewLists;
use chains::table::{ArcRef, ArcTable};
use faults::OutOfMemory;
use std::alloc::Global;
use std::marker::Model;

/// One of the two tables.
#[derive(Clone, Copy, PartialEq, Eq, Debug)]
pub enum Side {
    Left,
    Right,
}

impl Side {
    /// The number of the table.
    fn number(self) -> usize
        ensures { result ≡ number_of self }
    {
        match self {
            Side::Left => 0,
            Side::Right => 1,
        }
    }
}

/// The arcs of two maps together, and for each arc of each map those that it was cut into.
#[derive(Drop)]
pub struct Recut {
    both: RecutAll,
}

impl Model for Recut {
    ghost use Rattle.split_heal.specs.SplitParts.{RecutParts, both_parts};

    ghost Value = { RecutParts };

    ghost view = { λ a. both_parts a.both };
}

impl Recut {
    /// What two tables are cut into, the left one first.
    pub(crate) fn of_both(both: RecutAll) -> Recut
        ensures { result ≡ both_parts both }
    {
        Recut { both }
    }

    /// The arcs of both maps together.
    pub fn arcs(&self) -> &ArcTable
        ensures { result.now ≡ self.now.arcs }
    {
        self.both.arcs()
    }

    /// The arcs of both maps together, where no list is asked for any more.
    pub fn into_arcs(self) -> ArcTable
        ensures { result ≡ self.arcs }
    {
        self.both.into_arcs()
    }

    /// The arcs that an arc of a side was cut into, in order along it; a free loop that meets a
    /// junction is read from its least one. `None` exactly past the side's arcs.
    pub fn pieces(&self, side: Side, number: usize) -> Option<&[ArcRef]>
        ensures { option_map (λ r. r.now) result ≡ slice_get (of_side side self.now) number }
    {
        self.both.pieces(side.number(), number)
    }

    /// The lists of a side by the new arcs.
    pub fn lists(&self, side: Side) -> RecutLists<'_>
        ensures arcs { result.recut.now.arcs ≡ self.now.arcs }
        ensures pieces { of_table result.table result.recut.now ≡ of_side side self.now }
    {
        self.both.lists(side.number())
    }

    /// The list of a line of both maps together, from its list by the arcs of a side.
    ///
    /// # Errors
    /// Where memory is refused.
    pub fn line(
        &self,
        alloc: Global,
        side: Side,
        used: &[ArcRef],
    ) -> Result<Vec<ArcRef>, OutOfMemory>
        ensures computed { IfOk result (λ v. v.items ≡ replaced (of_side side self.now) used.now) }
        ensures stitches { IfOk result (λ v. (g u : Geometry Pos) (old : List (List Pos)) (l : List Pos) → IsSound g → IsSound u → IsPartOf g u → IsRefinementOf position_cmp g u old self.now.arcs.arcs (of_side side self.now) → IsLineOf g l → StitchTo old used.now l → StitchTo self.now.arcs.arcs v.items l) }
    {
        self.lists(side).line(alloc, used)
    }

    /// The list of a ring of both maps together, from its list by the arcs of a side.
    ///
    /// # Errors
    /// Where memory is refused.
    pub fn ring(
        &self,
        alloc: Global,
        side: Side,
        used: &[ArcRef],
    ) -> Result<Vec<ArcRef>, OutOfMemory>
        ensures computed { IfOk result (λ v. v.items ≡ turned_used position_cmp self.now.arcs.arcs (replaced (of_side side self.now) used.now)) }
        ensures stitches { IfOk result (λ v. (g u : Geometry Pos) (old : List (List Pos)) (r : List Pos) → IsSound g → IsSound u → IsPartOf g u → IsRefinementOf position_cmp g u old self.now.arcs.arcs (of_side side self.now) → IsRingOf g r → IsRingList position_cmp (JunctionOf g) old r used.now → IsRingList position_cmp (JunctionOf u) self.now.arcs.arcs r v.items) }
    {
        self.lists(side).ring(alloc, used)
    }
}
