//! The arcs of a table, one after the other.
ghost use Rattle.arcs.specs.Stored.{marked_positions, positions_of};
ghost use Rattle.std.specs.Iterator.{YieldsFirstBy, YieldsFirstRef, item_count};
ghost use Rattle.std.specs.Prelude.{◌≡◌, map as map_list};

use crate::stored::StoredArc;
use grid::pos::Pos;
use std::marker::Model;

/// The arcs of a table that are left, in the order of their numbers.
#[derive(Drop)]
pub struct TableArcs<'a> {
    left: &'a [StoredArc],
}

impl<'a> Model for TableArcs<'a> {
    ghost use Rattle.arcs.specs.Stored.{positions_of};
    ghost use Rattle.grid.specs.declared.pos.Pos.{Pos};
    ghost use Rattle.std.specs.Prelude.{List, map as map_list};

    ghost Value = { List (List Pos) };

    ghost view = { λ a. map_list positions_of a.left.now };
}

impl<'a> TableArcs<'a> {
    pub(crate) fn of(left: &'a [StoredArc]) -> TableArcs<'a>
        ensures { result ≡ map_list positions_of left.now }
    {
        TableArcs { left }
    }
}

impl<'a> Iterator for TableArcs<'a> {
    type Item = &'a [Pos];

    ghost next_gives = { YieldsFirstRef (λ left. left) };

    ghost remaining = { item_count (λ left. left) };

    fn next(&mut self) -> Option<&'a [Pos]> {
        let (arc, rest) = self.left.split_first()?;
        self.left = rest;
        Some(arc.positions.as_slice())
    }
}

/// The arcs of a table that are left, in the order of their numbers, each with whether it is a free loop.
#[derive(Drop)]
pub struct ArcsWithLoops<'a> {
    left: &'a [StoredArc],
}

impl<'a> Model for ArcsWithLoops<'a> {
    ghost use Rattle.arcs.specs.Stored.{marked_positions};
    ghost use Rattle.grid.specs.declared.pos.Pos.{Pos};
    ghost use Rattle.std.specs.Prelude.{Bool, List, map as map_list};

    ghost Value = { List (List Pos × Bool) };

    ghost view = { λ a. map_list marked_positions a.left.now };
}

impl<'a> ArcsWithLoops<'a> {
    pub(crate) fn of(left: &'a [StoredArc]) -> ArcsWithLoops<'a>
        ensures { result ≡ map_list marked_positions left.now }
    {
        ArcsWithLoops { left }
    }
}

impl<'a> Iterator for ArcsWithLoops<'a> {
    type Item = (&'a [Pos], bool);

    ghost next_gives = { YieldsFirstBy (λ x. (x.0.now, x.1)) (λ left. left) };

    ghost remaining = { item_count (λ left. left) };

    fn next(&mut self) -> Option<(&'a [Pos], bool)> {
        let (arc, rest) = self.left.split_first()?;
        self.left = rest;
        Some((arc.positions.as_slice(), arc.free))
    }
}
