//! A box in which the positions of a table's arcs lie.
ghost use Rattle.arcs.specs.Arcs.{Arcs};
ghost use Rattle.arcs.specs.Extents.{between, within};
ghost use Rattle.arcs.specs.Holding.{HoldAll};
ghost use Rattle.lines.specs.Holding.{AreMarked};
ghost use Rattle.std.specs.Int.{int_min, int_max};
ghost use Rattle.std.specs.Prelude.{◌≡◌};
ghost use Rattle.theory.specs.Lists.{Has};

use crate::table::ArcTable;
use grid::limits::{GREATEST_GRID_NUMBER, LEAST_GRID_NUMBER};
use grid::pos::Pos;

/// The least and the greatest numbers of some positions, or of more.
#[derive(Clone, Copy)]
pub struct Extent {
    west: i64,
    south: i64,
    east: i64,
    north: i64,
}

/// That of no positions.
const NOWHERE: Extent = Extent {
    west: GREATEST_GRID_NUMBER,
    south: GREATEST_GRID_NUMBER,
    east: LEAST_GRID_NUMBER,
    north: LEAST_GRID_NUMBER,
};

/// Whether a number is one of those from the least to the greatest.
fn is_between(least: i64, number: i64, greatest: i64) -> bool
    ensures { result ≡ between least number greatest }
{
    least <= number && number <= greatest
}

fn lesser(a: i64, b: i64) -> i64
    ensures { result ≡ int_min a b }
{
    a.min(b)
}

fn greater(a: i64, b: i64) -> i64
    ensures { result ≡ int_max a b }
{
    a.max(b)
}

impl Extent {
    /// Whether a position lies within.
    pub fn has(&self, p: Pos) -> bool
        ensures { result ≡ within self.now p }
    {
        is_between(self.west, p.x(), self.east) && is_between(self.south, p.y(), self.north)
    }

    fn widen(&mut self, p: Pos)
        ensures west { self.new.west ≡ int_min self.old.west p.x }
        ensures south { self.new.south ≡ int_min self.old.south p.y }
        ensures east { self.new.east ≡ int_max self.old.east p.x }
        ensures north { self.new.north ≡ int_max self.old.north p.y }
    {
        self.west = lesser(self.west, p.x());
        self.south = lesser(self.south, p.y());
        self.east = greater(self.east, p.x());
        self.north = greater(self.north, p.y());
    }

    fn widen_all(&mut self, positions: &[Pos])
        ensures { AreMarked positions.now (within self.old) (within self.new) }
    {
        for position in positions {
            self.widen(*position);
        }
    }

    /// That of a table's arcs, of which none is known.
    fn find(table: &ArcTable) -> Extent
        ensures { HoldAll (within result) table.now.arcs }
    {
        let mut extent = NOWHERE;
        for arc in table.iter() {
            extent.widen_all(arc);
        }
        extent
    }

    /// That of a table's arcs.
    pub fn around(table: &ArcTable) -> Extent
        ensures { HoldAll (within result) table.now.arcs }
    {
        match table.extent() {
            Some(extent) => extent,
            None => Extent::find(table),
        }
    }

    /// A box in which the positions of all tables lie.
    pub fn around_all(tables: &[ArcTable]) -> Extent
        ensures { (t : Arcs) → Has t tables.now → HoldAll (within result) t.arcs }
    {
        let mut extent = NOWHERE;
        for table in tables {
            extent.widen_by(&Extent::around(table));
        }
        extent
    }

    /// Widens it by another one.
    pub fn widen_by(&mut self, other: &Extent)
        ensures west { self.new.west ≡ int_min self.old.west other.now.west }
        ensures south { self.new.south ≡ int_min self.old.south other.now.south }
        ensures east { self.new.east ≡ int_max self.old.east other.now.east }
        ensures north { self.new.north ≡ int_max self.old.north other.now.north }
    {
        self.west = lesser(self.west, other.west);
        self.south = lesser(self.south, other.south);
        self.east = greater(self.east, other.east);
        self.north = greater(self.north, other.north);
    }
}
