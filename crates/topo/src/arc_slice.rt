//! What is left of an arc, to be read in the direction in which it is used.
ghost use Rattle.lines.specs.Pairs.{position_eq};
ghost use Rattle.std.specs.Iterator.{YieldsFirstRef, YieldsLastRef};
ghost use Rattle.std.specs.Prelude.{◌≡◌, ◌≤◌, ◌↔◌, [], true, drop, length, reverse};
ghost use Rattle.topo.specs.Walked.{run_of};

use chains::table::{ArcRef, ArcTable};
use grid::pos::Pos;
use std::marker::Model;

/// Whether two positions are equal.
pub fn is_same(position: &Pos, other: &Pos) -> bool
    ensures { result ≡ position_eq position.now other.now }
{
    position == other
}

/// Whether positions, read backwards, are the others.
fn are_turned(positions: &[Pos], others: &[Pos]) -> bool
    ensures { (result ≡ true) ↔ (reverse positions.now ≡ others.now) }
{
    let mut left = positions;
    for other in others {
        let Some((last, rest)) = left.split_last() else {
            return false;
        };
        if !is_same(last, other) {
            return false;
        }
        left = rest;
    }
    left.is_empty()
}

/// The positions of an arc that are left, to be read in the direction in which the arc is used.
#[derive(Drop)]
pub struct ArcSlice<'a> {
    positions: &'a [Pos],
    reversed: bool,
}

impl<'a> Model for ArcSlice<'a> {
    ghost use Rattle.grid.specs.declared.pos.Pos.{Pos};
    ghost use Rattle.std.specs.Prelude.{List};

    ghost Value = { List Pos };

    ghost use Rattle.topo.specs.Left.{run_left};

    ghost view = { run_left };
}

impl<'a> ArcSlice<'a> {
    /// No positions.
    pub fn empty() -> ArcSlice<'a>
        ensures { result ≡ [] }
    {
        ArcSlice {
            positions: &[],
            reversed: false,
        }
    }

    /// The positions along a used arc; none where no arc has its number.
    pub fn of_arc(arcs: &'a ArcTable, used: ArcRef) -> ArcSlice<'a>
        ensures { result ≡ run_of arcs.now.arcs used }
    {
        match arcs.arc(used.arc) {
            Some(positions) => ArcSlice {
                positions,
                reversed: used.reversed,
            },
            None => ArcSlice::empty(),
        }
    }

    /// The arc without its first position, which is the last of the arc before it.
    pub fn behind_first(arcs: &'a ArcTable, used: ArcRef) -> ArcSlice<'a>
        ensures { result ≡ drop 1 (run_of arcs.now.arcs used) }
    {
        let mut run = ArcSlice::of_arc(arcs, used);
        run.take_first();
        run
    }

    /// Takes the first position off.
    pub fn take_first(&mut self) -> Option<&'a Pos>
        ensures { YieldsFirstRef (λ left. left) self.old result self.new }
    {
        if self.reversed {
            let (first, rest) = self.positions.split_last()?;
            self.positions = rest;
            return Some(first);
        }
        let (first, rest) = self.positions.split_first()?;
        self.positions = rest;
        Some(first)
    }

    /// Takes the last position off.
    pub fn take_last(&mut self) -> Option<&'a Pos>
        ensures { YieldsLastRef (λ left. left) self.old result self.new }
    {
        if self.reversed {
            let (last, rest) = self.positions.split_first()?;
            self.positions = rest;
            return Some(last);
        }
        let (last, rest) = self.positions.split_last()?;
        self.positions = rest;
        Some(last)
    }

    /// How many positions are left.
    pub fn len(&self) -> usize
        ensures { result ≡ length self.now }
    {
        self.positions.len()
    }

    /// The positions behind so many.
    pub fn behind(&self, count: usize) -> ArcSlice<'a>
        requires { count ≤ length self.now }
        ensures { result ≡ drop count self.now }
    {
        if self.reversed {
            return ArcSlice {
                positions: &self.positions[..self.positions.len() - count],
                reversed: true,
            };
        }
        ArcSlice {
            positions: &self.positions[count..],
            reversed: false,
        }
    }

    /// Whether just these positions are left.
    pub fn is_along(&self, positions: &[Pos]) -> bool
        ensures { (result ≡ true) ↔ (self.now ≡ positions.now) }
    {
        if self.reversed {
            are_turned(self.positions, positions)
        } else {
            self.positions == positions
        }
    }
}
