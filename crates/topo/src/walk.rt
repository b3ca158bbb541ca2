//! Walking along the arcs of a line or ring, from either end, without a copy.
ghost use Rattle.std.specs.Iterator.{YieldsFirstRef, YieldsLastRef, item_count};
ghost use Rattle.std.specs.Prelude.{◌≡◌};
ghost use Rattle.topo.specs.Walked.{walked};

use crate::arc_slice::ArcSlice;
use chains::table::{ArcRef, ArcTable};
use grid::pos::Pos;
use std::marker::Model;

/// The positions that a list of arcs stitches to, borrowed from the arcs (TopoJSON section 2.1.4): those
/// of the first arc, and of each later arc all but its first, which is the last of the arc before.
#[derive(Drop)]
pub struct Walk<'a> {
    arcs: &'a ArcTable,
    front: ArcSlice<'a>,
    middle: &'a [ArcRef],
    back: ArcSlice<'a>,
}

impl<'a> Model for Walk<'a> {
    ghost use Rattle.grid.specs.declared.pos.Pos.{Pos};
    ghost use Rattle.std.specs.Prelude.{List};

    ghost Value = { List Pos };

    ghost use Rattle.topo.specs.Left.{walk_left};

    ghost view = { walk_left };
}

impl<'a> Walk<'a> {
    pub(crate) fn over(arcs: &'a ArcTable, refs: &'a [ArcRef]) -> Walk<'a>
        ensures { result ≡ walked arcs.now.arcs refs.now }
    {
        match refs.split_first() {
            Some((used, rest)) => Walk {
                arcs,
                front: ArcSlice::of_arc(arcs, *used),
                middle: rest,
                back: ArcSlice::empty(),
            },
            None => Walk {
                arcs,
                front: ArcSlice::empty(),
                middle: refs,
                back: ArcSlice::empty(),
            },
        }
    }
}

impl<'a> Iterator for Walk<'a> {
    type Item = &'a Pos;

    ghost next_gives = { YieldsFirstRef (λ left. left) };

    ghost remaining = { item_count (λ left. left) };

    fn next(&mut self) -> Option<&'a Pos> {
        loop {
            if let Some(first) = self.front.take_first() {
                return Some(first);
            }
            let Some((used, rest)) = self.middle.split_first() else {
                return self.back.take_first();
            };
            self.front = ArcSlice::behind_first(self.arcs, *used);
            self.middle = rest;
        }
    }
}

impl<'a> DoubleEndedIterator for Walk<'a> {
    ghost next_back_gives = { YieldsLastRef (λ left. left) };

    fn next_back(&mut self) -> Option<&'a Pos> {
        loop {
            if let Some(last) = self.back.take_last() {
                return Some(last);
            }
            let Some((used, rest)) = self.middle.split_last() else {
                return self.front.take_last();
            };
            self.back = ArcSlice::behind_first(self.arcs, *used);
            self.middle = rest;
        }
    }
}
