//! The stops of chains, with most look-ups ended by bits that the stops set.
ghost use Rattle.arcs.specs.Among.{among};
ghost use Rattle.std.specs.Prelude.{◌≡◌, IfOk};

use crate::listing::list_of_set;
use grid::pos::Pos;
use lines::position_filter::PositionFilter;
use std::alloc::{AllocError, Global};
use std::collections::BTreeSet;
use std::marker::Model;

/// A set of stops. Most vertices are none, and find their bits not set: they need no look-up.
#[derive(Drop)]
pub(crate) struct StopSet<'a> {
    stops: &'a BTreeSet<Pos>,
    bits: PositionFilter,
}

impl<'a> Model for StopSet<'a> {
    ghost use Rattle.grid.specs.declared.pos.Pos.{Pos};
    ghost use Rattle.lines.specs.PositionFilter.{may_hold};
    ghost use Rattle.lines.specs.Holding.{Holds};
    ghost use Rattle.std.specs.Prelude.{List};

    ghost Value = { List Pos };

    ghost view = { λ a. a.stops.now.keys };

    ghost invariant = { λ a. Holds (may_hold a.bits) a.stops.now.keys };
}

impl<'a> StopSet<'a> {
    pub(crate) fn of(alloc: Global, stops: &'a BTreeSet<Pos>) -> Result<StopSet<'a>, AllocError>
        ensures { IfOk result (λ s. s ≡ stops.now.keys) }
    {
        let list = list_of_set(alloc, stops)?;
        let bits = PositionFilter::of(alloc, &list)?;
        Ok(StopSet { stops, bits })
    }

    /// Whether a position is one of the stops.
    pub(crate) fn has(&self, p: Pos) -> bool
        ensures { result ≡ among self.now p }
    {
        self.bits.may_hold(p) && self.stops.contains(&p)
    }
}
