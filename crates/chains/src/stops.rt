//! Where chains stop.
ghost use Rattle.arcs.specs.Among.{among};
ghost use Rattle.grid.specs.declared.pos.Pos.{Pos};
ghost use Rattle.std.specs.Prelude.{◌≡◌, List};

use crate::stop_set::StopSet;
use crate::visits::VisitIndex;
use grid::pos::Pos;
use std::collections::BTreeSet;

/// Answers at which positions chains stop.
pub(crate) trait Stops {
    // The positions at which they stop.
    ghost at: { Self → List Pos };

    fn is_stop(&self, p: Pos) -> bool
        ensures { result ≡ among (at self.now) p };
}

impl Stops for VisitIndex {
    ghost at = { λ junctions. junctions };

    fn is_stop(&self, p: Pos) -> bool {
        self.is_junction(p)
    }
}

impl<'a> Stops for StopSet<'a> {
    ghost at = { λ stops. stops };

    fn is_stop(&self, p: Pos) -> bool {
        self.has(p)
    }
}

impl Stops for BTreeSet<Pos> {
    ghost at = { λ stops. stops.keys };

    fn is_stop(&self, p: Pos) -> bool {
        self.contains(&p)
    }
}
