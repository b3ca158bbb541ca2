//! Steps along lists of positions.
ghost use Rattle.arcs.specs.Steps.{first_of, step_along};
ghost use Rattle.std.specs.Prelude.{◌≡◌, reverse};

use crate::table::{ArcRef, ArcTable};
use grid::pos::Pos;

/// A step from a position to the next one. Ordered by where it begins, then by where it ends.
#[derive(Clone, Copy, PartialEq, Eq, PartialOrd, Ord, Debug)]
pub struct ArcStep {
    pub from: Pos,
    pub to: Pos,
}

impl ArcStep {
    /// The first step along a list; `None` where it has fewer than two positions.
    pub fn first_along(positions: &[Pos]) -> Option<ArcStep>
        ensures { result ≡ first_of positions.now }
    {
        let (from, others) = positions.split_first()?;
        let to = others.first()?;
        Some(ArcStep {
            from: *from,
            to: *to,
        })
    }

    /// The first step against a list; `None` where it has fewer than two positions.
    pub fn first_against(positions: &[Pos]) -> Option<ArcStep>
        ensures { result ≡ first_of (reverse positions.now) }
    {
        let (from, others) = positions.split_last()?;
        let to = others.last()?;
        Some(ArcStep {
            from: *from,
            to: *to,
        })
    }
}

impl ArcTable {
    /// The first step along a used arc; `None` where no arc has its number, or it has fewer than two positions.
    pub fn first_step(&self, used: ArcRef) -> Option<ArcStep>
        ensures { result ≡ step_along self.now.arcs used }
    {
        let positions = self.arc(used.arc)?;
        if used.reversed {
            ArcStep::first_against(positions)
        } else {
            ArcStep::first_along(positions)
        }
    }
}
