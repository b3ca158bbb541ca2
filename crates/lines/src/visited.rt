//! The ends of segments that may occur twice in a list of positions.
ghost use Rattle.lines.specs.Visited.{HoldEnds, IsStep};
ghost use Rattle.lines.specs.PositionFilter.{may_hold};
ghost use Rattle.std.specs.Prelude.{◌≡◌, true, IfOk};

use crate::position_filter::PositionFilter;
use grid::pos::Pos;
use std::alloc::{AllocError, Global};

/// How many positions share a word of the bits of those that were met.
const MET_EACH: usize = 4;

/// A way along a list of positions: those met so far, among some others, the last two, and whether the
/// last may have been met before it was come to.
#[derive(Drop)]
struct VisitedVertices {
    met: PositionFilter,
    before: Pos,
    here: Pos,
    again: bool,
}

impl VisitedVertices {
    /// The way that begins here, in a list of so many positions.
    fn from(alloc: Global, here: Pos, count: usize) -> Result<VisitedVertices, AllocError>
        ensures here { IfOk result (λ w. w.here ≡ here) }
        ensures met { IfOk result (λ w. may_hold w.met here ≡ true) }
    {
        let mut met = PositionFilter::clear(alloc, count / MET_EACH)?;
        met.mark(here);
        Ok(VisitedVertices {
            met,
            before: here,
            here,
            again: false,
        })
    }

    /// Goes on to the next position, and answers whether the segment to it may have been gone before. Then
    /// both its ends were met before they were come to, or it leads straight back.
    fn go_on(&mut self, next: Pos) -> bool
        ensures { IsStep next result self.old self.new }
    {
        let again = self.met.may_hold(next);
        let retraced = again && (self.again || next == self.before);
        self.met.mark(next);
        self.before = self.here;
        self.here = next;
        self.again = again;
        retraced
    }
}

/// Positions among which are both ends of each segment that occurs twice. In most lists there are none.
pub(crate) fn ends_of_repeated(alloc: Global, positions: &[Pos]) -> Result<Vec<Pos>, AllocError>
    ensures { IfOk result (λ ends. HoldEnds ends.items positions.now) }
{
    let mut ends = Vec::new(alloc);
    let Some((first, others)) = positions.split_first() else {
        return Ok(ends);
    };
    let mut way = VisitedVertices::from(alloc, *first, positions.len())?;
    for next in others {
        let here = way.here;
        if way.go_on(*next) {
            ends.push(here)?;
            ends.push(*next)?;
        }
    }
    Ok(ends)
}
