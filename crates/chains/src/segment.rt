//! Segments: the unordered pairs of neighbouring vertices.
ghost use Rattle.lines.specs.Turned.{position_cmp};
ghost use Rattle.std.specs.Ordering.{is_lt};
ghost use Rattle.std.specs.Prelude.{◌≡◌, ◌↔◌, true, IsNone, IfSome};

use grid::pos::Pos;
use lines::pair::PositionPair;

/// A segment: an unordered pair of two different positions.
#[derive(Clone, Copy, PartialEq, Eq, PartialOrd, Ord, Hash, Debug)]
pub struct Segment {
    ends: PositionPair,
    pub ghost ordered: { is_lt (position_cmp ends.lesser ends.greater) ≡ true },
}

impl Segment {
    ghost use Rattle.chains.specs.Segments.{ends_of, IsBetween};

    /// The segment between two positions; `None` exactly where they are equal.
    pub fn new(a: Pos, b: Pos) -> Option<Segment>
        ensures none { IsNone result ↔ (a ≡ b) }
        ensures between { IfSome result (λ s. IsBetween a b s) }
    {
        if a == b {
            return None;
        }
        Some(Segment {
            ends: PositionPair::of(a, b),
        })
    }

    /// The two ends, the lesser first.
    pub fn ends(self) -> (Pos, Pos)
        ensures { result ≡ ends_of self }
    {
        self.ends.ends()
    }
}
