//! Unordered pairs of positions.
ghost use Rattle.lines.specs.Pairs.{pair_of};
ghost use Rattle.std.specs.Prelude.{◌≡◌};

use grid::pos::Pos;

/// An unordered pair of positions. It is kept with the lesser first, so the pair of a and b is that of
/// b and a.
#[derive(Clone, Copy, PartialEq, Eq, PartialOrd, Ord, Hash, Debug)]
pub struct PositionPair {
    lesser: Pos,
    greater: Pos,
}

impl PositionPair {
    /// The pair of two positions, in either order.
    pub fn of(a: Pos, b: Pos) -> PositionPair
        ensures { result ≡ pair_of a b }
    {
        if a < b {
            PositionPair {
                lesser: a,
                greater: b,
            }
        } else {
            PositionPair {
                lesser: b,
                greater: a,
            }
        }
    }

    /// The two positions, the lesser first.
    pub fn ends(self) -> (Pos, Pos)
        ensures { result ≡ (self.lesser, self.greater) }
    {
        (self.lesser, self.greater)
    }
}
