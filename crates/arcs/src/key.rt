//! The first two positions of a list, which differ from those of most others.
ghost use Rattle.arcs.specs.Keys.{key_of};
ghost use Rattle.std.specs.Prelude.{◌≡◌};

use grid::pos::Pos;

/// The first two positions of a list, as far as it has them.
#[derive(Clone, Copy, PartialEq, Eq, PartialOrd, Ord, Debug)]
pub(crate) struct Key {
    pub(crate) first: Option<Pos>,
    pub(crate) second: Option<Pos>,
}

impl Key {
    pub(crate) fn of(positions: &[Pos]) -> Key
        ensures { result ≡ key_of positions.now }
    {
        Key {
            first: positions.get(0).copied(),
            second: positions.get(1).copied(),
        }
    }
}
