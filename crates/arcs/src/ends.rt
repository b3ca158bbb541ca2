//! Where arcs begin and end.
ghost use Rattle.arcs.specs.Ends as spec;
ghost use Rattle.std.specs.Prelude.{◌≡◌};
ghost use Rattle.theory.specs.Lists.{last_of};

use crate::table::{ArcRef, ArcTable};
use grid::pos::Pos;

/// The last of some values, or the one before them where there are none.
pub fn last_from<T: Copy>(first: T, others: &[T]) -> T
    ensures { result ≡ last_of first others.now }
{
    match others.last() {
        Some(last) => *last,
        None => first,
    }
}

/// The first and the last vertex of an arc, in the direction in which it is used.
pub fn ends_in(arc: &[Pos], reversed: bool) -> Option<(Pos, Pos)>
    ensures { result ≡ spec.ends_in reversed arc.now }
{
    let Some((first, others)) = arc.split_first() else {
        return None;
    };
    let last = last_from(*first, others);
    if reversed {
        Some((last, *first))
    } else {
        Some((*first, last))
    }
}

impl ArcTable {
    /// The first and the last vertex along a used arc; `None` where no arc has its number.
    pub fn ends_along(&self, used: ArcRef) -> Option<(Pos, Pos)>
        ensures { result ≡ spec.ends_along self.now.arcs used }
    {
        match self.arc(used.arc) {
            Some(arc) => ends_in(arc, used.reversed),
            None => None,
        }
    }
}
