//! Arcs that are in order already, with marks beside them.
ghost use Rattle.arcs.specs.Stored.{rises, with_marks};
ghost use Rattle.std.specs.Prelude.{◌≡◌, ◌++◌, ◌∷◌, [], IfOk, OnOk};

use crate::marking::first_mark;
use crate::shared_positions::SharedPositions;
use crate::stored::{ArcList, StoredArc};
use grid::pos::Pos;
use lines::items::Items;
use std::alloc::{AllocError, Global};

/// Whether each arc comes before the next.
pub fn is_rising(arcs: &[Items<Pos>]) -> bool
    ensures { result ≡ rises arcs.now }
{
    let Some((first, others)) = arcs.split_first() else {
        return true;
    };
    let mut last = first;
    for arc in others {
        if !last.cmp(arc).is_lt() {
            return false;
        }
        last = arc;
    }
    true
}

/// Puts an arc last, with its mark.
fn push_marked(
    alloc: Global,
    made: &mut ArcList,
    positions: Items<Pos>,
    free: bool,
) -> Result<(), AllocError>
    ensures { OnOk result (made.new ≡ made.old ++ record { positions = positions; free = free } ∷ []) }
{
    let positions = SharedPositions::new(alloc, positions)?;
    made.push(StoredArc { positions, free })
}

/// The arcs, each with its mark.
pub(crate) fn marked_arcs(
    alloc: Global,
    arcs: Vec<Items<Pos>>,
    marks: &[bool],
) -> Result<ArcList, AllocError>
    ensures { IfOk result (λ l. l ≡ with_marks arcs.items marks.now) }
{
    let mut made = ArcList::with_capacity(alloc, arcs.len())?;
    let mut left = marks;
    for positions in arcs {
        let (free, others) = first_mark(left);
        push_marked(alloc, &mut made, positions, free)?;
        left = others;
    }
    Ok(made)
}
