//! Rings.
ghost use Rattle.lines.specs.Turned.{IsLeastRotation, IsLeastRotation-prop, position_cmp};
ghost use Rattle.lines.specs.Windows.{IsLeastStart};
ghost use Rattle.std.specs.Prelude.{◌≡◌, ◌≢◌, ◌≤◌, IfOk, IfErr, List, Some, None, length};
ghost use Rattle.theory.specs.LinesAndRings.{IsRing};
ghost use Rattle.theory.specs.OneProof.{IsRing-prop};

use crate::items::Items;
use crate::shape_fault::ShapeFault;
use crate::trail::{collapse, is_closed, repeats_segment};
use faults::OutOfMemory;
use grid::pos::Pos;
use itertools::Itertools;
use std::alloc::Global;

/// A ring: a cyclic list of three positions or more, with a direction, round which neighbours differ
/// and no segment occurs twice (RFC 7946, section 3.1.6). It is kept from its least rotation, so two
/// rings that differ only in the place from which they are read are equal.
#[derive(PartialEq, Eq, PartialOrd, Ord, Hash, Drop, Debug)]
pub struct Ring {
    positions: Items<Pos>,
    pub ghost ring: { IsRing positions } by { IsRing-prop positions },
    pub ghost least: { IsLeastRotation positions } by { IsLeastRotation-prop positions },
}

/// Where the least rotation of a closed list begins: at the least pair of a vertex and the next.
fn least_start(closed: &[Pos]) -> usize
    requires { 2 ≤ length closed.now }
    ensures { IsLeastStart position_cmp closed.now result }
{
    closed.windows(2).position_min().unwrap_or(0)
}

impl Ring {
    ghost use Rattle.grid.specs.declared.pos.Pos.{Pos};
    ghost use Rattle.lines.specs.Reading.{collapsed, ring_fault, ring_of, IsRingRead};
    ghost use Rattle.lines.specs.Seen.{vertices_of};

    /// The ring of a closed list of positions, in which equal neighbours are read as one and the
    /// last repeats the first. The direction is kept.
    ///
    /// # Errors
    /// `TooShort` where no position is left; otherwise `NotClosed` where the first and the last
    /// differ; otherwise `TooShort` where fewer than four are left; otherwise `Revisit` where a
    /// segment occurs twice.
    pub fn from_closed(alloc: Global, mut closed: Vec<Pos>) -> Result<Ring, ShapeFault>
        ensures ok { IfOk result (λ _. ring_fault position_cmp closed.items ≡ None) }
        ensures ring { IfOk result (λ ring. vertices_of ring ≡ ring_of position_cmp closed.items) }
        ensures fault { IfErr result (λ f. f ≢ ShapeFault.OutOfMemory → ring_fault position_cmp closed.items ≡ Some f) }
    {
        collapse(&mut closed);
        if closed.is_empty() {
            return Err(ShapeFault::TooShort);
        }
        if !is_closed(&closed) {
            return Err(ShapeFault::NotClosed);
        }
        if closed.len() < 4 {
            return Err(ShapeFault::TooShort);
        }
        if repeats_segment(alloc, &closed)? {
            return Err(ShapeFault::Revisit);
        }
        Ok(Ring::turn_to_least(closed))
    }

    /// The ring of a closed list that the caller knows to be a ring's: nothing is tested.
    pub fn from_sound(mut closed: Vec<Pos>) -> Ring
        requires { ring_fault position_cmp closed.items ≡ None }
        ensures { vertices_of result ≡ ring_of position_cmp closed.items }
    {
        collapse(&mut closed);
        Ring::turn_to_least(closed)
    }

    /// The ring of a list without a fault, in which no neighbours are equal.
    fn turn_to_least(mut closed: Vec<Pos>) -> Ring
        requires { IsRingRead position_cmp closed.items }
        ensures { (l : List Pos) → closed.items ≡ collapsed position_cmp l → ring_fault position_cmp l ≡ None → vertices_of result ≡ ring_of position_cmp l }
    {
        let start = least_start(&closed);
        closed.truncate(closed.len() - 1);
        closed.rotate_left(start);
        Ring {
            positions: Items::from_vec(closed),
        }
    }

    /// The vertices from the least rotation, in the ring's direction, without the closing repeat.
    pub fn vertices(&self) -> &[Pos]
        ensures vertices { result.now ≡ vertices_of self.now }
        ensures ring { IsRing result.now }
    {
        self.positions.as_slice()
    }

    /// An equal ring.
    pub fn copy(&self, alloc: Global) -> Result<Ring, OutOfMemory>
        ensures { IfOk result (λ ring. ring ≡ self.now) }
    {
        Ok(Ring {
            positions: Items::from_slice(alloc, self.vertices())?,
        })
    }
}
