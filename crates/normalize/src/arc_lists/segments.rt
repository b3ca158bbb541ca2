//! The segments of all arcs, each with the number of its arc.
ghost use Rattle.normalize.specs.ArcLists.Segments.{HaveSegments, segment_in, segments_along};
ghost use Rattle.std.specs.Prelude.{◌≡◌, ◌++◌, IfOk, OnOk, map as map_list};

use grid::pos::Pos;
use lines::items::Items;
use lines::pair::PositionPair;
use std::alloc::{AllocError, Global};

/// A segment of the arc of a number.
#[derive(Clone, Copy, PartialEq, Eq, PartialOrd, Ord)]
pub struct NumberedSegment {
    pub pair: PositionPair,
    pub arc: usize,
}

/// Adds the segments of an arc, where equal neighbours are read as one.
fn add_segments(
    segments: &mut Vec<NumberedSegment>,
    number: usize,
    arc: &[Pos],
) -> Result<(), AllocError>
    ensures { OnOk result (segments.new.items ≡ segments.old.items ++ map_list (segment_in number) (segments_along arc.now)) }
{
    let Some((first, others)) = arc.split_first() else {
        return Ok(());
    };
    let mut here = *first;
    for next in others {
        if *next != here {
            segments.push(NumberedSegment {
                pair: PositionPair::of(here, *next),
                arc: number,
            })?;
            here = *next;
        }
    }
    Ok(())
}

/// The segments of all arcs, in order.
pub(crate) fn sorted_segments(
    alloc: Global,
    arcs: &[Items<Pos>],
) -> Result<Vec<NumberedSegment>, AllocError>
    ensures { IfOk result (λ v. HaveSegments arcs.now v.items) }
{
    let mut segments = Vec::new(alloc);
    for (number, arc) in arcs.iter().enumerate() {
        add_segments(&mut segments, number, arc.as_slice())?;
    }
    segments.sort_unstable();
    Ok(segments)
}
