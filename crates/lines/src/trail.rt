//! What makes a list of positions a trail: neighbours differ, and no segment occurs twice.
ghost use Rattle.lines.specs.Visited.{joins};
ghost use Rattle.lines.specs.PositionFilter.{may_hold};
ghost use Rattle.lines.specs.Reading.{collapsed, is_closed as closes, repeats};
ghost use Rattle.lines.specs.Segments.{segments_of};
ghost use Rattle.lines.specs.Turned.{position_cmp};
ghost use Rattle.std.specs.Prelude.{◌≡◌, IfOk};
ghost use Rattle.theory.specs.TopologyFunction.{keep};

use crate::neighbours::has_equal_neighbours;
use crate::pair::PositionPair;
use crate::position_filter::PositionFilter;
use crate::visited::ends_of_repeated;
use grid::pos::Pos;
use std::alloc::{AllocError, Global};

/// Whether both ends of a segment may be among some positions.
fn may_join(ends: &PositionFilter, segment: PositionPair) -> bool
    ensures { result ≡ joins (may_hold ends.now) segment }
{
    let (lesser, greater) = segment.ends();
    ends.may_hold(lesser) && ends.may_hold(greater)
}

/// The segments both of whose ends may be among some positions, in the list's order.
fn segments_between(
    alloc: Global,
    ends: &PositionFilter,
    positions: &[Pos],
) -> Result<Vec<PositionPair>, AllocError>
    ensures { IfOk result (λ made. made.items ≡ keep (joins (may_hold ends.now)) (segments_of positions.now)) }
{
    let mut made = Vec::new(alloc);
    let Some((first, others)) = positions.split_first() else {
        return Ok(made);
    };
    let mut here = *first;
    for next in others {
        let segment = PositionPair::of(here, *next);
        if may_join(ends, segment) {
            made.push(segment)?;
        }
        here = *next;
    }
    Ok(made)
}

/// Whether some unordered pair of neighbours is at two places, in time n log n. Only segments are sorted
/// whose ends may both be met again; in most lists there are none.
pub(crate) fn repeats_segment(alloc: Global, positions: &[Pos]) -> Result<bool, AllocError>
    ensures { IfOk result (λ found. found ≡ repeats position_cmp positions.now) }
{
    let ends = ends_of_repeated(alloc, positions)?;
    if ends.is_empty() {
        return Ok(false);
    }
    let bits = PositionFilter::of(alloc, &ends)?;
    let mut segments = segments_between(alloc, &bits, positions)?;
    segments.sort_unstable();
    Ok(has_equal_neighbours(&segments))
}

/// Reads equal neighbours as one, in place.
pub(crate) fn collapse(positions: &mut Vec<Pos>)
    ensures { positions.new.items ≡ collapsed position_cmp positions.old.items }
{
    positions.dedup();
}

/// Whether the first and the last position are equal.
pub(crate) fn is_closed(positions: &[Pos]) -> bool
    ensures { result ≡ closes position_cmp positions.now }
{
    positions.first() == positions.last()
}
