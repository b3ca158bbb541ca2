//! The order of shards along a Z-order curve (Morton order), in which neighbours overlap most.
ghost use Rattle.std.specs.Prelude.{IsPermutation};

use crate::shard::Shard;
use std::cmp::Ordering;

// Cells of the plane, as wide and as high as the boxes of some shards are together on average, and
// counted from the least corner of all.
#[derive(Clone, Copy)]
struct Cells {
    corner: (i64, i64),
    size: (u64, u64),
}

impl Cells {
    fn of<S: Shard>(shards: &[S]) -> Cells {
        let mut corner = (i64::MAX, i64::MAX);
        let mut size: (u64, u64) = (0, 0);
        let mut count: u64 = 0;
        for (left, low, right, high) in shards.iter().filter_map(|shard| shard.bbox()) {
            corner = (corner.0.min(left), corner.1.min(low));
            size.0 = size.0.saturating_add(left.abs_diff(right));
            size.1 = size.1.saturating_add(low.abs_diff(high));
            count = count.saturating_add(1);
        }
        let count = count.max(1);
        Cells {
            corner,
            size: (size.0 / count, size.1 / count),
        }
    }

    // The column and the row of a box's least corner.
    fn cell(&self, bbox: (i64, i64, i64, i64)) -> (u64, u64) {
        let (left, low, _, _) = bbox;
        (
            left.abs_diff(self.corner.0) / self.size.0.max(1),
            low.abs_diff(self.corner.1) / self.size.1.max(1),
        )
    }
}

// The order of two cells on the Z-order curve, which goes through the quarters of a square one after the
// other, and in each of them through its quarters.
fn z_order(one: (u64, u64), other: (u64, u64)) -> Ordering {
    let across = one.0 ^ other.0;
    let up = one.1 ^ other.1;
    if up.leading_zeros() <= across.leading_zeros() {
        one.1.cmp(&other.1)
    } else {
        one.0.cmp(&other.0)
    }
}

// Sorts shards by the cells of their boxes on a Z-order curve, those without a box first.
pub(crate) fn sort_by_z_order<S: Shard>(shards: &mut Vec<S>)
    ensures { IsPermutation shards.old.items shards.new.items }
{
    let cells = Cells::of(shards);
    shards.sort_unstable_by(|one, other| match (one.bbox(), other.bbox()) {
        (Some(these), Some(those)) => z_order(cells.cell(these), cells.cell(those)),
        (these, those) => these.is_some().cmp(&those.is_some()),
    });
}
