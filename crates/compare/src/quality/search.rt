//! What is left of the vertices behind one, without those that are passed over.
ghost use Rattle.compare.specs.Quality.Near.{Ascend, NoneNear, near_to};
ghost use Rattle.std.specs.Prelude.{◌≡◌, ◌≤◌, ◌∷◌, length, take};

use crate::quality::vertex::{Vertex, is_beyond, is_near};

/// How many vertices behind `next` are searched for those that can be passed over: twice as many as can, at most.
fn count_searched(steps: u32, one: Vertex, next: Vertex, behind: &[Vertex]) -> usize
    ensures { result ≤ length behind.now }
{
    let mut bound = 1;
    while bound < behind.len() && is_beyond(steps, one, next, behind[bound]) {
        bound *= 2;
    }
    bound.min(behind.len())
}

/// How many vertices behind `next` can be passed over, because they lie in its column and beyond reach of
/// `one` as it does. Found by halving.
fn count_beyond(steps: u32, one: Vertex, next: Vertex, behind: &[Vertex]) -> usize
    ensures within { result ≤ length behind.now }
    ensures beyond { Ascend (next.entry ∷ behind.now) → NoneNear steps one.entry (take result behind.now) }
{
    let mut low = 0;
    let mut high = count_searched(steps, one, next, behind);
    while low < high {
        let middle = low + (high - low) / 2;
        if is_beyond(steps, one, next, behind[middle]) {
            low = middle + 1;
        } else {
            high = middle;
        }
    }
    low
}

/// The vertices behind `next` without those that lie in its column and beyond reach of `one` as it does.
fn skip_beyond<'s, 'a>(
    steps: u32,
    one: Vertex<'a>,
    next: Vertex<'a>,
    behind: &'s [Vertex<'a>],
) -> &'s [Vertex<'a>]
    ensures near { Ascend (next.entry ∷ behind.now) → near_to steps one.entry result.now ≡ near_to steps one.entry behind.now }
    ensures ascend { Ascend (one.entry ∷ behind.now) → Ascend (one.entry ∷ result.now) }
    ensures shorter { length result.now ≤ length behind.now }
{
    let (_beyond, rest) = behind.split_at(count_beyond(steps, one, next, behind));
    rest
}

/// The vertices behind `next` that are left to be looked at: all, or without those that can be passed over where `next` is
/// not near.
pub(crate) fn rest_behind<'s, 'a>(
    steps: u32,
    one: Vertex<'a>,
    next: Vertex<'a>,
    behind: &'s [Vertex<'a>],
) -> &'s [Vertex<'a>]
    ensures near { Ascend (next.entry ∷ behind.now) → near_to steps one.entry result.now ≡ near_to steps one.entry behind.now }
    ensures ascend { Ascend (one.entry ∷ behind.now) → Ascend (one.entry ∷ result.now) }
    ensures shorter { length result.now ≤ length behind.now }
{
    if is_near(steps, one, next) {
        return behind;
    }
    skip_beyond(steps, one, next, behind)
}
