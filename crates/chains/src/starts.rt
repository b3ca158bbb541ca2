//! Where the cut of a ring begins: at its least stop, or at its least vertex where it has none.
ghost use Rattle.arcs.specs.Among.{among};
ghost use Rattle.chains.specs.Starts.{start_of, start_cmp, start_index};
ghost use Rattle.std.specs.Ordering.{is_lt};
ghost use Rattle.std.specs.Prelude.{◌≡◌};

use crate::stops::Stops;
use grid::pos::Pos;

/// A vertex, whether the cut passes it, and the vertex after it.
#[derive(Clone, Copy, PartialEq, Eq, PartialOrd, Ord, Debug)]
struct RingStart {
    passed: bool,
    from: Pos,
    to: Pos,
}

fn start_between<S: Stops>(stops: &S, from: Pos, to: Pos) -> RingStart
    ensures { result ≡ start_of (among (S.at stops.now)) from to }
{
    RingStart {
        passed: !stops.is_stop(from),
        from,
        to,
    }
}

fn comes_before(a: &RingStart, b: &RingStart) -> bool
    ensures { result ≡ is_lt (start_cmp a.now b.now) }
{
    a < b
}

/// Whether a start comes before another. Behind a stop only lesser vertices are looked up.
#[tactic(auto, using(crate::proofs::Openings::not_lesser))]
fn improves<S: Stops>(stops: &S, best: &RingStart, from: Pos, to: Pos) -> bool
    ensures { result ≡ is_lt (start_cmp (start_of (among (S.at stops.now)) from to) best.now) }
{
    if !best.passed && from > best.from {
        return false;
    }
    comes_before(&start_between(stops, from, to), best)
}

/// The place from which a ring is cut. Of two rotations that begin at one vertex the one with the
/// lesser second vertex comes first, since no segment of a ring occurs twice.
pub(crate) fn index_of_start<S: Stops>(stops: &S, ring: &[Pos]) -> usize
    ensures { result ≡ start_index (among (S.at stops.now)) ring.now }
{
    let Some((first, others)) = ring.split_first() else {
        return 0;
    };
    let Some((second, rest)) = others.split_first() else {
        return 0;
    };
    let mut place = 0;
    let mut best = start_between(stops, *first, *second);
    let mut here = *second;
    for (i, next) in rest.iter().enumerate() {
        if improves(stops, &best, here, *next) {
            place = i + 1;
            best = start_between(stops, here, *next);
        }
        here = *next;
    }
    if improves(stops, &best, here, *first) {
        place = others.len();
    }
    place
}
