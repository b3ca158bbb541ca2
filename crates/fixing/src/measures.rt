//! On which side of rings positions lie, and how rings turn.
ghost use Rattle.fixing.specs.Measures.{twice_area, cross as cross_of, doubled, inside_from, is_inside, lies_in as lies_within, middle as middle_of, ray_crosses, rewound, spread as spread_of, turns_left as is_left};
ghost use Rattle.lines.specs.Reading.{ring_fault, ring_of};
ghost use Rattle.lines.specs.Seen.{vertices_of};
ghost use Rattle.lines.specs.Turned.{list_cmp, position_cmp};
ghost use Rattle.std.specs.Int.{int_wrap};
ghost use Rattle.std.specs.Ordering.{is_lt};
ghost use Rattle.std.specs.Prelude.{◌≡◌, ◌*ℤ◌, IfOk, None, int_lt, not, reverse, if◌then◌else◌};
ghost use mir.Syntax.{w128};

use crate::rules::Rewind;
use grid::pos::Pos;
use lines::ring::Ring;
use std::alloc::{AllocError, Global};

/// Of how many positions of a ring the sides are looked at.
const POSITIONS: usize = 9;

/// Whether a number is less than another.
fn is_less(a: i128, b: i128) -> bool
    ensures { result ≡ int_lt a b }
{
    a < b
}

/// The product of two grid numbers.
fn product(a: i64, b: i64) -> i128
    ensures { result ≡ int_wrap w128 (a *ℤ b) }
{
    i128::from(a).wrapping_mul(i128::from(b))
}

/// Twice the area of the triangle of 0 and two positions, greater than 0 where they turn counterclockwise.
fn cross(a: Pos, b: Pos) -> i128
    ensures { result ≡ int_wrap w128 (cross_of a b) }
{
    product(a.x(), b.y()).wrapping_sub(product(b.x(), a.y()))
}

/// Twice the area of a ring, greater than 0 where it turns counterclockwise. The ring is a closed list of positions;
/// below 2^44 of them the number does not wrap.
pub fn area(closed: &[Pos]) -> i128
    ensures { result ≡ int_wrap w128 (twice_area closed.now) }
{
    let Some((first, others)) = closed.split_first() else {
        return 0;
    };
    let mut area = 0i128;
    let mut here = *first;
    for next in others {
        area = area.wrapping_add(cross(here, *next));
        here = *next;
    }
    area
}

/// Whether a ring turns counterclockwise.
pub(crate) fn turns_left(closed: &[Pos]) -> bool
    ensures { result ≡ is_left closed.now }
{
    is_less(0, area(closed))
}

/// The double of a grid number.
fn twice(number: i64) -> i128
    ensures { result ≡ doubled number }
{
    let number = i128::from(number);
    number.wrapping_add(number)
}

/// The product of the differences a - b and c - d.
fn spread(a: i128, b: i128, c: i128, d: i128) -> i128
    ensures { result ≡ spread_of a b c d }
{
    a.wrapping_sub(b).wrapping_mul(c.wrapping_sub(d))
}

/// Whether two tests have one answer.
pub(crate) fn is_same(a: bool, b: bool) -> bool
    ensures { result ≡ (if a then b else not b) }
{
    if a { b } else { !b }
}

/// Whether a ray to the right crosses the segment, from a place of which the doubled numbers are said.
fn crosses(a: Pos, b: Pos, place: (i128, i128)) -> bool
    ensures { result ≡ ray_crosses a b place }
{
    let (ax, ay) = (twice(a.x()), twice(a.y()));
    let (bx, by) = (twice(b.x()), twice(b.y()));
    if is_same(is_less(place.1, ay), is_less(place.1, by)) {
        return false;
    }
    let across = spread(bx, ax, place.1, ay);
    let along = spread(by, ay, place.0, ax);
    if is_less(ay, by) {
        is_less(along, across)
    } else {
        is_less(across, along)
    }
}

/// Whether a place, of which the doubled numbers are said, lies inside a ring.
fn contains(closed: &[Pos], place: (i128, i128)) -> bool
    ensures { result ≡ is_inside closed.now place }
{
    let Some((first, others)) = closed.split_first() else {
        return false;
    };
    let mut inside = false;
    let mut here = *first;
    for next in others {
        if crosses(here, *next, place) {
            inside = !inside;
        }
        here = *next;
    }
    inside
}

/// The middle of a segment, by its doubled numbers.
fn middle(a: Pos, b: Pos) -> (i128, i128)
    ensures { result ≡ middle_of a b }
{
    (
        i128::from(a.x()).wrapping_add(i128::from(b.x())),
        i128::from(a.y()).wrapping_add(i128::from(b.y())),
    )
}

/// Whether a ring lies in another: whether more than half of the middles of its first sides do, as the two may
/// touch.
pub(crate) fn lies_in(ring: &[Pos], other: &[Pos]) -> bool
    ensures { result ≡ lies_within ring.now other.now }
{
    let (begun, _) = ring.split_at(ring.len().min(POSITIONS));
    let Some((first, others)) = begun.split_first() else {
        return false;
    };
    let (mut inside, mut outside) = (0u64, 0u64);
    let mut here = *first;
    for next in others {
        if contains(other, middle(here, *next)) {
            inside = inside.saturating_add(1);
        } else {
            outside = outside.saturating_add(1);
        }
        here = *next;
    }
    outside < inside
}

/// A ring turned round.
fn turned_round(alloc: Global, closed: &[Pos]) -> Result<Ring, AllocError>
    requires { ring_fault position_cmp closed.now ≡ None }
    ensures { IfOk result (λ ring. vertices_of ring ≡ ring_of position_cmp (reverse closed.now)) }
{
    let mut back = closed.to_vec(alloc)?;
    back.reverse();
    Ok(Ring::from_sound(back))
}

/// The lesser of two rings.
fn lesser(ring: Ring, other: Ring) -> Ring
    ensures { result ≡ (if is_lt (list_cmp (vertices_of other) (vertices_of ring)) then other else ring) }
{
    if other.cmp(&ring).is_lt() {
        other
    } else {
        ring
    }
}

/// A ring turned as it is wanted: an outer one, or a hole. Without an area it turns as the lesser of its two directions does.
pub(crate) fn turn(
    alloc: Global,
    ring: Ring,
    closed: &[Pos],
    is_outer: bool,
    rewind: Rewind,
) -> Result<Ring, AllocError>
    requires ring { vertices_of ring ≡ ring_of position_cmp closed.now }
    requires sound { ring_fault position_cmp closed.now ≡ None }
    ensures { IfOk result (λ turned. vertices_of turned ≡ ring_of position_cmp (rewound rewind is_outer closed.now)) }
{
    let counterclockwise = match rewind {
        Rewind::Keep => return Ok(ring),
        Rewind::Rfc7946 => is_outer,
        Rewind::D3 => !is_outer,
    };
    let area = area(closed);
    if area == 0 {
        let back = turned_round(alloc, closed)?;
        return Ok(lesser(ring, back));
    }
    if is_same(is_less(0, area), counterclockwise) {
        return Ok(ring);
    }
    turned_round(alloc, closed)
}
