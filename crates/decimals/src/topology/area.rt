//! Areas along arcs, exactly.
ghost use Rattle.decimals.specs.Topology.Turning.{area_along, area_from, cross as spec_cross};
ghost use Rattle.std.specs.Prelude.{◌≡◌, ◌*ℤ◌, IfOk, IfSome, map};

use chains::table::ArcTable;
use faults::OutOfMemory;
use grid::Pos;
use std::alloc::Global;

fn product(a: i64, b: i64) -> i128
    ensures { result ≡ (a *ℤ b) }
{
    i128::from(a) * i128::from(b)
}

/// Twice the area of the triangle of 0 and two positions, greater than 0 where they turn counterclockwise.
fn cross(a: Pos, b: Pos) -> Option<i128>
    ensures { IfSome result (λ c. c ≡ spec_cross a b) }
{
    product(a.x(), b.y()).checked_sub(product(b.x(), a.y()))
}

fn area_from(first: Pos, others: &[Pos]) -> Option<i128>
    ensures { IfSome result (λ a. a ≡ area_from first others.now) }
{
    let mut area = 0i128;
    let mut before = first;
    for position in others {
        area = area.checked_add(cross(before, *position)?)?;
        before = *position;
    }
    Some(area)
}

/// Twice the area along positions, of which those along the arcs of a ring add up to the ring's. None where it has more
/// than 127 bits, as only more than 2^44 positions make it.
fn area(positions: &[Pos]) -> Option<i128>
    ensures { IfSome result (λ a. a ≡ area_along positions.now) }
{
    match positions.split_first() {
        Some((first, others)) => area_from(*first, others),
        None => Some(0),
    }
}

/// The areas along all arcs.
pub(crate) fn areas_of(alloc: Global, arcs: &ArcTable) -> Result<Vec<i128>, OutOfMemory>
    ensures { IfOk result (λ areas. areas.items ≡ map area_along arcs.now.arcs) }
{
    let mut areas = Vec::new(alloc);
    for arc in arcs.iter() {
        let Some(along) = area(arc) else {
            return Err(OutOfMemory);
        };
        areas.push(along)?;
    }
    Ok(areas)
}
