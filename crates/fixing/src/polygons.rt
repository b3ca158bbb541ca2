//! Polygons, fixed one by one.
ghost use Rattle.fixing.specs.Left.{all_counted, all_left};
ghost use Rattle.fixing.specs.Polygons.{home_of as home_in, home_of_hole as home_in_of_hole, polygon_counted, polygon_kept, polygons_left, polygons_made, polygons_of as alone, polygons_of_loops as made_of_loops, put_holes as with_these, put_others as with_others, put_ring as with_ring, ring_made, rings_made, turns_to as is_turned_to};
ghost use Rattle.fixing.specs.Seen.{polygons_in};
ghost use Rattle.lines.specs.Seen.{vertices_of};
ghost use Rattle.std.specs.Prelude.{◌≡◌, IfErr, IfOk, OnOk, None, Some, map, not, option_map, true};
ghost use Rattle.theory.specs.TopologyFunction.{keep};

use crate::broken::Broken;
use crate::closing::close_counted;
use crate::linework::fix_closed;
use crate::lists::only;
use crate::measures::{is_same, lies_in, turn, turns_left};
use crate::rules::{Fixes, FixingRules, Rewind};
use faults::OutOfMemory;
use grid::pos::Pos;
use lines::items::Items;
use lines::ring::Ring;
use lines::shape_fault::ShapeFault;
use std::alloc::{AllocError, Global};

/// A polygon of each ring.
fn polygons_of(alloc: Global, rings: Vec<Items<Pos>>) -> Result<Vec<Vec<Items<Pos>>>, AllocError>
    ensures { IfOk result (λ made. polygons_in made.items ≡ alone rings.items) }
{
    let mut polygons = Vec::new(alloc);
    for ring in rings {
        polygons.push(only(alloc, ring)?)?;
    }
    Ok(polygons)
}

/// The first polygon in whose outer ring a ring lies.
fn home_of(polygons: &[Vec<Items<Pos>>], ring: &[Pos]) -> Option<usize>
    ensures { result ≡ home_in (polygons_in polygons.now) ring.now }
{
    for (place, polygon) in polygons.iter().enumerate() {
        if let Some(outer) = polygon.first() {
            if lies_in(ring, outer.as_slice()) {
                return Some(place);
            }
        }
    }
    None
}

/// Puts a ring into a polygon, as a hole.
fn put_ring(
    polygons: &mut Vec<Vec<Items<Pos>>>,
    ring: Items<Pos>,
    home: usize,
) -> Result<(), AllocError>
    ensures { OnOk result (polygons_in polygons.new.items ≡ with_ring home ring (polygons_in polygons.old.items)) }
{
    if home < polygons.len() {
        polygons[home].push(ring)?;
    }
    Ok(())
}

/// The polygon that a hole is put into: the only one, or that in which it lies, or the first.
fn home_of_hole(polygons: &[Vec<Items<Pos>>], hole: &[Pos]) -> usize
    ensures { result ≡ home_in_of_hole (polygons_in polygons.now) hole.now }
{
    if polygons.len() > 1 {
        home_of(polygons, hole).unwrap_or(0)
    } else {
        0
    }
}

/// Puts the holes that are left of a hole into the polygons that they lie in, or into the first.
fn put_holes(polygons: &mut Vec<Vec<Items<Pos>>>, holes: Vec<Items<Pos>>) -> Result<(), AllocError>
    ensures { OnOk result (polygons_in polygons.new.items ≡ with_these holes.items (polygons_in polygons.old.items)) }
{
    for hole in holes {
        let home = home_of_hole(polygons.as_slice(), hole.as_slice());
        put_ring(polygons, hole, home)?;
    }
    Ok(())
}

/// Puts each of the rings into the polygon that it lies in, or drops it.
fn put_others(polygons: &mut Vec<Vec<Items<Pos>>>, rings: Vec<Items<Pos>>) -> Result<(), AllocError>
    ensures { OnOk result (polygons_in polygons.new.items ≡ with_others rings.items (polygons_in polygons.old.items)) }
{
    for ring in rings {
        if let Some(home) = home_of(polygons.as_slice(), ring.as_slice()) {
            put_ring(polygons, ring, home)?;
        }
    }
    Ok(())
}

/// The loops of an outer ring that turn as it does, and the others.
fn split_by_turn(
    alloc: Global,
    loops: Vec<Items<Pos>>,
    counterclockwise: bool,
) -> Result<(Vec<Items<Pos>>, Vec<Items<Pos>>), AllocError>
    ensures outers { IfOk result (λ parts. parts.0.items ≡ keep (is_turned_to counterclockwise) loops.items) }
    ensures others { IfOk result (λ parts. parts.1.items ≡ keep (λ ring. not (is_turned_to counterclockwise ring)) loops.items) }
{
    let mut outers = Vec::new(alloc);
    let mut others = Vec::new(alloc);
    for ring in loops {
        if is_same(counterclockwise, turns_left(ring.as_slice())) {
            outers.push(ring)?;
        } else {
            others.push(ring)?;
        }
    }
    Ok((outers, others))
}

/// The polygons of the loops of an outer ring. Loops that turn the other way are holes of the polygons that they
/// lie in, or are dropped.
fn polygons_of_loops(
    alloc: Global,
    loops: Vec<Items<Pos>>,
    counterclockwise: bool,
) -> Result<Vec<Vec<Items<Pos>>>, AllocError>
    ensures { IfOk result (λ made. polygons_in made.items ≡ made_of_loops counterclockwise loops.items) }
{
    if loops.len() < 2 {
        return polygons_of(alloc, loops);
    }
    let (outers, others) = split_by_turn(alloc, loops, counterclockwise)?;
    let mut polygons = polygons_of(alloc, outers)?;
    put_others(&mut polygons, others)?;
    Ok(polygons)
}

/// The ring of a closed list, turned as it is wanted; none where the list has a fault.
fn ring_of(
    alloc: Global,
    closed: &[Pos],
    is_outer: bool,
    rewind: Rewind,
) -> Result<Option<Ring>, OutOfMemory>
    ensures { IfOk result (λ ring. option_map vertices_of ring ≡ ring_made rewind is_outer closed.now) }
{
    let copy = closed.to_vec(alloc)?;
    match Ring::from_closed(alloc, copy) {
        Ok(ring) => Ok(Some(turn(alloc, ring, closed, is_outer, rewind)?)),
        Err(ShapeFault::OutOfMemory) => Err(OutOfMemory),
        Err(_) => Ok(None),
    }
}

/// The rings of a polygon, turned as they are wanted; none where a list has a fault.
fn rings_of(
    alloc: Global,
    lists: &[Items<Pos>],
    rewind: Rewind,
) -> Result<Option<Vec<Ring>>, OutOfMemory>
    ensures { IfOk result (λ made. option_map (λ rings. map vertices_of rings.items) made ≡ rings_made rewind true lists.now) }
{
    let mut rings = Vec::with_capacity(alloc, lists.len())?;
    let mut is_outer = true;
    for list in lists {
        let Some(ring) = ring_of(alloc, list.as_slice(), is_outer, rewind)? else {
            return Ok(None);
        };
        rings.push(ring)?;
        is_outer = false;
    }
    Ok(Some(rings))
}

/// The polygons of closed lists, their rings turned as they are wanted. One of which a list has a fault is none.
fn rings_of_polygons(
    alloc: Global,
    polygons: Vec<Vec<Items<Pos>>>,
    rewind: Rewind,
) -> Result<Vec<Items<Ring>>, OutOfMemory>
    ensures { IfOk result (λ made. map (map vertices_of) made.items ≡ polygons_made rewind (polygons_in polygons.items)) }
{
    let mut made = Vec::with_capacity(alloc, polygons.len())?;
    for polygon in polygons {
        if let Some(rings) = rings_of(alloc, polygon.as_slice(), rewind)? {
            made.push(Items::from_vec(rings))?;
        }
    }
    Ok(made)
}

/// The polygons that are left of a polygon, before their rings are turned.
fn fix_rings(
    alloc: Global,
    rings: Vec<Items<Pos>>,
    rules: &FixingRules,
    fixes: &mut Fixes,
) -> Result<Vec<Vec<Items<Pos>>>, Broken>
    ensures left { IfOk result (λ made. polygon_kept rules.now rings.items ≡ Some (polygons_in made.items)) }
    ensures fixes { OnOk result (fixes.new ≡ polygon_counted rules.now rings.items fixes.old) }
    ensures refused { IfErr result (λ e. e ≡ Broken.Refused → polygon_kept rules.now rings.items ≡ None) }
{
    let mut rings = rings.into_iter();
    let Some(outer) = rings.next() else {
        return Ok(only(alloc, Vec::new(alloc))?);
    };
    let outer = close_counted(outer.into_vec(), rules, fixes)?;
    let counterclockwise = turns_left(outer.as_slice());
    let loops = fix_closed(alloc, outer, rules, fixes)?;
    let mut polygons = polygons_of_loops(alloc, loops, counterclockwise)?;
    for hole in rings {
        let hole = close_counted(hole.into_vec(), rules, fixes)?;
        let left = fix_closed(alloc, hole, rules, fixes)?;
        put_holes(&mut polygons, left)?;
    }
    Ok(polygons)
}

/// The polygons that are left of a polygon. Without its outer ring none are.
pub(crate) fn fix_polygon(
    alloc: Global,
    rings: Vec<Items<Pos>>,
    rules: &FixingRules,
    fixes: &mut Fixes,
) -> Result<Vec<Items<Ring>>, Broken>
    ensures left { IfOk result (λ made. polygons_left rules.now rings.items ≡ Some (map (map vertices_of) made.items)) }
    ensures fixes { OnOk result (fixes.new ≡ polygon_counted rules.now rings.items fixes.old) }
    ensures refused { IfErr result (λ e. e ≡ Broken.Refused → polygons_left rules.now rings.items ≡ None) }
{
    if let Some(sound) = rings_of(alloc, rings.as_slice(), rules.rewind)? {
        return Ok(only(alloc, Items::from_vec(sound))?);
    }
    let polygons = fix_rings(alloc, rings, rules, fixes)?;
    Ok(rings_of_polygons(alloc, polygons, rules.rewind)?)
}

/// The polygons that are left of some polygons.
pub(crate) fn fix_polygons(
    alloc: Global,
    polygons: Vec<Items<Items<Pos>>>,
    rules: &FixingRules,
    fixes: &mut Fixes,
) -> Result<Vec<Items<Ring>>, Broken>
    ensures left { IfOk result (λ made. all_left (polygons_left rules.now) polygons.items ≡ Some (map (map vertices_of) made.items)) }
    ensures fixes { OnOk result (fixes.new ≡ all_counted (polygon_counted rules.now) polygons.items fixes.old) }
    ensures refused { IfErr result (λ e. e ≡ Broken.Refused → all_left (polygons_left rules.now) polygons.items ≡ None) }
{
    let mut fixed = Vec::with_capacity(alloc, polygons.len())?;
    for polygon in polygons {
        let mut parts = fix_polygon(alloc, polygon.into_vec(), rules, fixes)?;
        fixed.append(&mut parts)?;
    }
    Ok(fixed)
}
