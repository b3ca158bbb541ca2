//! Arcs as a text has them, checked: in order, each before its own reverse, and no vertex inside one at
//! another place.
ghost use Rattle.arcs.specs.Table.{with_loops};
ghost use Rattle.lines.specs.Reading as list;
ghost use Rattle.lines.specs.Turned.{position_cmp};
ghost use Rattle.validate.specs.Noding as spec;
ghost use Rattle.validate.specs.Noding.{AreInOrder, IsApart, arc_inside};
ghost use Rattle.std.specs.Prelude.{◌≡◌, ◌↔◌, ◌++◌, true, IfOk, OnOk};
ghost use Rattle.theory.specs.Lists.{gathered};

use crate::end_tests::{EndsHaveToBe, each_ends};
use crate::shared_vertices::vertices_elsewhere;
use chains::ordered::is_rising;
use chains::table::ArcTable;
use faults::OutOfMemory;
use grid::pos::Pos;
use lines::items::Items;
use lines::neighbours::has_equal_neighbours;
use std::alloc::{AllocError, Global};

/// Whether an arc comes before its own reverse.
fn is_forward(arc: &[Pos]) -> bool
    ensures { result ≡ spec.is_forward arc.now }
{
    arc.iter().rev().cmp(arc.iter()).is_gt()
}

/// Whether each arc comes before its own reverse.
fn each_forward(arcs: &[Items<Pos>]) -> bool
    ensures { result ≡ spec.each_forward arcs.now }
{
    for arc in arcs {
        if !is_forward(arc.as_slice()) {
            return false;
        }
    }
    true
}

/// Whether arcs are in order: each before the next, so that each is there once, and before its own
/// reverse. Their ends alone decide it where no two begin or end alike, and takes no memory.
pub fn arcs_in_order(arcs: &[Items<Pos>]) -> bool
    ensures { (result ≡ true) ↔ AreInOrder arcs.now }
{
    is_rising(arcs) && each_forward(arcs)
}

/// Whether an arc ends where it begins.
pub(crate) fn is_closed(arc: &[Pos]) -> bool
    ensures { result ≡ list.is_closed position_cmp arc.now }
{
    arc.first() == arc.last()
}

/// Whether no vertex of an arc comes before its first.
fn begins_least(arc: &[Pos]) -> bool
    ensures { result ≡ spec.begins_least arc.now }
{
    let Some((first, others)) = arc.split_first() else {
        return true;
    };
    for vertex in others {
        if *vertex < *first {
            return false;
        }
    }
    true
}

/// Whether an arc comes before its own reverse and, where it is a free loop, goes round from its least
/// vertex.
fn is_valid_arc(arc: &[Pos], free: bool) -> bool
    ensures { result ≡ spec.is_valid_arc (arc.now, free) }
{
    if !is_forward(arc) {
        return false;
    }
    if !free {
        return true;
    }
    is_closed(arc) && begins_least(arc)
}

fn arcs_are_valid(table: &ArcTable) -> bool
    ensures { result ≡ spec.arcs_are_valid table.now }
{
    for (arc, free) in table.with_loops() {
        if !is_valid_arc(arc, free) {
            return false;
        }
    }
    true
}

/// Adds the vertices inside an arc, those of a free loop all.
fn add_inside(inside: &mut Vec<Pos>, arc: &[Pos], free: bool) -> Result<(), AllocError>
    ensures { OnOk result (inside.new.items ≡ inside.old.items ++ arc_inside (arc.now, free)) }
{
    let Some((_, front)) = arc.split_last() else {
        return Ok(());
    };
    if free {
        return inside.extend_from_slice(front);
    }
    match front.split_first() {
        Some((_, inner)) => inside.extend_from_slice(inner),
        None => Ok(()),
    }
}

/// The vertices inside all arcs.
fn all_inside(alloc: Global, table: &ArcTable) -> Result<Vec<Pos>, AllocError>
    ensures { IfOk result (λ v. v.items ≡ gathered arc_inside (with_loops table.now)) }
{
    let mut inside = Vec::new(alloc);
    for (arc, free) in table.with_loops() {
        add_inside(&mut inside, arc, free)?;
    }
    Ok(inside)
}

/// Whether the arcs of a table are apart: each comes before its own reverse; each vertex inside an arc,
/// and each of a free loop, is at one place of all arcs, and no end of an arc that is no free loop; and
/// a free loop goes round from its least vertex. Where they are in order too, they are then the arcs of
/// the map that has the free loops as its rings and the other arcs as its lines.
///
/// # Errors
/// Where memory is refused.
pub fn is_noded(alloc: Global, table: &ArcTable) -> Result<bool, OutOfMemory>
    ensures { IfOk result (λ b. IsApart b table.now) }
{
    if !arcs_are_valid(table) {
        return Ok(false);
    }
    let inside = all_inside(alloc, table)?;
    let mut few = vertices_elsewhere(alloc, table, &inside)?;
    few.sort_unstable();
    if has_equal_neighbours(&few) {
        return Ok(false);
    }
    Ok(each_ends(EndsHaveToBe::Apart, &few, table))
}
