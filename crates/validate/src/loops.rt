//! Which arcs are free loops: closed arcs at whose seam nothing else ends.
ghost use Rattle.arcs.specs.Table.{IsTableOf};
ghost use Rattle.grid.specs.declared.pos.Pos.{Pos};
ghost use Rattle.lines.specs.Reading as list;
ghost use Rattle.lines.specs.Turned.{position_cmp};
ghost use Rattle.validate.specs.Noding.{table_read};
ghost use Rattle.validate.specs.FreeLoops.{AreLineEnds, ends_once, goes_free, occurs_once};
ghost use Rattle.std.specs.List.Sorted.{IsSorted};
ghost use Rattle.std.specs.Prelude.{◌≡◌, ◌++◌, IfOk, OnOk, map as map_list};
ghost use Rattle.theory.specs.Arcs.{AreArcsOf};
ghost use Rattle.theory.specs.Geometry.{Geometry, IsSound};
ghost use Rattle.theory.specs.Lists.{gathered};

use crate::end_tests::is_among;
use crate::noding::is_closed;
use arcs::ends::last_from;
use faults::OutOfMemory;
use grid::pos::Pos;
use lines::items::Items;
use std::alloc::{AllocError, Global};

/// Adds the ends of an arc; of a closed arc its seam, once.
fn add_ends(ends: &mut Vec<Pos>, arc: &[Pos]) -> Result<(), AllocError>
    ensures { OnOk result (ends.new.items ≡ ends.old.items ++ ends_once arc.now) }
{
    let Some((first, others)) = arc.split_first() else {
        return Ok(());
    };
    ends.push(*first)?;
    if !is_closed(arc) {
        ends.push(last_from(*first, others))?;
    }
    Ok(())
}

fn add_all_ends(ends: &mut Vec<Pos>, arcs: &[Items<Pos>]) -> Result<(), AllocError>
    ensures { OnOk result (ends.new.items ≡ ends.old.items ++ gathered ends_once arcs.now) }
{
    for arc in arcs {
        add_ends(ends, arc.as_slice())?;
    }
    Ok(())
}

/// Whether a vertex is at exactly one place of a sorted list.
fn is_once(sorted: &[Pos], vertex: Pos) -> bool
    requires { IsSorted position_cmp sorted.now }
    ensures { result ≡ occurs_once sorted.now vertex }
{
    match sorted.binary_search(&vertex) {
        Ok(index) => !is_among(&sorted[..index], vertex) && !is_among(&sorted[index + 1..], vertex),
        Err(_) => false,
    }
}

/// Whether an arc is closed, and nothing else ends at its seam.
fn is_free(ends: &[Pos], arc: &[Pos]) -> bool
    requires { IsSorted position_cmp ends.now }
    ensures { result ≡ goes_free ends.now arc.now }
{
    match arc.first() {
        Some(first) => is_closed(arc) && is_once(ends, *first),
        None => false,
    }
}

/// Which arcs are free loops: those that are closed, and at whose seam neither another arc ends nor
/// one of the lines, whose ends are given. Of each map whose arcs these are, and whose lines end there,
/// they are the free loops.
///
/// # Errors
/// Where memory is refused.
pub fn free_loops(
    alloc: Global,
    arcs: &[Items<Pos>],
    line_ends: Vec<Pos>,
) -> Result<Vec<bool>, OutOfMemory>
    ensures marks { IfOk result (λ v. v.items ≡ map_list (goes_free (line_ends.items ++ gathered ends_once arcs.now)) arcs.now) }
    ensures of_map { IfOk result (λ v. (g : Geometry Pos) → IsSound g → AreArcsOf position_cmp g arcs.now → AreLineEnds line_ends.items g → IsTableOf g (table_read arcs.now v.items)) }
{
    let mut ends = line_ends;
    add_all_ends(&mut ends, arcs)?;
    ends.sort_unstable();
    let mut marks = Vec::with_capacity(alloc, arcs.len())?;
    for arc in arcs {
        marks.push(is_free(&ends, arc.as_slice()))?;
    }
    Ok(marks)
}
