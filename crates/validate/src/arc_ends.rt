//! Whether each end of an arc is an end of a line, or meets two others.
ghost use Rattle.chains.specs.OfArcs.{table_as_map};
ghost use Rattle.validate.specs.ArcEnds as spec;
ghost use Rattle.validate.specs.ArcEnds.{EndsMeet, both_ends, line_ends};
ghost use Rattle.std.specs.Prelude.{◌≡◌, ◌↔◌, ◌++◌, true, IfOk, OnOk};
ghost use Rattle.theory.specs.Lists.{gathered};

use crate::chaining::ends_along;
use crate::end_tests::{EndsHaveToBe, each_ends};
use crate::numbered_arcs::NumberedArcs;
use arcs::ends::last_from;
use chains::table::{ArcRef, ArcTable};
use faults::OutOfMemory;
use grid::pos::Pos;
use std::alloc::{AllocError, Global};

/// Adds where a line begins and ends, by its list of used arcs.
///
/// # Errors
/// Where memory is refused.
pub fn add_line_ends<A: NumberedArcs>(
    ends: &mut Vec<Pos>,
    arcs: &A,
    refs: &[ArcRef],
) -> Result<(), OutOfMemory>
    ensures { OnOk result (ends.new.items ≡ ends.old.items ++ line_ends (A.arcs arcs.now) refs.now) }
{
    let Some((first, others)) = refs.split_first() else {
        return Ok(());
    };
    let last = last_from(*first, others);
    if let (Some((start, _)), Some((_, end))) = (ends_along(arcs, *first), ends_along(arcs, last)) {
        ends.push(start)?;
        ends.push(end)?;
    }
    Ok(())
}

/// Adds the first and the last vertex of an arc.
fn add_both(ends: &mut Vec<Pos>, arc: &[Pos]) -> Result<(), AllocError>
    ensures { OnOk result (ends.new.items ≡ ends.old.items ++ both_ends arc.now) }
{
    let Some((first, others)) = arc.split_first() else {
        return Ok(());
    };
    ends.push(*first)?;
    ends.push(last_from(*first, others))?;
    Ok(())
}

/// The ends of all arcs.
pub(crate) fn all_ends(alloc: Global, table: &ArcTable) -> Result<Vec<Pos>, AllocError>
    ensures { IfOk result (λ v. v.items ≡ gathered both_ends table.now.arcs) }
{
    let mut ends = Vec::new(alloc);
    for arc in table.iter() {
        add_both(&mut ends, arc)?;
    }
    Ok(ends)
}

/// The vertices of a sorted list, each once less often.
fn repeats_of(alloc: Global, sorted: &[Pos]) -> Result<Vec<Pos>, AllocError>
    ensures { IfOk result (λ v. v.items ≡ spec.again sorted.now) }
{
    let mut found = Vec::new(alloc);
    let Some((first, others)) = sorted.split_first() else {
        return Ok(found);
    };
    let mut before = *first;
    for vertex in others {
        if *vertex == before {
            found.push(*vertex)?;
        }
        before = *vertex;
    }
    Ok(found)
}

/// Whether each end of an arc that is no free loop is an end of a line, of which all are given, or
/// three ends of arcs meet there.
///
/// # Errors
/// Where memory is refused.
pub fn ends_meet(alloc: Global, table: &ArcTable, line_ends: &[Pos]) -> Result<bool, OutOfMemory>
    ensures { IfOk result (λ b. (b ≡ true) ↔ EndsMeet table.now.arcs (table_as_map table.now) line_ends.now) }
{
    let mut ends = all_ends(alloc, table)?;
    ends.sort_unstable();
    let twice = repeats_of(alloc, &ends)?;
    let mut meeting = repeats_of(alloc, &twice)?;
    meeting.extend_from_slice(line_ends)?;
    meeting.sort_unstable();
    Ok(each_ends(EndsHaveToBe::Among, &meeting, table))
}
