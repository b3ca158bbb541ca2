//! The ends of arcs.
ghost use Rattle.grid.specs.declared.pos.Pos.{Pos};
ghost use Rattle.query.specs.Ends.{AmongEnds, EndStep, HasEnds, IsEnd};
ghost use Rattle.std.specs.Prelude.{◌↔◌, ◌⊎◌, IfOk, OnOk};
ghost use Rattle.topo.specs.Points.{arc_at};

use arcs::{ArcStep, ArcTable};
use grid::pos::Pos;
use std::alloc::{AllocError, Global};

fn add_end(ends: &mut Vec<ArcStep>, end: Option<ArcStep>) -> Result<(), AllocError>
    ensures { OnOk result ((v w : Pos) → AmongEnds v w ends.new.items ↔ (AmongEnds v w ends.old.items ⊎ IsEnd v w end)) }
{
    let Some(found) = end else {
        return Ok(());
    };
    ends.push(found)?;
    Ok(())
}

/// Puts the two ends of an arc behind the others.
fn add_ends(ends: &mut Vec<ArcStep>, arc: &[Pos]) -> Result<(), AllocError>
    ensures { OnOk result ((v w : Pos) → AmongEnds v w ends.new.items ↔ (AmongEnds v w ends.old.items ⊎ EndStep v w arc.now)) }
{
    add_end(ends, ArcStep::first_along(arc))?;
    add_end(ends, ArcStep::first_against(arc))
}

fn add_numbered_arc(
    ends: &mut Vec<ArcStep>,
    arcs: &ArcTable,
    number: usize,
) -> Result<(), AllocError>
    ensures { OnOk result ((v w : Pos) → AmongEnds v w ends.new.items ↔ (AmongEnds v w ends.old.items ⊎ EndStep v w (arc_at arcs.now.arcs number))) }
{
    match arcs.arc(number) {
        Some(arc) => add_ends(ends, arc),
        None => Ok(()),
    }
}

/// The two ends of each arc of these numbers.
pub(crate) fn ends_of(
    alloc: Global,
    arcs: &ArcTable,
    chosen: &[usize],
) -> Result<Vec<ArcStep>, AllocError>
    ensures { IfOk result (λ v. HasEnds arcs.now.arcs chosen.now v.items) }
{
    let mut ends = Vec::new(alloc);
    for number in chosen {
        add_numbered_arc(&mut ends, arcs, *number)?;
    }
    Ok(ends)
}
