//! The arcs that layers use.
ghost use Rattle.arcs.specs.ArcMarks.{marks_set};
ghost use Rattle.std.specs.Prelude.{◌≡◌, IfOk, false, replicate, true};
ghost use Rattle.theory.specs.Lists.{gathered};
ghost use Rattle.topo.specs.UsedArcs.{body_refs, layers_refs};

use arcs::ArcMarks;
use std::alloc::{AllocError, Global};
use topo::{Geom, Layer, mark_body};

fn mark_geometries(marks: &mut ArcMarks, geometries: &[Geom])
    ensures { marks.new ≡ marks_set true marks.old (gathered (λ g. body_refs g.body) geometries.now) }
{
    for geometry in geometries {
        mark_body(marks, &geometry.body);
    }
}

/// A mark for each of so many arcs, set where layers use it.
pub(crate) fn arcs_used(
    alloc: Global,
    count: usize,
    layers: &[Layer],
) -> Result<ArcMarks, AllocError>
    ensures { IfOk result (λ m. m ≡ marks_set true (replicate count false) (layers_refs layers.now)) }
{
    let mut marks = ArcMarks::none(alloc, count)?;
    for layer in layers {
        mark_geometries(&mut marks, layer.geometries());
    }
    Ok(marks)
}
