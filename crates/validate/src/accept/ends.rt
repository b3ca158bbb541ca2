//! Where the lines of layers begin and end, by the arcs as a text has them.
ghost use Rattle.grid.specs.declared.pos.Pos.{Pos};
ghost use Rattle.validate.specs.ArcEnds as spec;
ghost use Rattle.validate.specs.FreeLoops.{AreLineEnds};
ghost use Rattle.std.specs.Prelude.{◌≡◌, ◌++◌, IfOk, OnOk};
ghost use Rattle.validate.specs.Accept.LineEnds.{LinesStitch};
ghost use Rattle.validate.specs.Accept.Lists.{layers_lines, lines_of};
ghost use Rattle.topo.specs.BodyLists.{body_lines};
ghost use Rattle.theory.specs.Geometry.{Geometry};
ghost use Rattle.theory.specs.Lists.{gathered};

use crate::{NumberedArcs, add_line_ends};
use faults::OutOfMemory;
use grid::pos::Pos;
use std::alloc::Global;
use topo::{Body, Geom, Layer};

fn add_body<A: NumberedArcs>(ends: &mut Vec<Pos>, arcs: &A, body: &Body) -> Result<(), OutOfMemory>
    ensures { OnOk result (ends.new.items ≡ ends.old.items ++ gathered (spec.line_ends (A.arcs arcs.now)) (body_lines body.now)) }
{
    for refs in body.lines() {
        add_line_ends(ends, arcs, refs.as_slice())?;
    }
    Ok(())
}

fn add_geometries<A: NumberedArcs>(
    ends: &mut Vec<Pos>,
    arcs: &A,
    geometries: &[Geom],
) -> Result<(), OutOfMemory>
    ensures { OnOk result (ends.new.items ≡ ends.old.items ++ gathered (spec.line_ends (A.arcs arcs.now)) (lines_of geometries.now)) }
{
    for geometry in geometries {
        add_body(ends, arcs, &geometry.body)?;
    }
    Ok(())
}

/// Where the lines of all layers begin and end, in their order, by the first and the last arc of each
/// list of used arcs; a list whose first or last arc is not there has no ends. Of each map whose lines
/// are what the lists stitch to, they are the ends of its lines, which `crate::free_loops` takes.
///
/// # Errors
/// Where memory is refused.
pub fn line_ends<A: NumberedArcs>(
    alloc: Global,
    arcs: &A,
    layers: &[Layer],
) -> Result<Vec<Pos>, OutOfMemory>
    ensures ends { IfOk result (λ v. v.items ≡ gathered (spec.line_ends (A.arcs arcs.now)) (layers_lines layers.now)) }
    ensures of_map { IfOk result (λ v. (g : Geometry Pos) → LinesStitch (A.arcs arcs.now) (layers_lines layers.now) g → AreLineEnds v.items g) }
{
    let mut ends = Vec::new(alloc);
    for layer in layers {
        add_geometries(&mut ends, arcs, layer.geometries())?;
    }
    Ok(ends)
}
