//! The arcs that bodies use.
ghost use Rattle.arcs.specs.ArcMarks.{marks_set};
ghost use Rattle.std.specs.Prelude.{◌≡◌, true};
ghost use Rattle.topo.specs.UsedArcs.{body_refs};

use crate::geom::Body;
use arcs::ArcMarks;

/// Sets the marks of the arcs that a body uses.
pub fn mark_body(marks: &mut ArcMarks, body: &Body)
    ensures { marks.new ≡ marks_set true marks.old (body_refs body.now) }
{
    for refs in body.parts() {
        marks.set_each(refs.as_slice());
    }
}
