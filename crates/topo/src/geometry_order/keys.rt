//! What geometries are sorted by: their bodies, with the first steps along the arcs of a list in the list's place.
ghost use Rattle.arcs.specs.Steps.{step_along};
ghost use Rattle.arcs.specs.declared.step.ArcStep as steps;
ghost use Rattle.topo.specs.GeometryOrder.Lists as spec;
ghost use Rattle.std.specs.Prelude.{◌≡◌, ◌++◌, List, OnOk, Option, map};

use crate::geometry_order::lists::{Ordered, find_lead};
use arcs::step::ArcStep;
use arcs::table::{ArcRef, ArcTable};
use faults::OutOfMemory;
use lines::items::Items;
use shapes::form::Form;
use shapes::form_map::Become;
use std::alloc::{AllocError, Global};

/// The steps of a list, one behind the other.
pub(crate) type Steps = Items<Option<ArcStep>>;

/// A body, with the steps of each list in the list's place.
pub(crate) type BodyKey = Form<Steps, Steps>;

fn add_steps(
    steps: &mut Vec<Option<ArcStep>>,
    arcs: &ArcTable,
    used: &[ArcRef],
) -> Result<(), AllocError>
    ensures { OnOk result (steps.new.items ≡ steps.old.items ++ map (step_along arcs.now.arcs) used.now) }
{
    for arc in used {
        steps.push(arcs.first_step(*arc))?;
    }
    Ok(())
}

/// The first steps along the arcs of lines.
#[derive(Drop)]
pub(crate) struct LineSteps<'a>(pub(crate) &'a ArcTable);

impl<'a> Become<Items<ArcRef>> for LineSteps<'a> {
    type Made = Steps;

    ghost Seen = { List (Option steps.ArcStep) };

    ghost seen = { λ made. made };

    ghost becomes = { λ s used. spec.line_key s.0.now.arcs used };

    fn make(&self, alloc: Global, old: &Items<ArcRef>) -> Result<Steps, OutOfMemory> {
        let used = old.as_slice();
        let mut steps = Vec::with_capacity(alloc, used.len())?;
        add_steps(&mut steps, self.0, used)?;
        Ok(Items::from_vec(steps))
    }
}

/// The least steps of rings, each followed by the first steps along the ring's arcs from there.
#[derive(Drop)]
pub(crate) struct RingSteps<'a>(pub(crate) &'a Ordered<'a>);

impl<'a> Become<Items<ArcRef>> for RingSteps<'a> {
    type Made = Steps;

    ghost Seen = { List (Option steps.ArcStep) };

    ghost seen = { λ made. made };

    ghost becomes = { λ s used. spec.ring_key s.0.now.arcs.now.arcs s.0.now.least.now used };

    fn make(&self, alloc: Global, old: &Items<ArcRef>) -> Result<Steps, OutOfMemory> {
        let view = self.0;
        let used = old.as_slice();
        let lead = find_lead(view.least, used);
        let (front, back) = used.split_at(lead.behind);
        let mut steps = Vec::new(alloc);
        steps.push(lead.step)?;
        add_steps(&mut steps, view.arcs, back)?;
        add_steps(&mut steps, view.arcs, front)?;
        Ok(Items::from_vec(steps))
    }
}
