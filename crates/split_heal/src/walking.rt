//! Walks along arcs that go on from one another.
ghost use Rattle.split_heal.specs.PseudoNodes.{partner_in};
ghost use Rattle.split_heal.specs.Walks.{Adds, AddsStarted, AddsSingle, ArePaired, AreRuns, AreWalked, EndsGone, Goes, GoesOn, Walk, count_left, some_one};
ghost use Rattle.std.specs.Prelude.{◌≤◌, ◌+◌, IfOk, OnOk, List, Bool};
ghost use Rattle.theory.specs.ArcNumbers as numbers;

use crate::arc_run::ArcRun;
use crate::pseudo_nodes::PseudoNodes;
use arcs::ArcMarks;
use chains::table::ArcRef;
use std::alloc::{AllocError, Global};

/// Walks so far: which arcs are left, and the runs of those that were taken.
#[derive(Drop)]
struct Walker {
    left: ArcMarks,
    runs: Vec<ArcRun>,
}

/// Takes the used arc that goes on from another, if it is left.
fn take_next(meeting: &PseudoNodes, left: &mut ArcMarks, used: ArcRef) -> Option<ArcRef>
    ensures goes { (run : List numbers.ArcRef) (after : List Bool) → GoesOn (partner_in meeting.now) left.new result run after → Goes (partner_in meeting.now) left.old used run after }
    ensures fewer { count_left left.new + some_one result ≤ count_left left.old }
{
    let next = meeting.partner(used.flip())?;
    if left.clear(next.arc) {
        Some(next)
    } else {
        None
    }
}

/// The used arcs that go on from one that is taken already, with it in front.
fn walk(
    alloc: Global,
    meeting: &PseudoNodes,
    left: &mut ArcMarks,
    from: ArcRef,
) -> Result<ArcRun, AllocError>
    ensures { IfOk result (λ r. Walk (partner_in meeting.now) left.old from r left.new) }
{
    let mut next = take_next(meeting, left, from);
    if next.is_none() {
        return Ok(ArcRun::one(from));
    }
    let mut run = Vec::with_capacity(alloc, 2)?;
    run.push(from)?;
    while let Some(used) = next {
        run.push(used)?;
        next = take_next(meeting, left, used);
    }
    Ok(ArcRun::of(run))
}

impl Walker {
    /// Walks from a used arc that is left.
    fn add_run(
        &mut self,
        alloc: Global,
        meeting: &PseudoNodes,
        from: ArcRef,
    ) -> Result<(), AllocError>
        ensures { OnOk result (Adds (partner_in meeting.now) self.old.left self.old.runs.items from self.new.left self.new.runs.items) }
    {
        if !self.left.clear(from.arc) {
            return Ok(());
        }
        let run = walk(alloc, meeting, &mut self.left, from)?;
        self.runs.push(run)?;
        Ok(())
    }

    /// Walks from a used arc that is left and has no arc before it.
    fn add_start(
        &mut self,
        alloc: Global,
        meeting: &PseudoNodes,
        from: ArcRef,
    ) -> Result<(), AllocError>
        ensures { OnOk result (AddsStarted (partner_in meeting.now) self.old.left self.old.runs.items from self.new.left self.new.runs.items) }
    {
        if !self.left.is_set(from.arc) || meeting.partner(from).is_some() {
            return Ok(());
        }
        self.add_run(alloc, meeting, from)
    }

    /// Walks from a used arc that is left, where none goes on from either of its ends.
    fn add_single(
        &mut self,
        alloc: Global,
        meeting: &PseudoNodes,
        from: ArcRef,
    ) -> Result<(), AllocError>
        ensures { OnOk result (AddsSingle (partner_in meeting.now) self.old.left self.old.runs.items from self.new.left self.new.runs.items) }
    {
        if meeting.partner(from.flip()).is_some() {
            return Ok(());
        }
        self.add_start(alloc, meeting, from)
    }

    /// Adds the runs of one arc each from end to end. They come first, so that a sort of what the runs are
    /// joined to finds them in order.
    fn add_single_runs(
        &mut self,
        alloc: Global,
        meeting: &PseudoNodes,
        kept: &[bool],
    ) -> Result<(), AllocError>
        ensures { OnOk result (ArePaired kept.now (partner_in meeting.now) → AreWalked kept.now (partner_in meeting.now) self.old.left self.old.runs.items → AreWalked kept.now (partner_in meeting.now) self.new.left self.new.runs.items) }
    {
        for arc in 0..kept.len() {
            let ahead = ArcRef {
                arc,
                reversed: false,
            };
            self.add_single(alloc, meeting, ahead)?;
        }
        Ok(())
    }

    /// Adds the runs from end to end.
    fn add_open_runs(
        &mut self,
        alloc: Global,
        meeting: &PseudoNodes,
        kept: &[bool],
    ) -> Result<(), AllocError>
        ensures { OnOk result (ArePaired kept.now (partner_in meeting.now) → AreWalked kept.now (partner_in meeting.now) self.old.left self.old.runs.items → AreWalked kept.now (partner_in meeting.now) self.new.left self.new.runs.items × EndsGone kept.now (partner_in meeting.now) self.new.left) }
    {
        for arc in 0..kept.len() {
            let ahead = ArcRef {
                arc,
                reversed: false,
            };
            let against = ArcRef {
                arc,
                reversed: true,
            };
            self.add_start(alloc, meeting, ahead)?;
            self.add_start(alloc, meeting, against)?;
        }
        Ok(())
    }

    /// Adds the runs that go round, once those from end to end are taken.
    fn add_round_runs(
        &mut self,
        alloc: Global,
        meeting: &PseudoNodes,
        kept: &[bool],
    ) -> Result<(), AllocError>
        ensures { OnOk result (ArePaired kept.now (partner_in meeting.now) → AreWalked kept.now (partner_in meeting.now) self.old.left self.old.runs.items → EndsGone kept.now (partner_in meeting.now) self.old.left → AreRuns kept.now (partner_in meeting.now) self.new.runs.items) }
    {
        for arc in 0..kept.len() {
            let ahead = ArcRef {
                arc,
                reversed: false,
            };
            self.add_run(alloc, meeting, ahead)?;
        }
        Ok(())
    }
}

/// All runs of the marked arcs: first those of one arc from end to end, then the others from end to end,
/// then those that go round.
pub(crate) fn runs_of(
    alloc: Global,
    meeting: &PseudoNodes,
    kept: &[bool],
) -> Result<Vec<ArcRun>, AllocError>
    ensures { IfOk result (λ v. ArePaired kept.now (partner_in meeting.now) → AreRuns kept.now (partner_in meeting.now) v.items) }
{
    let left = ArcMarks::of(alloc, kept)?;
    let runs = Vec::new(alloc);
    let mut walker = Walker { left, runs };
    walker.add_single_runs(alloc, meeting, kept)?;
    walker.add_open_runs(alloc, meeting, kept)?;
    walker.add_round_runs(alloc, meeting, kept)?;
    let Walker { left: _, runs } = walker;
    Ok(runs)
}
