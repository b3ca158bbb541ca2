//! Lines that use a segment twice, cut where they do.
ghost use Rattle.fixing.specs.Cutting.{runs_left};
ghost use Rattle.fixing.specs.Runs.{run_kept, runs_of as runs_in};
ghost use Rattle.grid.specs.declared.pos.Pos.{Pos};
ghost use Rattle.lines.specs.Reading.{collapsed};
ghost use Rattle.lines.specs.Turned.{position_cmp};
ghost use Rattle.std.specs.Prelude.{◌≡◌, ◌∷◌, ◌++◌, [], IfOk, OnOk, List};

use crate::lists::only;
use grid::pos::Pos;
use lines::items::Items;
use lines::pair::PositionPair;
use std::alloc::{AllocError, Global};
use std::collections::BTreeSet;

/// A way along a line: the segments that it used, the runs that it ended, and the one that it is on, which has come
/// to `here`.
#[derive(Drop)]
struct Cutting {
    used: BTreeSet<PositionPair>,
    ended: Vec<Items<Pos>>,
    run: Vec<Pos>,
    here: Pos,
}

/// Puts a run behind others, unless it has fewer than two positions.
fn push_run(runs: &mut Vec<Items<Pos>>, run: Vec<Pos>) -> Result<(), AllocError>
    ensures { OnOk result (runs.new.items ≡ runs.old.items ++ run_kept run.items) }
{
    if run.len() > 1 {
        runs.push(Items::from_vec(run))?;
    }
    Ok(())
}

impl Cutting {
    /// The way that begins here.
    fn from(alloc: Global, here: Pos) -> Result<Cutting, AllocError>
        ensures { IfOk result (λ way. (l : List Pos) → runs_left way l ≡ runs_in (here ∷ l)) }
    {
        Ok(Cutting {
            used: BTreeSet::new(alloc),
            ended: Vec::new(alloc),
            run: only(alloc, here)?,
            here,
        })
    }

    /// Ends the run, and begins the next one here.
    fn begin_run(&mut self, alloc: Global) -> Result<(), AllocError>
        ensures ended { OnOk result (self.new.ended.items ≡ self.old.ended.items ++ run_kept self.old.run.items) }
        ensures run { OnOk result (self.new.run.items ≡ self.old.here ∷ []) }
        ensures here { self.new.here ≡ self.old.here }
        ensures used { self.new.used ≡ self.old.used }
    {
        let run = only(alloc, self.here)?;
        let ended = std::mem::replace(&mut self.run, run);
        push_run(&mut self.ended, ended)
    }

    /// Goes on to the next position.
    fn go_on(&mut self, alloc: Global, next: Pos) -> Result<(), AllocError>
        ensures { OnOk result ((l : List Pos) → runs_left self.new l ≡ runs_left self.old (next ∷ l)) }
    {
        let is_new = self.used.insert(PositionPair::of(self.here, next))?;
        self.here = next;
        if is_new {
            self.run.push(next)?;
            return Ok(());
        }
        self.begin_run(alloc)
    }

    /// The runs, where the line ends here.
    fn into_runs(self) -> Result<Vec<Items<Pos>>, AllocError>
        ensures { IfOk result (λ runs. runs.items ≡ runs_left self []) }
    {
        let Cutting { ended, run, .. } = self;
        let mut runs = ended;
        push_run(&mut runs, run)?;
        Ok(runs)
    }
}

/// The runs of a line between the segments that were used before, in order. Equal neighbours are one position,
/// and a run of one position is none.
pub(crate) fn runs_of(alloc: Global, mut positions: Vec<Pos>) -> Result<Vec<Items<Pos>>, AllocError>
    ensures { IfOk result (λ runs. runs.items ≡ runs_in (collapsed position_cmp positions.items)) }
{
    positions.dedup();
    let Some((first, others)) = positions.as_slice().split_first() else {
        return Ok(Vec::new(alloc));
    };
    let mut way = Cutting::from(alloc, *first)?;
    for next in others {
        way.go_on(alloc, *next)?;
    }
    way.into_runs()
}
