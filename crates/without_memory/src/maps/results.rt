//! What is made of topologies: arcs cut again and joined again, removals, sessions and shards.

use arcs::HavePieces;
use chains::{ArcRef, ArcTable};
use faults::OutOfMemory;
use grid::Grid;
use merging::{Shard, are_on_one_grid};
use refine::remove::remove;
use refine::{Cut, Edit, Removal, Session, Whole};
use refused_calls::comparing::are_used;
use refused_calls::handed::Handed;
use refused_calls::inputs::{built, is_of, read};
use refused_calls::outcome::Tally;
use refused_calls::rows;
use refused_calls::tables::both;
use refused_calls::texts::{FIRST, SECOND, SHARED_EDGE, THIRD};
use split_heal::{HealedArcs, Recut, RecutAll, Side, heal, recut, recut_all};
use std::alloc::Global;
use std::slice;
use topo::Topology;

/// The arcs of two squares, cut again with those of a third and joined again without the second, and the squares
/// without the second.
#[derive(Drop)]
pub(crate) struct Results {
    recut: Recut,
    healed: HealedArcs,
    removal: Removal,
}

/// The arcs of two squares cut again with those of a third.
fn cut_again(alloc: Global) -> Option<Recut> {
    let (two, third) = both(built(alloc, SHARED_EDGE), built(alloc, THIRD))?;
    recut(alloc, two.arcs(), third.arcs()).ok()
}

/// What is left of the arcs of two squares where the second goes.
fn joined_again(alloc: Global) -> Option<HealedArcs> {
    let two = built(alloc, SHARED_EDGE)?;
    heal(alloc, two.arcs(), &[true, true, false], &[]).ok()
}

/// Two squares without the second.
fn taken_out(alloc: Global) -> Option<Removal> {
    let (two, second) = both(built(alloc, SHARED_EDGE), read(alloc, SECOND))?;
    remove(alloc, &two, &second).ok()
}

/// Whether a list is there, of these arcs.
fn is_list(list: Option<&[ArcRef]>, indexes: &[i64]) -> bool {
    match list {
        Some(list) => are_used(list, indexes),
        None => false,
    }
}

fn has_cut(recut: &Recut) -> bool {
    is_list(recut.pieces(Side::Left, 2), &[2, 4, -4])
        && is_list(recut.pieces(Side::Right, 0), &[4, -6])
        && recut.pieces(Side::Right, 1).is_none()
}

fn has_healed(healed: &HealedArcs) -> bool {
    is_list(healed.pieces(0), &[0, -2]) && healed.pieces(1).is_none()
}

fn has_old_arcs(removal: &Removal) -> bool {
    is_list(removal.pieces(0), &[0, -2]) && removal.pieces(1).is_none()
}

/// The arcs alone.
fn has_arcs(recut: Recut) -> bool {
    recut.into_arcs().len() == 6
}

/// The one arc, and the run of old ones that it is made of.
fn has_run(healed: HealedArcs) -> bool {
    let (arcs, runs) = healed.into_parts();
    match runs.as_slice() {
        [run] => arcs.len() == 1 && run.as_slice().len() == 2,
        _ => false,
    }
}

fn is_first(removal: Removal) -> bool {
    is_of(&removal.into_topology(), FIRST)
}

impl Results {
    fn test_each(&self, rt: &HostRuntime, tally: &mut Tally) {
        rows!(rt, tally;
            "Recut::arcs" => self.recut.arcs().len() == 6,
            "Recut::pieces" => has_cut(&self.recut),
            "Recut::lists" => is_list(self.recut.lists(Side::Left).pieces(2), &[2, 4, -4]),
            "HealedArcs::arcs" => self.healed.arcs().len() == 1,
            "HealedArcs::pieces" => has_healed(&self.healed),
            "Removal::topology" => is_of(self.removal.topology(), FIRST),
            "Removal::pieces" => has_old_arcs(&self.removal),
        );
    }
}

impl Handed for Results {
    fn make(alloc: Global) -> Option<Results> {
        let joined = both(joined_again(alloc), taken_out(alloc));
        let (recut, (healed, removal)) = both(cut_again(alloc), joined)?;
        Some(Results {
            recut,
            healed,
            removal,
        })
    }

    fn test(self, rt: &HostRuntime, tally: &mut Tally) {
        self.test_each(rt, tally);
        let Results {
            recut,
            healed,
            removal,
        } = self;
        let has_arcs = has_arcs(recut);
        let has_run = has_run(healed);
        let is_first = is_first(removal);
        rows!(rt, tally;
            "Recut::into_arcs" => has_arcs,
            "HealedArcs::into_parts" => has_run,
            "ArcRun::as_slice" => has_run,
            "Removal::into_topology" => is_first,
        );
    }
}

/// The arcs of two squares and of a third, cut again at once.
#[derive(Drop)]
pub(crate) struct CutAtOnce {
    recut: RecutAll,
}

fn tables(alloc: Global, two: Topology, third: Topology) -> Result<Vec<ArcTable>, OutOfMemory> {
    let mut tables = Vec::with_capacity(alloc, 2)?;
    tables.push(two.into_parts().0)?;
    tables.push(third.into_parts().0)?;
    Ok(tables)
}

fn has_all_cut(recut: &RecutAll) -> bool {
    is_list(recut.pieces(0, 2), &[2, 4, -4])
        && is_list(recut.pieces(1, 0), &[4, -6])
        && recut.pieces(1, 1).is_none()
        && recut.pieces(2, 0).is_none()
}

impl Handed for CutAtOnce {
    fn make(alloc: Global) -> Option<CutAtOnce> {
        let (two, third) = both(built(alloc, SHARED_EDGE), built(alloc, THIRD))?;
        let tables = tables(alloc, two, third).ok()?;
        let recut = recut_all(alloc, tables).ok()?;
        Some(CutAtOnce { recut })
    }

    fn test(self, rt: &HostRuntime, tally: &mut Tally) {
        let has_arcs = self.recut.arcs().len() == 6;
        let has_cut = has_all_cut(&self.recut);
        let has_lists = is_list(self.recut.lists(1).pieces(0), &[4, -6]);
        let has_arcs_alone = self.recut.into_arcs().len() == 6;
        rows!(rt, tally;
            "RecutAll::arcs" => has_arcs,
            "RecutAll::pieces" => has_cut,
            "RecutAll::lists" => has_lists,
            "HavePieces::pieces" => has_lists,
            "RecutAll::into_arcs" => has_arcs_alone,
        );
    }
}

/// A session that took the first square, and both squares as a shard of each kind.
#[derive(Drop)]
pub(crate) struct Shards {
    session: Session,
    whole: Whole,
    cut: Cut,
}

fn grid() -> Option<Grid> {
    Grid::new(1, 1, 0, 0)
}

fn join_first(alloc: Global) -> Option<Edit> {
    Some(Edit::Join(built(alloc, FIRST)?))
}

fn started(alloc: Global) -> Option<Session> {
    Session::start(alloc, &grid()?).ok()
}

fn session(alloc: Global) -> Option<Session> {
    let (mut session, edit) = both(started(alloc), join_first(alloc))?;
    session.apply(&edit).ok()?;
    Some(session)
}

fn whole(alloc: Global) -> Option<Whole> {
    let (grid, map) = both(grid(), read(alloc, SHARED_EDGE))?;
    Whole::from_map(alloc, &grid, &map).ok()
}

fn cut_shard(alloc: Global) -> Option<Cut> {
    let (grid, map) = both(grid(), read(alloc, SHARED_EDGE))?;
    Cut::from_map(alloc, &grid, &map).ok()
}

fn is_on_grid<S: Shard>(shard: &S) -> bool {
    Some(shard.grid()) == grid()
}

impl Shards {
    fn test_each(&self, rt: &HostRuntime, tally: &mut Tally) {
        rows!(rt, tally;
            "Session::topology" => is_of(self.session.topology(), FIRST),
            "Shard::grid of Whole" => is_on_grid(&self.whole),
            "Shard::grid of Cut" => is_on_grid(&self.cut),
            "Shard::bbox of Whole" => self.whole.bbox().is_none(),
            "Shard::bbox of Cut" => self.cut.bbox() == Some((0, 0, 2, 1)),
            "merging::are_on_one_grid" => are_on_one_grid(slice::from_ref(&self.cut)),
        );
    }
}

impl Handed for Shards {
    fn make(alloc: Global) -> Option<Shards> {
        let shards = both(whole(alloc), cut_shard(alloc));
        let (session, (whole, cut)) = both(session(alloc), shards)?;
        Some(Shards {
            session,
            whole,
            cut,
        })
    }

    fn test(self, rt: &HostRuntime, tally: &mut Tally) {
        self.test_each(rt, tally);
    }
}
