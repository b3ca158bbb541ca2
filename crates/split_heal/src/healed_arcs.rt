//! What runs are joined to: for each run a new arc, and its old ones in order along it.
ghost use Rattle.split_heal.specs.HealedArcs as spec;
ghost use Rattle.split_heal.specs.HealedArcs.{chain_by, from_least, least_vertex, list_by, list_of_run, piece_by, piece_of_run, positions_along, put_all, run_along};
ghost use Rattle.split_heal.specs.PseudoNodes.{partner_in};
ghost use Rattle.std.specs.Prelude.{◌≡◌, ◌++◌, ◌∷◌, [], IfOk, OnOk, map as map_list, replicate, slice_set};

use crate::arc_run::ArcRun;
use crate::pseudo_nodes::PseudoNodes;
use chains::cutting::Piece;
use chains::table::{ArcRef, ArcTable};
use grid::pos::Pos;
use itertools::Itertools;
use std::alloc::{AllocError, Global};

/// The new arcs of runs as pieces, and the old arcs of each.
#[derive(Drop)]
pub(crate) struct JoinedRuns {
    pub(crate) pieces: Vec<Piece>,
    pub(crate) lists: Vec<ArcRun>,
}

fn along(alloc: Global, arcs: &ArcTable, used: &ArcRef) -> Result<Vec<Pos>, AllocError>
    ensures { IfOk result (λ v. v.items ≡ positions_along arcs.now.arcs used.now) }
{
    let Some(arc) = arcs.arc(used.arc) else {
        return Ok(Vec::new(alloc));
    };
    let mut positions = arc.to_vec(alloc)?;
    if used.reversed {
        positions.reverse();
    }
    Ok(positions)
}

/// What a run runs along; the position at which two of its arcs meet occurs once.
fn chain_of(alloc: Global, arcs: &ArcTable, run: &[ArcRef]) -> Result<Vec<Pos>, AllocError>
    ensures { IfOk result (λ v. v.items ≡ run_along arcs.now.arcs run.now) }
{
    let Some((first, others)) = run.split_first() else {
        return Ok(Vec::new(alloc));
    };
    let mut chain = along(alloc, arcs, first)?;
    for used in others {
        let mut more = along(alloc, arcs, used)?;
        chain.pop();
        chain.append(&mut more)?;
    }
    Ok(chain)
}

/// The place of the least vertex of a ring.
fn index_of_least(ring: &[Pos]) -> usize
    ensures { result ≡ least_vertex ring.now }
{
    ring.iter().position_min().unwrap_or(0)
}

/// A closed chain, read from its least vertex.
fn read_from_least(chain: Vec<Pos>) -> Result<Vec<Pos>, AllocError>
    ensures { IfOk result (λ v. v.items ≡ from_least chain.items) }
{
    let mut ring = chain;
    ring.pop();
    let place = index_of_least(&ring);
    ring.rotate_left(place);
    if let Some(first) = ring.first().copied() {
        ring.push(first)?;
    }
    Ok(ring)
}

/// The chain of a run, which may go round.
fn joined_chain(
    alloc: Global,
    arcs: &ArcTable,
    run: &[ArcRef],
    round: bool,
) -> Result<Vec<Pos>, AllocError>
    ensures { IfOk result (λ v. v.items ≡ chain_by arcs.now.arcs round run.now) }
{
    let chain = chain_of(alloc, arcs, run)?;
    if round {
        return read_from_least(chain);
    }
    Ok(chain)
}

/// A run in one of its directions.
fn direct_run(alloc: Global, run: ArcRun, reversed: bool) -> Result<ArcRun, AllocError>
    ensures { IfOk result (λ r. r ≡ spec.directed reversed run) }
{
    if reversed {
        return run.backwards(alloc);
    }
    Ok(run)
}

/// The list of a run; that of one which goes round begins where it starts least.
fn list_run(arcs: &ArcTable, run: ArcRun, round: bool) -> ArcRun
    ensures { result ≡ list_by arcs.now.arcs round run }
{
    if round { run.turn_round(arcs) } else { run }
}

fn goes_round(meeting: &PseudoNodes, run: &[ArcRef]) -> bool
    ensures { result ≡ spec.goes_round (partner_in meeting.now) run.now }
{
    match run.first() {
        Some(first) => meeting.partner(*first).is_some(),
        None => false,
    }
}

/// The arc that a run is, ahead and from end to end, where it is one arc alone.
fn whole_arc(run: &[ArcRef], round: bool) -> Option<usize>
    ensures { result ≡ spec.whole_arc round run.now }
{
    let [used] = run else {
        return None;
    };
    if round || used.reversed {
        return None;
    }
    Some(used.arc)
}

/// The piece of a run. That of a whole arc shares the arc's positions.
fn piece_of(
    alloc: Global,
    arcs: &ArcTable,
    run: &[ArcRef],
    round: bool,
) -> Result<Piece, AllocError>
    ensures { IfOk result (λ p. p ≡ piece_by arcs.now.arcs round run.now) }
{
    if let Some(number) = whole_arc(run, round) {
        if let Some(piece) = arcs.piece(alloc, number, false)? {
            return Ok(piece);
        }
    }
    let chain = joined_chain(alloc, arcs, run, round)?;
    Piece::new(alloc, chain, round)
}

/// Adds what a run is joined to.
fn add_joined(
    alloc: Global,
    arcs: &ArcTable,
    meeting: &PseudoNodes,
    joined: &mut JoinedRuns,
    run: ArcRun,
) -> Result<(), AllocError>
    ensures pieces { OnOk result (joined.new.pieces.items ≡ joined.old.pieces.items ++ (piece_of_run arcs.now.arcs (partner_in meeting.now) run ∷ [])) }
    ensures lists { OnOk result (joined.new.lists.items ≡ joined.old.lists.items ++ (list_of_run arcs.now.arcs (partner_in meeting.now) run ∷ [])) }
{
    let round = goes_round(meeting, run.as_slice());
    let piece = piece_of(alloc, arcs, run.as_slice(), round)?;
    let run = direct_run(alloc, run, piece.reversed())?;
    joined.pieces.push(piece)?;
    joined.lists.push(list_run(arcs, run, round))?;
    Ok(())
}

/// What runs are joined to.
pub(crate) fn joined_of(
    alloc: Global,
    arcs: &ArcTable,
    meeting: &PseudoNodes,
    runs: Vec<ArcRun>,
) -> Result<JoinedRuns, AllocError>
    ensures pieces { IfOk result (λ j. j.pieces.items ≡ map_list (piece_of_run arcs.now.arcs (partner_in meeting.now)) runs.items) }
    ensures lists { IfOk result (λ j. j.lists.items ≡ map_list (list_of_run arcs.now.arcs (partner_in meeting.now)) runs.items) }
{
    let mut joined = JoinedRuns {
        pieces: Vec::with_capacity(alloc, runs.len())?,
        lists: Vec::with_capacity(alloc, runs.len())?,
    };
    for run in runs {
        add_joined(alloc, arcs, meeting, &mut joined, run)?;
    }
    Ok(joined)
}

/// Puts a list at a place, where there is one.
fn put(lists: &mut Vec<ArcRun>, place: usize, list: ArcRun)
    ensures { lists.new.items ≡ slice_set lists.old.items place list }
{
    if place < lists.len() {
        lists[place] = list;
    }
}

fn empty_lists(alloc: Global, count: usize) -> Result<Vec<ArcRun>, AllocError>
    ensures { IfOk result (λ v. v.items ≡ replicate count []) }
{
    let mut lists = Vec::with_capacity(alloc, count)?;
    for _ in 0..count {
        lists.push(ArcRun::empty(alloc))?;
    }
    Ok(lists)
}

/// Lists by the numbers of their arcs.
pub(crate) fn by_numbers(
    alloc: Global,
    refs: &[ArcRef],
    lists: Vec<ArcRun>,
    count: usize,
) -> Result<Vec<ArcRun>, AllocError>
    ensures { IfOk result (λ v. v.items ≡ put_all refs.now lists.items (replicate count [])) }
{
    let mut placed = empty_lists(alloc, count)?;
    let mut left = refs;
    for list in lists {
        if let Some((used, others)) = left.split_first() {
            put(&mut placed, used.arc, list);
            left = others;
        }
    }
    Ok(placed)
}
