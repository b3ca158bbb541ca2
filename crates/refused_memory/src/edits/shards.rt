//! Shards of both kinds, merges of texts by way of them, and plans.

use faults::{FaultKind, OutOfMemory};
use grid::Grid;
use merging::{
    JoinFault, MergeFault, Plan, Shard, first_bad_leaf, merge_all, merge_all_by, merge_as,
    merge_as_by, named_indexes,
};
use refine::cut_all::AtOnce;
use refine::{Cut, Whole, merge_borrowed_topologies, merge_topologies};
use refused_calls::calls;
use refused_calls::calls::Borrowed;
use refused_calls::comparing::same_map;
use refused_calls::inputs::{is_of, read};
use refused_calls::outcome::{Answer, Tally};
use refused_calls::tables::both;
use refused_calls::texts::{FIRST, SECOND, SHARED_EDGE};
use shapes::FeatureMap;
use std::alloc::Global;
use topo::Topology;

/// Two squares as shards, the map of the first with a copy, and a plan of their texts.
#[derive(Drop)]
struct Pair<S> {
    left: S,
    right: S,
    grid: Grid,
    map: FeatureMap,
    copy: FeatureMap,
    plan: Plan,
}

fn plan_of_two(alloc: Global) -> Option<Plan> {
    Plan::left(alloc, 2).ok()?
}

impl<S: Shard> Pair<S> {
    fn of(alloc: Global) -> Option<Pair<S>> {
        let grid = Grid::new(1, 1, 0, 0)?;
        let (map, copy) = both(read(alloc, FIRST), read(alloc, FIRST))?;
        let left = S::from_map(alloc, &grid, &map).ok();
        let right = S::of_text(alloc, SECOND.as_bytes()).ok();
        let rest = both(plan_of_two(alloc), Some((map, copy)));
        let ((left, right), (plan, (map, copy))) = both(both(left, right), rest)?;
        Some(Pair {
            left,
            right,
            grid,
            map,
            copy,
            plan,
        })
    }
}

impl<S: Shard> Borrowed for Pair<S> {
    fn is_as_before(&self) -> bool {
        same_map(&self.map, &self.copy) && self.left.grid() == self.grid
    }

    fn is_as_made(&self, alloc: Global) -> Answer {
        Answer::of_result(are_as_made(alloc, self))
    }
}

fn are_as_made<S: Shard>(alloc: Global, pair: &Pair<S>) -> Result<bool, OutOfMemory> {
    Ok(is_shard(alloc, &pair.left, FIRST)? && is_shard(alloc, &pair.right, SECOND)?)
}

fn is_shard<S: Shard>(alloc: Global, shard: &S, text: &str) -> Result<bool, OutOfMemory> {
    Ok(shard.text(alloc)?.as_slice() == text.as_bytes())
}

fn from_map<S: Shard>(alloc: Global, pair: &Pair<S>) -> Result<bool, OutOfMemory> {
    let shard = S::from_map(alloc, &pair.grid, &pair.map)?;
    is_shard(alloc, &shard, FIRST)
}

fn of_text<S: Shard>(alloc: Global, _: &Pair<S>) -> Result<bool, OutOfMemory> {
    match S::of_text(alloc, FIRST.as_bytes()) {
        Ok(shard) => is_shard(alloc, &shard, FIRST),
        Err(fault) => match fault.kind {
            FaultKind::OutOfMemory => Err(OutOfMemory),
            _ => Ok(false),
        },
    }
}

fn copy<S: Shard>(alloc: Global, pair: &Pair<S>) -> Result<bool, OutOfMemory> {
    let shard = pair.left.copy(alloc)?;
    is_shard(alloc, &shard, FIRST)
}

fn is_join<S: Shard>(alloc: Global, made: Result<S, JoinFault>) -> Result<bool, OutOfMemory> {
    match made {
        Ok(shard) => is_shard(alloc, &shard, SHARED_EDGE),
        Err(JoinFault::OutOfMemory) => Err(OutOfMemory),
        Err(JoinFault::OtherGrid) => Ok(false),
    }
}

fn join<S: Shard>(alloc: Global, pair: &Pair<S>) -> Result<bool, OutOfMemory> {
    is_join(alloc, pair.left.join(alloc, &pair.right))
}

fn join_owned<S: Shard>(alloc: Global, pair: &Pair<S>) -> Result<bool, OutOfMemory> {
    let left = pair.left.copy(alloc)?;
    let right = pair.right.copy(alloc)?;
    is_join(alloc, left.join_owned(alloc, right))
}

fn text<S: Shard>(alloc: Global, pair: &Pair<S>) -> Result<bool, OutOfMemory> {
    is_shard(alloc, &pair.right, SECOND)
}

fn texts(alloc: Global) -> Result<Vec<Vec<u8>>, OutOfMemory> {
    let mut texts = Vec::new(alloc);
    texts.push(FIRST.as_bytes().to_vec(alloc)?)?;
    texts.push(SECOND.as_bytes().to_vec(alloc)?)?;
    Ok(texts)
}

/// What a merge answers; where it is refused, want of memory alone is told as such.
fn merged<T: Drop>(made: Result<T, MergeFault>) -> Result<Option<T>, OutOfMemory> {
    match made {
        Ok(made) => Ok(Some(made)),
        Err(MergeFault::OutOfMemory) => Err(OutOfMemory),
        Err(_) => Ok(None),
    }
}

fn is_merged_shard<S: Shard>(
    alloc: Global,
    made: Result<Option<S>, MergeFault>,
) -> Result<bool, OutOfMemory> {
    match merged(made)? {
        Some(Some(shard)) => is_shard(alloc, &shard, SHARED_EDGE),
        _ => Ok(false),
    }
}

fn merge_to_shard<S: Shard>(alloc: Global, _: &Pair<S>) -> Result<bool, OutOfMemory> {
    let made: Result<Option<S>, MergeFault> = merge_all(alloc, texts(alloc)?);
    is_merged_shard(alloc, made)
}

fn merge_at_once_to_shard(alloc: Global, _: &Pair<Cut>) -> Result<bool, OutOfMemory> {
    let made: Result<Option<Cut>, MergeFault> = merge_all_by::<Cut, AtOnce, Vec<u8>>(
        alloc,
        texts(alloc)?,
    );
    is_merged_shard(alloc, made)
}

fn merge_borrowed_to_shard<S: Shard>(alloc: Global, _: &Pair<S>) -> Result<bool, OutOfMemory> {
    let texts = [FIRST.as_bytes(), SECOND.as_bytes()]
        .as_slice()
        .to_vec(alloc)?;
    let made: Result<Option<S>, MergeFault> = merge_all(alloc, texts);
    is_merged_shard(alloc, made)
}

fn merge_to_text<S: Shard>(alloc: Global, pair: &Pair<S>) -> Result<bool, OutOfMemory> {
    let texts = texts(alloc)?;
    match merged(merge_as::<S>(alloc, texts.as_slice(), &pair.plan))? {
        Some(text) => Ok(text.as_slice() == SHARED_EDGE.as_bytes()),
        None => Ok(false),
    }
}

fn merge_at_once_to_text(alloc: Global, pair: &Pair<Cut>) -> Result<bool, OutOfMemory> {
    let texts = texts(alloc)?;
    match merged(merge_as_by::<Cut, AtOnce>(alloc, texts.as_slice(), &pair.plan))? {
        Some(text) => Ok(text.as_slice() == SHARED_EDGE.as_bytes()),
        None => Ok(false),
    }
}

fn is_merged_topology(made: Result<Option<Topology>, MergeFault>) -> Result<bool, OutOfMemory> {
    match merged(made)? {
        Some(Some(topology)) => Ok(is_of(&topology, SHARED_EDGE)),
        _ => Ok(false),
    }
}

fn merge_to_topology(alloc: Global, _: &Pair<Cut>) -> Result<bool, OutOfMemory> {
    is_merged_topology(merge_topologies(alloc, texts(alloc)?))
}

fn merge_borrowed_to_topology(alloc: Global, _: &Pair<Cut>) -> Result<bool, OutOfMemory> {
    let texts = [FIRST.as_bytes(), SECOND.as_bytes()];
    is_merged_topology(merge_borrowed_topologies(alloc, &texts))
}

fn name_indexes(alloc: Global, _: &Pair<Cut>) -> Result<bool, OutOfMemory> {
    let named = named_indexes(alloc, &Plan::Leaf(1), 3)?;
    Ok(named.as_slice() == [false, true, false].as_slice())
}

/// Its answer is the same where memory is refused.
fn find_leaf(alloc: Global, _: &Pair<Cut>) -> Result<bool, OutOfMemory> {
    match Plan::left(alloc, 4)? {
        Some(plan) => Ok(first_bad_leaf(alloc, &plan, 2) == Some(2)),
        None => Ok(false),
    }
}

fn test_wholes(rt: &HostRuntime, tally: &mut Tally, pair: &Pair<Whole>) {
    calls!(tally.attempt(rt, "whole shards", pair);
        "Shard::from_map of Whole" => from_map::<Whole>,
        "Shard::of_text of Whole" => of_text::<Whole>,
        "Shard::copy of Whole" => copy::<Whole>,
        "Shard::join of Whole" => join::<Whole>,
        "Shard::join_owned of Whole" => join_owned::<Whole>,
        "Shard::text of Whole" => text::<Whole>,
        "merging::merge_all of Whole" => merge_to_shard::<Whole>,
        "merging::merge_all of borrowed texts of Whole" => merge_borrowed_to_shard::<Whole>,
        "merging::merge_as of Whole" => merge_to_text::<Whole>,
    );
}

fn test_cuts(rt: &HostRuntime, tally: &mut Tally, pair: &Pair<Cut>) {
    calls!(tally.attempt(rt, "cut shards", pair);
        "Shard::from_map of Cut" => from_map::<Cut>,
        "Shard::of_text of Cut" => of_text::<Cut>,
        "Shard::copy of Cut" => copy::<Cut>,
        "Shard::join of Cut" => join::<Cut>,
        "Shard::join_owned of Cut" => join_owned::<Cut>,
        "Shard::text of Cut" => text::<Cut>,
        "merging::merge_all of Cut" => merge_to_shard::<Cut>,
        "merging::merge_all of borrowed texts of Cut" => merge_borrowed_to_shard::<Cut>,
        "merging::merge_as of Cut" => merge_to_text::<Cut>,
        "merging::merge_all_by" => merge_at_once_to_shard,
        "merging::merge_as_by" => merge_at_once_to_text,
        "refine::merge_topologies" => merge_to_topology,
        "refine::merge_borrowed_topologies" => merge_borrowed_to_topology,
        "merging::named_indexes" => name_indexes,
        "merging::first_bad_leaf" => find_leaf,
    );
}

/// Makes each call of shards.
pub(crate) fn test(rt: &HostRuntime, tally: &mut Tally) {
    if let Some(pair) = tally.borrowed(rt, "whole shards", "the shards", Pair::<Whole>::of) {
        test_wholes(rt, tally, &pair);
    }
    if let Some(pair) = tally.borrowed(rt, "cut shards", "the shards", Pair::<Cut>::of) {
        test_cuts(rt, tally, &pair);
    }
}
