//! Joining shards, which keep maps (`whole`) or keep topologies and cut arcs again (`cut`).

use refine::{Cut, Plan, Shard, Whole, run_plan};
use std::alloc::Global;
use std::fs;

/// The grouping that a word names, for so many shards.
fn plan_of(alloc: Global, shape: &str, count: usize) -> Option<Plan> {
    match shape {
        "left" => Plan::left(alloc, count).ok()?,
        "right" => Plan::right(alloc, count).ok()?,
        "halves" => Plan::halves(alloc, count).ok()?,
        _ => None,
    }
}

/// The shard of a file's topology.
fn read_shard<S: Shard>(rt: &HostRuntime, name: &str) -> Option<S> {
    let bytes = fs::read(rt, name).ok()?;
    S::of_text(rt.alloc(), bytes.as_slice()).ok()
}

/// The text of the shards' join in a grouping.
fn merged<S: Shard>(rt: &HostRuntime, shape: &str, names: &[String]) -> Option<Vec<u8>> {
    let alloc = rt.alloc();
    let mut shards: Vec<S> = Vec::with_capacity(alloc, names.len()).ok()?;
    for name in names {
        shards.push(read_shard(rt, name.as_str())?).ok()?;
    }
    let plan = plan_of(alloc, shape, shards.len())?;
    let shard = run_plan(alloc, shards.as_slice(), &plan).ok()?;
    shard.text(alloc).ok()
}

/// The text of what topology texts make together.
pub fn merge(rt: &HostRuntime, words: &[String]) -> Option<Vec<u8>> {
    let (kind, others) = words.split_first()?;
    let (shape, names) = others.split_first()?;
    match kind.as_str() {
        "whole" => merged::<Whole>(rt, shape.as_str(), names),
        "cut" => merged::<Cut>(rt, shape.as_str(), names),
        _ => None,
    }
}
