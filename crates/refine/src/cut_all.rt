//! The join of many topologies at once: the arcs of all are cut again, each one's geometries follow the
//! pieces once, and the sorted layers are merged two by two.
ghost use Rattle.grid.specs.Place.{Transform};
ghost use Rattle.merging.specs.Plans.{AreOnOneGrid, union_all};
ghost use Rattle.merging.specs.declared.fault.JoinFault.TheVariants.{OtherGrid};
ghost use Rattle.refine.specs.ManyLayers.{ArePartsOfAll, AreLayersOf, layers_in, layers_recut_from, maps_of};
ghost use Rattle.shapes.specs.Maps.{Layers};
ghost use Rattle.std.specs.Prelude.{◌≡◌, ◌<◌, ◌^◌, ◌↔◌, All, IfOk, IsErrOf, List, length};
ghost use Rattle.theory.specs.Lists.{Pairwise};
ghost use Rattle.topo.specs.GeometryOrder.Noded.{AreNoded};
ghost use Rattle.topo.specs.OfMap.{IsOf};

use crate::cut::{Cut, layers_of_both};
use crate::fault::JoinFault;
use chains::table::ArcTable;
use faults::OutOfMemory;
use grid::transform::Grid;
use merging::{ByHalves, JoinMany, are_on_one_grid};
use split_heal::{RecutAll, recut_all};
use std::alloc::Global;
use std::collections::VecDeque;
use topo::{Layer, Topology, layers_rewritten};

/// So many shards are joined two at a time: the boxes of two tables spare more than one index over both.
const MOST_IN_PAIRS: usize = 2;

/// The arcs and the layers of shards.
fn parts_of_all(
    alloc: Global,
    shards: Vec<Cut>,
) -> Result<(Vec<ArcTable>, Vec<Vec<Layer>>), OutOfMemory>
    ensures { IfOk result (λ p. ArePartsOfAll (maps_of shards.items) p.0.items (layers_in p.1.items)) }
{
    let mut tables = Vec::with_capacity(alloc, shards.len())?;
    let mut lists = Vec::with_capacity(alloc, shards.len())?;
    for shard in shards {
        let (arcs, layers) = shard.into_topology().into_parts();
        tables.push(arcs)?;
        lists.push(layers)?;
    }
    Ok((tables, lists))
}

/// The layers of each table by the new arcs.
fn layers_by_new_arcs(
    alloc: Global,
    recut: &RecutAll,
    lists: Vec<Vec<Layer>>,
) -> Result<VecDeque<Vec<Layer>>, OutOfMemory>
    ensures { IfOk result (λ v. layers_in v.items ≡ layers_recut_from recut.now 0 (layers_in lists.items)) }
{
    let mut rewritten = VecDeque::with_capacity(alloc, lists.len())?;
    let mut table = 0;
    for layers in lists {
        rewritten.push_back(layers_rewritten(alloc, &recut.lists(table), layers)?)?;
        table += 1;
    }
    Ok(rewritten)
}

/// The layers of all lists as one. The first two are merged and put last, until one is left.
fn layers_of_all(
    alloc: Global,
    arcs: &ArcTable,
    lists: VecDeque<Vec<Layer>>,
) -> Result<Vec<Layer>, OutOfMemory>
    requires noded { AreNoded arcs.now.arcs }
    requires maps { (u : Layers) × (maps : List Layers) × Pairwise (AreLayersOf u arcs.now.arcs) maps (layers_in lists.items) }
    ensures { IfOk result (λ v. (u : Layers) (maps : List Layers) → Pairwise (AreLayersOf u arcs.now.arcs) maps (layers_in lists.items) → AreLayersOf u arcs.now.arcs (union_all maps) v.items) }
{
    let mut left = lists;
    'rounds: while let Some(first) = left.pop_front() {
        let Some(second) = left.pop_front() else {
            return Ok(first);
        };
        left.push_back(layers_of_both(alloc, arcs, first, second)?)?;
    }
    Ok(Vec::new(alloc))
}

/// The topology of the features of all shards on a grid.
fn unite_all(alloc: Global, grid: Grid, shards: Vec<Cut>) -> Result<Topology, OutOfMemory>
    ensures grid { IfOk result (λ t. t.grid ≡ grid) }
    ensures of_map { IfOk result (IsOf (union_all (maps_of shards.items))) }
    ensures few { IfOk result (λ t. length t.arcs.arcs < 2 ^ 63) }
{
    let (tables, lists) = parts_of_all(alloc, shards)?;
    let cut = recut_all(alloc, tables)?;
    let rewritten = layers_by_new_arcs(alloc, &cut, lists)?;
    let arcs = cut.into_arcs();
    let layers = layers_of_all(alloc, &arcs, rewritten)?;
    Ok(Topology::from_parts_without_bbox(grid, arcs, layers))
}

/// The shard of the features of all, whose arcs are cut again at once.
fn join_at_once(alloc: Global, shards: Vec<Cut>) -> Result<Cut, JoinFault>
    requires some { 0 < length shards.items }
    ensures union { IfOk result (λ s. s.map ≡ union_all (maps_of shards.items)) }
    ensures grid { (g : Transform) → All (λ s. s.grid ≡ g) shards.items → IfOk result (λ s. s.grid ≡ g) }
    ensures other_grid { IsErrOf result OtherGrid ↔ ¬ AreOnOneGrid (λ s. s.grid) shards.items }
{
    if !are_on_one_grid(&shards) {
        return Err(JoinFault::OtherGrid);
    }
    let grid = shards[0].topology().grid();
    let topology = unite_all(alloc, grid, shards)?;
    Ok(Cut::of_topology(topology))
}

/// All at once: the arcs of all shards are cut again together. Two are joined two at a time.
pub struct AtOnce;

impl JoinMany<Cut> for AtOnce {
    fn join_many(alloc: Global, shards: Vec<Cut>) -> Result<Cut, JoinFault>
        requires some { 0 < length shards.items }
        ensures union { IfOk result (λ s. s.map ≡ union_all (maps_of shards.items)) }
        ensures grid { (g : Transform) → All (λ s. s.grid ≡ g) shards.items → IfOk result (λ s. s.grid ≡ g) }
        ensures other_grid { IsErrOf result OtherGrid ↔ ¬ AreOnOneGrid (λ s. s.grid) shards.items }
    {
        if shards.len() <= MOST_IN_PAIRS {
            return ByHalves::join_many(alloc, shards);
        }
        join_at_once(alloc, shards)
    }
}
