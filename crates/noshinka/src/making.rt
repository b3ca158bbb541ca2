//! From borrowed texts to the texts of topologies.
ghost use Rattle.outputs.specs.BuiltText.Maps.{IsTextOfTexts};
ghost use Rattle.merging.specs.Merge.{borrowed_texts, IsMergeOf};
ghost use Rattle.noshinka.specs.Answers.{IsRemoval, IsTextWithout};
ghost use Rattle.c_calls.specs.Borrowed.{grid_of, borrowed_sources};
ghost use Rattle.c_calls.specs.Why.{IsBuildRefusal, IsMergeRefusal, IsOtherGrid, IsRemoveRefusal};
ghost use Rattle.std.specs.List.{range_with_len};
ghost use Rattle.std.specs.Prelude.{◌≡◌, ◌↔◌, IfErr, IfOk, length, true};

use crate::topologies::topology_of;
use c_calls::borrowed::{GridNumbers, SourceText, borrow_sources, grid_within};
use c_calls::refusal::CallRefusal;
use outputs::built_text::build_borrowed;
use refine::{JoinFault, merge_borrowed_topologies, remove_topology};
use std::alloc::Global;
use topo::Topology;

/// The canonical text of the topology of GeoJSON texts.
#[tactic(auto, using(crate::proofs::Refusals::bad_source_refused, crate::proofs::Refusals::of_build_refused))]
pub(crate) fn build(
    alloc: Global,
    grid: &GridNumbers,
    sources: &[SourceText<'_>],
) -> Result<Vec<u8>, CallRefusal>
    ensures built { IfOk result (λ t. IsTextOfTexts (grid_of grid.now) (borrowed_sources sources.now) t.items) }
    ensures refused { IfErr result (IsBuildRefusal (grid_of grid.now) (borrowed_sources sources.now)) }
{
    let Some(grid) = grid_within(grid) else {
        return Err(CallRefusal::BadGrid);
    };
    let texts = match borrow_sources(alloc, sources) {
        Ok(texts) => texts,
        Err(refusal) => return Err(refusal),
    };
    match build_borrowed(alloc, &grid, texts.as_slice()) {
        Ok(text) => Ok(text),
        Err(fault) => Err(CallRefusal::of_build(fault)),
    }
}

/// The canonical text of the union of the features of topologies' texts, none of which is copied.
#[tactic(auto, using(crate::proofs::Refusals::of_merge_refused))]
pub(crate) fn merge(alloc: Global, texts: &[&[u8]]) -> Result<Vec<u8>, CallRefusal>
    ensures merged { IfOk result (λ t. IsMergeOf (borrowed_texts texts.now) (range_with_len 0 (length texts.now)) t.items) }
    ensures refused { IfErr result (IsMergeRefusal (borrowed_texts texts.now)) }
{
    match merge_borrowed_topologies(alloc, texts)? {
        Some(topology) => Ok(topo_io::text_of(alloc, &topology)?),
        None => Err(CallRefusal::NoText),
    }
}

/// The canonical text of a topology without the features of another one.
#[tactic(auto, using(crate::proofs::Removals::rest_text))]
fn text_without(
    alloc: Global,
    topology: &Topology,
    removed: &Topology,
) -> Result<Vec<u8>, CallRefusal>
    ensures removed { IfOk result (λ t. IsTextWithout topology.now removed.now t.items) }
    ensures refused { IfErr result (IsOtherGrid topology.now.grid removed.now.grid) }
{
    if !topology.is_on_grid_of(removed) {
        return Err(CallRefusal::OtherGrid(1));
    }
    match remove_topology(alloc, topology, removed) {
        Ok(removal) => Ok(topo_io::text_of(alloc, removal.topology())?),
        Err(JoinFault::OtherGrid) => Err(CallRefusal::OtherGrid(1)),
        Err(JoinFault::OutOfMemory) => Err(CallRefusal::OutOfMemory),
    }
}

/// The canonical text of a topology's text without the features of another text.
#[tactic(auto, using(crate::proofs::Removals::first_refused, crate::proofs::Removals::second_refused, crate::proofs::Removals::other_grids, crate::proofs::Removals::removal_answer))]
pub(crate) fn remove(alloc: Global, text: &[u8], removed: &[u8]) -> Result<Vec<u8>, CallRefusal>
    ensures removed { IfOk result (λ t. IsRemoval text.now removed.now t.items) }
    ensures refused { IfErr result (IsRemoveRefusal text.now removed.now) }
{
    let topology = match topology_of(alloc, 0, text) {
        Ok(topology) => topology,
        Err(refusal) => return Err(refusal),
    };
    match topology_of(alloc, 1, removed) {
        Ok(others) => text_without(alloc, &topology, &others),
        Err(refusal) => Err(refusal),
    }
}
