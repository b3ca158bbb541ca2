//! Merging texts of topologies.
ghost use Rattle.merging.specs.Leaves.{leaves, first_outside};
ghost use Rattle.merging.specs.Merge.{all_indexes, bytes_of, AreKept, IsFaultOf, IsGridOf, IsReadFault, IsRefusalOf, IsMergeFault, IsMergeOf, IsUnionOf, MeansUnion};
ghost use Rattle.merging.specs.Naming.{AreMarksOf};
ghost use Rattle.merging.specs.Plans as stated;
ghost use Rattle.merging.specs.Plans.{off_grid};
ghost use Rattle.merging.specs.declared.fault.MergeFault.TheVariants.{BadPlan};
ghost use Rattle.std.specs.Prelude.{◌≡◌, ◌<◌, ℕ, List, IfOk, IfErr, MatchOption, Some, Err, length, map};
ghost use Rattle.topo_io.specs.Means.{Means};

use crate::fault::MergeFault;
use crate::join_many::{ByHalves, JoinMany};
use crate::plan::{Plan, first_bad_leaf, named_indexes};
use crate::shard::{Shard, same_grid};
use faults::{Fault, FaultKind};
use grid::transform::Grid;
use std::alloc::{AllocError, Global};
use std::convert::AsSlice;

// The reader's fault of the text of that number.
fn text_refused(number: usize, fault: Fault) -> MergeFault
    ensures { IsFaultOf number fault result }
{
    match fault.kind {
        FaultKind::OutOfMemory => MergeFault::OutOfMemory,
        _ => MergeFault::Text(number, fault),
    }
}

// The shard of the text of that number.
fn read_shard<S: Shard>(alloc: Global, number: usize, text: &[u8]) -> Result<S, MergeFault>
    ensures fault { IfErr result (IsRefusalOf number text.now) }
    ensures means { IfOk result (λ s. Means text.now (S.grid_of s) (S.map_of s)) }
{
    match S::of_text(alloc, text) {
        Ok(shard) => Ok(shard),
        Err(fault) => Err(text_refused(number, fault)),
    }
}

// The grid of the text of that number. The map that the text means is dropped at once.
fn read_grid(alloc: Global, number: usize, text: &[u8]) -> Result<Grid, MergeFault>
    ensures fault { IfErr result (IsRefusalOf number text.now) }
    ensures means { IfOk result (IsGridOf text.now) }
{
    match topo_io::read(alloc, text) {
        Ok((grid, _map)) => Ok(grid),
        Err(fault) => Err(text_refused(number, fault)),
    }
}

// The grids of texts, in their order, and the shards of those that are marked. Of a text that is not marked only the
// grid is kept. Each text is dropped once it is read.
fn read_marked<S: Shard, T: AsSlice<u8> + Drop>(
    alloc: Global,
    texts: Vec<T>,
    marks: &[bool],
) -> Result<(Vec<Grid>, Vec<S>), MergeFault>
    requires marks { length marks.now ≡ length texts.items }
    ensures fault { IfErr result (IsReadFault (map T.items texts.items)) }
    ensures read { IfOk result (λ p. AreKept S.grid_of S.map_of (map T.items texts.items) marks.now p.0.items p.1.items) }
{
    let mut grids = Vec::new(alloc);
    let mut shards = Vec::new(alloc);
    let mut number = 0;
    let mut left = texts.into_iter();
    while let Some(text) = left.next() {
        if marks[number] {
            match read_shard::<S>(alloc, number, text.as_slice()) {
                Ok(shard) => {
                    grids.push(shard.grid())?;
                    shards.push(shard)?;
                }
                Err(fault) => return Err(fault),
            }
        } else {
            match read_grid(alloc, number, text.as_slice()) {
                Ok(grid) => grids.push(grid)?,
                Err(fault) => return Err(fault),
            }
        }
        number += 1;
    }
    Ok((grids, shards))
}

// The number of the first grid that is not this one.
fn first_off(grids: &[Grid], common: &Grid) -> Option<usize>
    ensures { result ≡ off_grid (λ g. g) common.now grids.now }
{
    grids.iter().position(|grid| !same_grid(grid, common))
}

// The number of the first grid that is not the first one's.
fn first_other(grids: &[Grid]) -> Option<usize>
    ensures { result ≡ stated.first_other (λ g. g) grids.now }
{
    let Some(first) = grids.first() else {
        return None;
    };
    first_off(grids, first)
}

// The texts themselves, borrowed.
fn borrow_texts<T>(alloc: Global, texts: &[T]) -> Result<Vec<&T>, AllocError>
    ensures { IfOk result (λ v. map (λ t. t.now) v.items ≡ texts.now) }
{
    texts.iter().collect(alloc)
}

// The shard of the union of the features of the texts whose marks are set, joined in a chosen way. Each
// text is dropped once it is read.
fn merge_marked<S: Shard, J: JoinMany<S>, T: AsSlice<u8> + Drop>(
    alloc: Global,
    texts: Vec<T>,
    marks: &[bool],
) -> Result<S, MergeFault>
    requires marked { (is : List ℕ) × (0 < length is) × AreMarksOf (length texts.items) is marks.now }
    ensures fault { (is : List ℕ) → AreMarksOf (length texts.items) is marks.now → IfErr result (IsMergeFault (map T.items texts.items) is) }
    ensures merged { (is : List ℕ) → AreMarksOf (length texts.items) is marks.now → IfOk result (λ s. IsUnionOf (map T.items texts.items) is (S.grid_of s) (S.map_of s)) }
{
    let (grids, shards): (Vec<Grid>, Vec<S>) = read_marked(alloc, texts, marks)?;
    if let Some(number) = first_other(&grids) {
        return Err(MergeFault::OtherGrid(number));
    }
    match J::join_many(alloc, shards) {
        Ok(shard) => Ok(shard),
        Err(_) => Err(MergeFault::OutOfMemory),
    }
}

/// The shard of the union of the features of all texts, owned or borrowed, joined in a chosen way; `None` exactly where
/// there is no text. Neither the way nor the texts' order in the list makes a difference to what the shard means. Each
/// text is dropped once it is read, so the memory of an owned one is free for what follows.
///
/// # Errors
/// `Text` with the first text of the list that is refused, and its first error; otherwise `OtherGrid` with the first
/// text whose transform differs from that of text 0.
pub fn merge_all_by<S: Shard, J: JoinMany<S>, T: AsSlice<u8> + Drop>(
    alloc: Global,
    texts: Vec<T>,
) -> Result<Option<S>, MergeFault>
    ensures fault { IfErr result (IsMergeFault (map T.items texts.items) (all_indexes texts.items)) }
    ensures merged { IfOk result (λ o. MatchOption o (length texts.items ≡ 0) (λ s. IsUnionOf (map T.items texts.items) (all_indexes texts.items) (S.grid_of s) (S.map_of s))) }
{
    if texts.is_empty() {
        return Ok(None);
    }
    let marks = vec![in alloc; true; texts.len()]?;
    let shard = merge_marked::<S, J, T>(alloc, texts, &marks)?;
    Ok(Some(shard))
}

/// The shard of the union of the features of all texts, owned or borrowed; `None` exactly where there is no text. They
/// are joined by halves, along a Z-order curve, whatever their order in the list, which makes no difference to what the
/// shard means. Each text is dropped once it is read, so the memory of an owned one is free for what follows.
///
/// # Errors
/// `Text` with the first text of the list that is refused, and its first error; otherwise `OtherGrid` with the first
/// text whose transform differs from that of text 0.
pub fn merge_all<S: Shard, T: AsSlice<u8> + Drop>(
    alloc: Global,
    texts: Vec<T>,
) -> Result<Option<S>, MergeFault>
    ensures fault { IfErr result (IsMergeFault (map T.items texts.items) (all_indexes texts.items)) }
    ensures merged { IfOk result (λ o. MatchOption o (length texts.items ≡ 0) (λ s. IsUnionOf (map T.items texts.items) (all_indexes texts.items) (S.grid_of s) (S.map_of s))) }
{
    merge_all_by::<S, ByHalves, T>(alloc, texts)
}

/// The canonical text of the union of the features of the texts that the plan names, merged over shards of a chosen
/// kind and joined in a chosen way. Each is joined once, whatever the plan's order and grouping, which make no
/// difference to the text. The texts stay.
///
/// # Errors
/// `BadPlan` with the first leaf from the left that is no index of the list; otherwise `Text` with
/// the first text of the list that is refused, and its first error; otherwise `OtherGrid` with the
/// first text whose transform differs from that of text 0. All texts are read, also those that the
/// plan does not name.
pub fn merge_as_by<S: Shard, J: JoinMany<S>>(
    alloc: Global,
    texts: &[Vec<u8>],
    plan: &Plan,
) -> Result<Vec<u8>, MergeFault>
    ensures bad_plan { (k : ℕ) → first_outside (length texts.now) (leaves plan.now) ≡ Some k → result ≡ Err (BadPlan k) }
    ensures fault { IfErr result (IsMergeFault (bytes_of texts.now) (leaves plan.now)) }
    ensures merged { IfOk result (λ t. IsMergeOf (bytes_of texts.now) (leaves plan.now) t.items) }
    ensures accepted { IfOk result (λ t. MeansUnion (bytes_of texts.now) (leaves plan.now) t.items) }
{
    if let Some(leaf) = first_bad_leaf(alloc, plan, texts.len()) {
        return Err(MergeFault::BadPlan(leaf));
    }
    let marks = named_indexes(alloc, plan, texts.len())?;
    let shard = merge_marked::<S, J, &Vec<u8>>(alloc, borrow_texts(alloc, texts)?, &marks)?;
    Ok(shard.text(alloc)?)
}

/// The canonical text of the union of the features of the texts that the plan names, merged over shards of a chosen
/// kind. Each is joined once, by halves and along a Z-order curve, whatever the plan's order and grouping, which
/// make no difference to the text. The texts stay.
///
/// # Errors
/// `BadPlan` with the first leaf from the left that is no index of the list; otherwise `Text` with
/// the first text of the list that is refused, and its first error; otherwise `OtherGrid` with the
/// first text whose transform differs from that of text 0. All texts are read, also those that the
/// plan does not name.
pub fn merge_as<S: Shard>(
    alloc: Global,
    texts: &[Vec<u8>],
    plan: &Plan,
) -> Result<Vec<u8>, MergeFault>
    ensures bad_plan { (k : ℕ) → first_outside (length texts.now) (leaves plan.now) ≡ Some k → result ≡ Err (BadPlan k) }
    ensures fault { IfErr result (IsMergeFault (bytes_of texts.now) (leaves plan.now)) }
    ensures merged { IfOk result (λ t. IsMergeOf (bytes_of texts.now) (leaves plan.now) t.items) }
    ensures accepted { IfOk result (λ t. MeansUnion (bytes_of texts.now) (leaves plan.now) t.items) }
{
    merge_as_by::<S, ByHalves>(alloc, texts, plan)
}
