//! Merging texts of topologies.
ghost use Rattle.merging.specs.Merge.{all_indexes, bytes_of, borrowed_texts, IsMergeFault, IsMergeOf, IsUnionOf, MeansUnion};
ghost use Rattle.merging.specs.declared.fault.MergeFault.TheVariants.{BadPlan};
ghost use Rattle.merging.specs.Leaves.{leaves, first_outside};
ghost use Rattle.refine.specs.Merged.{IsTopologyOfUnion};
ghost use Rattle.std.specs.Prelude.{◌≡◌, ℕ, IfOk, IfErr, IfSome, List, MatchOption, Some, Err, length};
ghost use Rattle.topo.specs.OfMap.{seen_parts};
ghost use Rattle.topo_io.specs.TopologyText.{topology_text};

use crate::cut_all::AtOnce;
use crate::cut_shard::Cut;
use crate::fault::MergeFault;
use merging::Plan;
use merging::merge::{merge_all_by, merge_as_by};
pub use merging::merge::{merge_all, merge_as};
use std::alloc::Global;
use topo::Topology;

/// The canonical text of the union of the features of the texts that the plan names. These are joined
/// each once and all at once, whatever the plan's grouping, which makes no difference to the bytes.
///
/// # Errors
/// `BadPlan` with the first leaf from the left that is no index of the list; otherwise `Text` with
/// the first text of the list that is refused, and its first error; otherwise `OtherGrid` with the
/// first text whose transform differs from that of text 0. All texts are read, also those that the
/// plan does not name.
pub fn merge_texts(alloc: Global, texts: &[Vec<u8>], plan: &Plan) -> Result<Vec<u8>, MergeFault>
    ensures bad_plan { (k : ℕ) → first_outside (length texts.now) (leaves plan.now) ≡ Some k → result ≡ Err (BadPlan k) }
    ensures fault { IfErr result (IsMergeFault (bytes_of texts.now) (leaves plan.now)) }
    ensures merged { IfOk result (λ t. IsMergeOf (bytes_of texts.now) (leaves plan.now) t.items) }
    ensures accepted { IfOk result (λ t. MeansUnion (bytes_of texts.now) (leaves plan.now) t.items) }
{
    merge_as_by::<Cut, AtOnce>(alloc, texts, plan)
}

// The topology of the shard of a union, where there is one.
fn topology_of_union(shard: Option<Cut>) -> Option<Topology>
    ensures merged { (texts : List (List ℕ)) (is : List ℕ) (n : ℕ) → MatchOption shard (n ≡ 0) (λ s. IsUnionOf texts is s.grid s.map) → MatchOption result (n ≡ 0) (IsTopologyOfUnion texts is) }
    ensures text { (texts : List (List ℕ)) (is : List ℕ) (n : ℕ) → MatchOption shard (n ≡ 0) (λ s. IsUnionOf texts is s.grid s.map) → IfSome result (λ t. IsMergeOf texts is (topology_text (seen_parts t))) }
{
    match shard {
        Some(shard) => Some(shard.into_topology()),
        None => None,
    }
}

/// The topology of the union of the features of all texts, whatever their order in the list; `None` exactly where there
/// is no text. Its canonical text is what `merge_texts` answers for each plan that names all texts. Each text is dropped
/// once it is read, so its memory is free for what follows. For texts that you keep, call `merge_borrowed_topologies`.
///
/// # Errors
/// `Text` with the first text of the list that is refused, and its first error; otherwise `OtherGrid` with the first text
/// whose transform differs from that of text 0.
pub fn merge_topologies(alloc: Global, texts: Vec<Vec<u8>>) -> Result<Option<Topology>, MergeFault>
    ensures fault { IfErr result (IsMergeFault (bytes_of texts.items) (all_indexes texts.items)) }
    ensures merged { IfOk result (λ o. MatchOption o (length texts.items ≡ 0) (IsTopologyOfUnion (bytes_of texts.items) (all_indexes texts.items))) }
    ensures text { IfOk result (λ o. IfSome o (λ t. IsMergeOf (bytes_of texts.items) (all_indexes texts.items) (topology_text (seen_parts t)))) }
{
    Ok(topology_of_union(merge_all_by::<Cut, AtOnce, Vec<u8>>(alloc, texts)?))
}

/// `merge_topologies` of borrowed texts: none is copied, and all stay in memory to the end.
///
/// # Errors
/// As `merge_topologies`.
pub fn merge_borrowed_topologies(
    alloc: Global,
    texts: &[&[u8]],
) -> Result<Option<Topology>, MergeFault>
    ensures fault { IfErr result (IsMergeFault (borrowed_texts texts.now) (all_indexes texts.now)) }
    ensures merged { IfOk result (λ o. MatchOption o (length texts.now ≡ 0) (IsTopologyOfUnion (borrowed_texts texts.now) (all_indexes texts.now))) }
    ensures text { IfOk result (λ o. IfSome o (λ t. IsMergeOf (borrowed_texts texts.now) (all_indexes texts.now) (topology_text (seen_parts t)))) }
{
    match merge_all_by::<Cut, AtOnce, &[u8]>(alloc, texts.to_vec(alloc)?) {
        Ok(shard) => Ok(topology_of_union(shard)),
        Err(fault) => Err(fault),
    }
}
