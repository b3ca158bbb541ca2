//! What differs between two borrowed topologies.
ghost use Rattle.noshinka.specs.Differing.{IsComparisonText, IsDiffAsked, IsDiffRefusal, IsTopologiesRefusal};
ghost use Rattle.std.specs.Option.{option_copied};
ghost use Rattle.std.specs.Prelude.{IfErr, IfOk};

use crate::topologies::topology_of;
use c_calls::options::{flag, scope_named};
use c_calls::refusal::CallRefusal;
use difference_text::{DifferenceFault, DifferenceOptions, write_difference};
use sinks::Kept;
use std::alloc::Global;
use topo::Topology;

/// The text of what differs between two topologies on one grid.
#[tactic(auto, using(crate::proofs::Differences::other_grid, crate::proofs::Differences::no_memory))]
fn text_of_difference(
    alloc: Global,
    old: &Topology,
    new: &Topology,
    options: &DifferenceOptions<'_>,
) -> Result<Vec<u8>, CallRefusal>
    ensures made { IfOk result (λ t. IsComparisonText old.now new.now (option_copied options.now.layer) (option_copied options.now.key) options.now.json t.items) }
    ensures refused { IfErr result (IsTopologiesRefusal old.now new.now (option_copied options.now.layer)) }
{
    if !old.is_on_grid_of(new) {
        return Err(CallRefusal::OtherGrid(1));
    }
    let mut kept = Kept::new(alloc);
    match write_difference(alloc, old, new, options, &mut kept) {
        Ok(_differs) => Ok(kept.into_bytes()),
        Err(DifferenceFault::NoLayer) => Err(CallRefusal::NoLayer),
        Err(_) => Err(CallRefusal::OutOfMemory),
    }
}

/// The options of `noshinka_diff`. `c/noshinka.h` says what each means.
#[repr(C)]
#[derive(Drop)]
pub struct DiffOptions<'a> {
    pub size: usize,
    pub layer: &'a [u8],
    pub key: &'a [u8],
    pub scope: u32,
    pub pairing: u32,
    pub json: u32,
}

/// The bytes of the options.
const SIZE: usize = size_of::<DiffOptions<'static>>();

/// What differs between the topologies of two texts, as `topotool diff` prints it: of all layers for the scope 0, of the
/// layer for 1. Features pair by their ids where `pairing` is 0, by the value of the property where it is 1.
#[tactic(auto, using(crate::proofs::Differences::bad_size, crate::proofs::Differences::bad_json, crate::proofs::Differences::bad_layer, crate::proofs::Differences::bad_key, crate::proofs::Differences::old_refused, crate::proofs::Differences::new_refused, crate::proofs::Differences::both_refused))]
pub(crate) fn diff(
    alloc: Global,
    old: &[u8],
    new: &[u8],
    options: &DiffOptions<'_>,
) -> Result<Vec<u8>, CallRefusal>
    ensures made { IfOk result (λ t. IsDiffAsked options.now old.now new.now t.items) }
    ensures refused { IfErr result (IsDiffRefusal options.now old.now new.now) }
{
    if options.size != SIZE {
        return Err(CallRefusal::BadChoice);
    }
    let json = flag(options.json)?;
    let layer = scope_named(options.scope, options.layer)?;
    let key = scope_named(options.pairing, options.key)?;
    let old = topology_of(alloc, 0, old)?;
    let new = topology_of(alloc, 1, new)?;
    text_of_difference(alloc, &old, &new, &DifferenceOptions { layer, key, json })
}
