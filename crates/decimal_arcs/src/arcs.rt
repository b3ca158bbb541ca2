//! The table of arcs (TopoJSON, section 2.1.3).
ghost use Rattle.decimal_arcs.specs.Arcs as spec;
ghost use Rattle.decimal_arcs.specs.Arcs.{arc_faults, arcs_faults, arcs_of, places_behind, places_of, steps_faults};
ghost use Rattle.decimal_arcs.specs.Places.{first_sums};
ghost use Rattle.decimal_arcs.specs.Seen.{seen_arcs};
ghost use Rattle.json.specs.Value.{value_view, items_view};
ghost use Rattle.reading.specs.Fault.{here};
ghost use Rattle.reading.specs.FaultLists.Found.{pairs_of};
ghost use Rattle.std.specs.Prelude.{◌≡◌, ◌≢◌, ◌<◌, [], length, slice_get, option_map, IfOk, OnOk, Some, Err};

use crate::place::{Place, Quantization};
use crate::places::{read_step, start};
use decimal_faults::lists::items_of;
use decimal_maps::Stop;
use faults::OutOfMemory;
use faults::fault::{Fault, FaultKind};
use json::Value;
use reading::fault_lists::found::{one, put_under_index};
use std::alloc::Global;

/// What was read of an arc: its faults, and the positions along it.
#[derive(Drop)]
struct ReadArc {
    faults: Vec<Fault>,
    places: Vec<Place>,
}

/// What was read of the arcs that are used.
#[derive(Drop)]
pub struct ReadArcs {
    pub faults: Vec<Fault>,
    /// The table of arcs. Of one that isn't used or has a fault nothing is known.
    pub arcs: Vec<Option<Vec<Place>>>,
}

// The positions of an arc.
#[tactic(auto, using(crate::proofs::Table::steps_none, crate::proofs::Table::steps_faults_all, crate::proofs::Table::steps_places_all))]
fn read_steps(
    alloc: Global,
    quantization: &Quantization,
    values: &[Value<'_>],
) -> Result<ReadArc, OutOfMemory>
    ensures faults { IfOk result (λ a. pairs_of a.faults.items ≡ steps_faults quantization.now first_sums 0 (items_view values.now)) }
    ensures places { IfOk result (λ a. a.places.items ≡ places_behind quantization.now first_sums (items_view values.now)) }
{
    let mut faults = Vec::new(alloc);
    let mut places = Vec::new(alloc);
    let mut sums = start();
    for i in 0..values.len() {
        let step = read_step(alloc, quantization, sums, &values[i])?;
        sums = step.sums;
        places.push(step.place)?;
        put_under_index(&mut faults, step.faults, i)?;
    }
    Ok(ReadArc { faults, places })
}

// No positions, and the fault of what should be an arc.
fn no_arc(alloc: Global, kind: FaultKind) -> Result<ReadArc, OutOfMemory>
    ensures faults { IfOk result (λ a. pairs_of a.faults.items ≡ here kind) }
    ensures places { IfOk result (λ a. a.places.items ≡ []) }
{
    let faults = one(alloc, kind)?;
    Ok(ReadArc {
        faults,
        places: Vec::new(alloc),
    })
}

fn read_arc(
    alloc: Global,
    quantization: &Quantization,
    value: &Value<'_>,
) -> Result<ReadArc, OutOfMemory>
    ensures faults { IfOk result (λ a. pairs_of a.faults.items ≡ arc_faults quantization.now (value_view value.now)) }
    ensures places { IfOk result (λ a. a.places.items ≡ places_of quantization.now (value_view value.now)) }
{
    let Some(values) = items_of(value) else {
        return no_arc(alloc, FaultKind::WrongKind);
    };
    if values.len() == 0 {
        return no_arc(alloc, FaultKind::TooShort);
    }
    let arc = read_steps(alloc, quantization, values)?;
    Ok(arc)
}

// Whether the arc of that index is used.
fn is_used(used: &[bool], index: usize) -> bool
    requires { index < length used.now }
    ensures { slice_get used.now index ≡ Some result }
{
    used[index]
}

// An arc's place in the table, and its faults.
fn read_used(
    alloc: Global,
    quantization: &Quantization,
    used: bool,
    value: &Value<'_>,
) -> Result<(Vec<Fault>, Option<Vec<Place>>), OutOfMemory>
    ensures faults { IfOk result (λ a. pairs_of a.0.items ≡ spec.faults_if used quantization.now (value_view value.now)) }
    ensures arc { IfOk result (λ a. option_map (λ ps. ps.items) a.1 ≡ spec.arc_if used quantization.now (value_view value.now)) }
{
    if !used {
        return Ok((Vec::new(alloc), None));
    }
    let arc = read_arc(alloc, quantization, value)?;
    let known = arc.faults.is_empty();
    Ok((arc.faults, if known { Some(arc.places) } else { None }))
}

/// The arcs that are used, and all their faults.
///
/// # Errors
/// Where memory is refused.
#[tactic(auto, using(crate::proofs::Table::table_none, crate::proofs::Table::table_faults_all, crate::proofs::Table::table_arcs_all))]
pub fn read_arcs(
    alloc: Global,
    quantization: &Quantization,
    used: &[bool],
    values: &[Value<'_>],
) -> Result<ReadArcs, OutOfMemory>
    requires { length used.now ≡ length values.now }
    ensures faults { IfOk result (λ a. pairs_of a.faults.items ≡ arcs_faults quantization.now used.now 0 (items_view values.now)) }
    ensures arcs { IfOk result (λ a. seen_arcs a.arcs.items ≡ arcs_of quantization.now used.now (items_view values.now)) }
{
    let mut faults = Vec::new(alloc);
    let mut arcs = Vec::new(alloc);
    for i in 0..values.len() {
        let in_use = is_used(used, i);
        let (found, arc) = read_used(alloc, quantization, in_use, &values[i])?;
        put_under_index(&mut faults, found, i)?;
        arcs.push(arc)?;
    }
    Ok(ReadArcs { faults, arcs })
}

/// The table of the arcs that are used, none of which may have a fault.
///
/// # Errors
/// `Unread` where one has.
pub fn make_arcs(
    alloc: Global,
    quantization: &Quantization,
    used: &[bool],
    values: &[Value<'_>],
) -> Result<Vec<Option<Vec<Place>>>, Stop>
    requires { length used.now ≡ length values.now }
    ensures made { IfOk result (λ arcs. seen_arcs arcs.items ≡ arcs_of quantization.now used.now (items_view values.now)) }
    ensures ok { OnOk result (arcs_faults quantization.now used.now 0 (items_view values.now) ≡ []) }
    ensures refused { result ≡ Err Stop.Unread → arcs_faults quantization.now used.now 0 (items_view values.now) ≢ [] }
{
    let read = match read_arcs(alloc, quantization, used, values) {
        Ok(read) => read,
        Err(_) => return Err(Stop::OutOfMemory),
    };
    if !read.faults.is_empty() {
        return Err(Stop::Unread);
    }
    Ok(read.arcs)
}
