//! Topologies (TopoJSON, section 2.1).
ghost use Rattle.decimal_faults.specs.Parts.{member_faults, type_text};
ghost use Rattle.decimal_arcs.specs.Arcs.{arcs_faults, arcs_of};
ghost use Rattle.decimal_topologies.specs.Roots.{AreLayersOn, AreTopologyLayers, HaveLayers, chosen, chosen_layers, content_faults, content_of, is_topology as is_a_topology, topology_faults as faults_in, topology_members_faults, used_in as used_by};
ghost use Rattle.decimal_topologies.specs.Geometries.{parts_of};
ghost use Rattle.decimal_topologies.specs.Layers.{chosen_faults, seen_named};
ghost use Rattle.decimal_arcs.specs.Places.{count_of};
ghost use Rattle.decimal_arcs.specs.Seen.{seen_arcs};
ghost use Rattle.decimal_topologies.specs.Used.{used_arcs as used_by_layers};
ghost use Rattle.fixing.specs.declared.rules.FixingRules.{FixingRules as Rules};
ghost use Rattle.json.specs.Find.{get};
ghost use Rattle.json.specs.Value.{value_view, items_view};
ghost use Rattle.reading.specs.FaultLists.Ascending.{IsAscending};
ghost use Rattle.reading.specs.FaultLists.Found.{pairs_of};
ghost use Rattle.reading.specs.Parts.{named, of_type};
ghost use Rattle.std.specs.Prelude.{◌≡◌, ◌≢◌, [], IfOk, OnOk, Err, None, Ok, Some, codes, length};

use crate::feature::FeatureOf;
use crate::geometry::Topology;
use crate::objects::{LayersOf, TopologyLayer, members_in_order, members_of};
use crate::rules::TopologyRules;
use crate::used::used_arcs;
use decimal_arcs::arcs::{ReadArcs, make_arcs, read_arcs};
use decimal_arcs::place::{Place, Quantization};
use decimal_arcs::transform::{judge_transform, read_quantization};
use decimal_faults::lists::items_of;
use decimal_faults::members::{is_object, judge_member, make_member, type_name};
use decimal_maps::Stop;
use faults::OutOfMemory;
use faults::fault::{Fault, FaultKind};
use fixing::FixingRules;
use json::Value;
use reading::fault_lists::found::{Wanted, is_enough, join, one, under_name};
use reading::fault_lists::types::type_fault;
use std::alloc::Global;
use std::collections::BTreeMap;

/// Whether a tree is a topology: its member `type` is the text `Topology`.
pub fn is_topology(value: &Value<'_>) -> bool
    ensures { result ≡ is_a_topology (value_view value.now) }
{
    match type_name(value) {
        Ok(text) => text == "Topology",
        Err(_) => false,
    }
}

// Whether the member `type` says that an object is a topology, or the kind of its fault.
fn topology_type(value: &Value<'_>) -> Result<(), FaultKind>
    ensures { result ≡ named (of_type (codes "Topology")) (type_text (value_view value.now)) }
{
    match type_name(value) {
        Ok(text) => {
            if text == "Topology" {
                Ok(())
            } else {
                Err(FaultKind::UnknownType)
            }
        }
        Err(kind) => Err(kind),
    }
}

// All layers of a topology by their names.
fn all_layers<'v, 'a>(
    alloc: Global,
    value: &'v Value<'a>,
) -> Result<BTreeMap<&'a str, &'v Value<'a>>, OutOfMemory>
    ensures { IfOk result (λ m. seen_named m.entries ≡ chosen_layers None (get (codes "objects") (value_view value.now))) }
{
    match value.get("objects") {
        Some(objects) => match members_of(objects) {
            Some(members) => members_in_order(alloc, members),
            None => Ok(BTreeMap::new(alloc)),
        },
        None => Ok(BTreeMap::new(alloc)),
    }
}

// The object of that name alone.
fn only_layer<'v, 'a>(
    alloc: Global,
    value: &'v Value<'a>,
    name: &'v str,
) -> Result<BTreeMap<&'v str, &'v Value<'a>>, OutOfMemory>
    ensures { IfOk result (λ m. seen_named m.entries ≡ chosen_layers (Some name.now) (get (codes "objects") (value_view value.now))) }
{
    let mut layers = BTreeMap::new(alloc);
    let Some(objects) = value.get("objects") else {
        return Ok(layers);
    };
    let Some(there) = objects.get(name) else {
        return Ok(layers);
    };
    match layers.insert(name, there) {
        Ok(_) => Ok(layers),
        Err(_) => Err(OutOfMemory),
    }
}

// Which of these arcs the layers use.
fn used_of(
    alloc: Global,
    layers: &BTreeMap<&str, &Value<'_>>,
    items: &[Value<'_>],
) -> Result<Vec<bool>, OutOfMemory>
    ensures used { IfOk result (λ used. used.items ≡ used_by_layers (count_of (items_view items.now)) (seen_named layers.now.entries)) }
    ensures count { IfOk result (λ used. length used.items ≡ length items.now) }
{
    used_arcs(alloc, items.len(), layers)
}

// Which of these arcs the layers that are read of a topology use.
fn used_in(
    alloc: Global,
    rules: &TopologyRules<'_>,
    value: &Value<'_>,
    items: &[Value<'_>],
) -> Result<Vec<bool>, OutOfMemory>
    ensures used { IfOk result (λ used. used.items ≡ used_by rules.now (value_view value.now) (items_view items.now)) }
    ensures count { IfOk result (λ used. length used.items ≡ length items.now) }
{
    match rules.layer {
        Some(name) => {
            let layers = only_layer(alloc, value, name)?;
            used_of(alloc, &layers, items)
        }
        None => {
            let layers = all_layers(alloc, value)?;
            used_of(alloc, &layers, items)
        }
    }
}

// The faults of `objects`.
fn judge_objects(
    alloc: Global,
    rules: &TopologyRules<'_>,
    fixing: &FixingRules,
    topology: &Topology<'_>,
    value: &Value<'_>,
) -> Result<Vec<Fault>, OutOfMemory>
    ensures { IfOk result (λ fs. pairs_of fs.items ≡ member_faults (codes "objects") (chosen_faults (parts_of topology.now) rules.now.map fixing.now (chosen rules.now)) (value_view value.now)) }
{
    let of = LayersOf {
        of: FeatureOf {
            topology,
            rules: &rules.map,
        },
        layer: rules.layer,
    };
    judge_member(alloc, &of, fixing, value, "objects")
}

// The faults of `arcs` and `objects`, where `arcs` is this array.
fn judge_both(
    alloc: Global,
    rules: &TopologyRules<'_>,
    fixing: &FixingRules,
    quantization: &Quantization,
    value: &Value<'_>,
    items: &[Value<'_>],
) -> Result<Vec<Fault>, OutOfMemory>
    ensures { IfOk result (λ fs. pairs_of fs.items ≡ content_of quantization.now rules.now fixing.now (value_view value.now) (items_view items.now)) }
{
    let used = used_in(alloc, rules, value, items)?;
    let ReadArcs { faults, arcs } = read_arcs(alloc, quantization, &used, items)?;
    let topology = Topology {
        quantization: *quantization,
        arcs: arcs.as_slice(),
    };
    let objects = judge_objects(alloc, rules, fixing, &topology, value)?;
    let found = under_name(alloc, faults, "arcs")?;
    join(found, objects)
}

// The faults of `arcs` and `objects`.
fn judge_content(
    alloc: Global,
    rules: &TopologyRules<'_>,
    fixing: &FixingRules,
    quantization: &Quantization,
    value: &Value<'_>,
) -> Result<Vec<Fault>, OutOfMemory>
    ensures { IfOk result (λ fs. pairs_of fs.items ≡ content_faults quantization.now rules.now fixing.now (value_view value.now)) }
{
    let Some(member) = value.get("arcs") else {
        let missing = one(alloc, FaultKind::Missing)?;
        return under_name(alloc, missing, "arcs");
    };
    match items_of(member) {
        Some(items) => judge_both(alloc, rules, fixing, quantization, value, items),
        None => {
            let wrong = one(alloc, FaultKind::WrongKind)?;
            under_name(alloc, wrong, "arcs")
        }
    }
}

// The faults of the members of a topology.
fn judge_members(
    alloc: Global,
    rules: &TopologyRules<'_>,
    fixing: &FixingRules,
    value: &Value<'_>,
) -> Result<Vec<Fault>, OutOfMemory>
    ensures { IfOk result (λ fs. pairs_of fs.items ≡ topology_members_faults rules.now fixing.now (value_view value.now)) }
{
    let found = judge_transform(alloc, value)?;
    if is_enough(Wanted::First, &found) {
        return Ok(found);
    }
    match read_quantization(alloc, &rules.map.grid, value) {
        Ok(quantization) => judge_content(alloc, rules, fixing, &quantization, value),
        Err(_) => Err(OutOfMemory),
    }
}

// The faults of a topology.
fn judge_root(
    alloc: Global,
    rules: &TopologyRules<'_>,
    fixing: &FixingRules,
    value: &Value<'_>,
) -> Result<Vec<Fault>, OutOfMemory>
    ensures { IfOk result (λ fs. pairs_of fs.items ≡ faults_in rules.now fixing.now (value_view value.now)) }
{
    if !is_object(value) {
        return Ok(one(alloc, FaultKind::WrongKind)?);
    }
    match topology_type(value) {
        Ok(()) => judge_members(alloc, rules, fixing, value),
        Err(kind) => { Ok(type_fault(alloc, kind)?) }
    }
}

/// All faults of a topology in decimal numbers (TopoJSON, section 2) that the fixing rules leave, by path and then by number.
///
/// What would be fixed is no fault. A faulty `type` is the only fault of its object. Where `transform` has faults, or `arcs` is
/// missing or no array, the topology has no others. Where the rules name an object, others are not looked at. Arcs that no
/// geometry uses have no faults, whatever they are.
///
/// # Errors
/// Where memory is refused.
pub fn topology_faults(
    alloc: Global,
    rules: &TopologyRules<'_>,
    fixing: &FixingRules,
    value: &Value<'_>,
) -> Result<Vec<Fault>, OutOfMemory>
    ensures all { IfOk result (λ fs. pairs_of fs.items ≡ faults_in rules.now fixing.now (value_view value.now)) }
    ensures sorted { IfOk result (λ fs. IsAscending (pairs_of fs.items)) }
{
    judge_root(alloc, rules, fixing, value)
}

// The arcs by their numbers, where those that are used have no faults.
fn make_table(
    alloc: Global,
    rules: &TopologyRules<'_>,
    quantization: &Quantization,
    value: &Value<'_>,
    items: &[Value<'_>],
) -> Result<Vec<Option<Vec<Place>>>, Stop>
    ensures made { IfOk result (λ arcs. seen_arcs arcs.items ≡ arcs_of quantization.now (used_by rules.now (value_view value.now) (items_view items.now)) (items_view items.now)) }
    ensures ok { OnOk result (arcs_faults quantization.now (used_by rules.now (value_view value.now) (items_view items.now)) 0 (items_view items.now) ≡ []) }
    ensures refused { result ≡ Err Stop.Unread → arcs_faults quantization.now (used_by rules.now (value_view value.now) (items_view items.now)) 0 (items_view items.now) ≢ [] }
{
    match used_in(alloc, rules, value, items) {
        Ok(used) => make_arcs(alloc, quantization, &used, items),
        Err(_) => Err(Stop::OutOfMemory),
    }
}

// The layers of a topology whose arcs are this array.
fn make_content(
    alloc: Global,
    rules: &TopologyRules<'_>,
    quantization: &Quantization,
    value: &Value<'_>,
    items: &[Value<'_>],
) -> Result<Vec<TopologyLayer>, Stop>
    ensures made { IfOk result (λ xs. AreLayersOn quantization.now rules.now (value_view value.now) (items_view items.now) xs.items) }
    ensures refused { result ≡ Err Stop.Unread → (fixing : Rules) → content_of quantization.now rules.now fixing (value_view value.now) (items_view items.now) ≢ [] }
{
    let arcs = match make_table(alloc, rules, quantization, value, items) {
        Ok(arcs) => arcs,
        Err(stop) => return Err(stop),
    };
    let topology = Topology {
        quantization: *quantization,
        arcs: arcs.as_slice(),
    };
    let of = LayersOf {
        of: FeatureOf {
            topology: &topology,
            rules: &rules.map,
        },
        layer: rules.layer,
    };
    make_member(alloc, &of, value, "objects", &mut ())
}

// The layers of the members of a topology.
fn make_members(
    alloc: Global,
    rules: &TopologyRules<'_>,
    value: &Value<'_>,
) -> Result<Vec<TopologyLayer>, Stop>
    ensures made { IfOk result (λ xs. HaveLayers rules.now (value_view value.now) xs.items) }
    ensures refused { result ≡ Err Stop.Unread → (fixing : Rules) → topology_members_faults rules.now fixing (value_view value.now) ≢ [] }
{
    let quantization = match read_quantization(alloc, &rules.map.grid, value) {
        Ok(quantization) => quantization,
        Err(stop) => return Err(stop),
    };
    let Some(member) = value.get("arcs") else {
        return Err(Stop::Unread);
    };
    match items_of(member) {
        Some(items) => make_content(alloc, rules, &quantization, value, items),
        None => Err(Stop::Unread),
    }
}

/// The layers of a topology in decimal numbers (TopoJSON, section 2), in the byte order of their names, or that of the
/// object that the rules name.
///
/// # Errors
/// `Unread` where the topology has a fault, whatever is fixed; `OutOfMemory`.
pub fn read_topology(
    alloc: Global,
    rules: &TopologyRules<'_>,
    value: &Value<'_>,
) -> Result<Vec<TopologyLayer>, Stop>
    ensures made { IfOk result (λ xs. AreTopologyLayers rules.now (value_view value.now) xs.items) }
    ensures refused { result ≡ Err Stop.Unread → (fixing : Rules) → faults_in rules.now fixing (value_view value.now) ≢ [] }
{
    match topology_type(value) {
        Ok(()) => make_members(alloc, rules, value),
        Err(_) => Err(Stop::Unread),
    }
}
