//! The layers of a topology: the members of `objects` (TopoJSON, section 2.1.5).
ghost use Rattle.decimal_topologies.specs.Geometries.{parts_of};
ghost use Rattle.decimal_topologies.specs.Features.{layer_faults};
ghost use Rattle.decimal_topologies.specs.Layers.{AreChosenLayers, AreLayers, AreNamedLayers, IsNamedLayer, IsOnlyLayer, chosen_faults, layers_faults, members_in_order as in_order, objects_faults, seen_named};
ghost use Rattle.fixing.specs.declared.rules.FixingRules.{FixingRules as Rules};
ghost use Rattle.json.specs.Find.{as_object};
ghost use Rattle.json.specs.Value.{value_view, members_view};
ghost use Rattle.reading.specs.FaultLists.Found.{pairs_of};
ghost use Rattle.std.specs.Prelude.{◌≡◌, ◌≢◌, [], IfOk, Err, Some, option_map};

use crate::feature::{FeatureOf, LayerOf, judge_layer, make_layer, only};
use decimal_faults::lists::keep;
use decimal_faults::members::{is_object, judge_member};
use decimal_faults::part::Part;
use decimal_maps::{RawFeature, Stop};
use faults::OutOfMemory;
use faults::fault::{Fault, FaultKind};
use fixing::FixingRules;
use json::Value;
use reading::fault_lists::found::{one, put_under_name};
use std::alloc::Global;
use std::collections::BTreeMap;

/// A layer: the name of a member of `objects`, and its features.
#[derive(Drop)]
pub struct TopologyLayer {
    pub name: String,
    pub features: Vec<RawFeature>,
}

/// The members of an object.
pub fn members_of<'v, 'a>(value: &'v Value<'a>) -> Option<&'v [(&'a str, Value<'a>)]>
    ensures { option_map (λ v. members_view v.now) result ≡ as_object (value_view value.now) }
{
    if let Value::Object(members) = value {
        Some(members.as_slice())
    } else {
        None
    }
}

/// The members in the byte order of their names. Of a name that comes twice the last value counts.
///
/// # Errors
/// Where memory is refused.
#[tactic(auto, using(crate::proofs::Layered::ordered_none, crate::proofs::Layered::ordered_all))]
pub fn members_in_order<'v, 'a>(
    alloc: Global,
    members: &'v [(&'a str, Value<'a>)],
) -> Result<BTreeMap<&'a str, &'v Value<'a>>, OutOfMemory>
    ensures { IfOk result (λ m. seen_named m.entries ≡ in_order (members_view members.now)) }
{
    let mut found = BTreeMap::new(alloc);
    for i in 0..members.len() {
        let member = &members[i];
        match found.insert(member.0, &member.1) {
            Ok(_) => {}
            Err(_) => return Err(OutOfMemory),
        }
    }
    Ok(found)
}

// The faults of layers, each under its name.
fn judge_layers(
    alloc: Global,
    of: &FeatureOf<'_, '_, '_>,
    fixing: &FixingRules,
    layers: &BTreeMap<&str, &Value<'_>>,
) -> Result<Vec<Fault>, OutOfMemory>
    ensures { IfOk result (λ fs. pairs_of fs.items ≡ layers_faults (parts_of of.now.topology.now) of.now.rules.now fixing.now (seen_named layers.now.entries)) }
{
    let mut found = Vec::new(alloc);
    for (name, value) in layers.iter() {
        let part = judge_layer(alloc, of, fixing, *value)?;
        put_under_name(alloc, &mut found, part, *name)?;
    }
    Ok(found)
}

// A layer by its name.
fn make_named(
    alloc: Global,
    of: &FeatureOf<'_, '_, '_>,
    name: &str,
    value: &Value<'_>,
) -> Result<TopologyLayer, Stop>
    ensures made { IfOk result (λ x. IsNamedLayer (parts_of of.now.topology.now) of.now.rules.now (name.now, value_view value.now) x) }
    ensures refused { result ≡ Err Stop.Unread → (fixing : Rules) → layer_faults (parts_of of.now.topology.now) of.now.rules.now fixing (value_view value.now) ≢ [] }
{
    match make_layer(alloc, of, value) {
        Ok(features) => match String::from_str(alloc, name) {
            Ok(name) => Ok(TopologyLayer { name, features }),
            Err(_) => Err(Stop::OutOfMemory),
        },
        Err(stop) => Err(stop),
    }
}

// The layers by their names.
fn make_layers(
    alloc: Global,
    of: &FeatureOf<'_, '_, '_>,
    layers: &BTreeMap<&str, &Value<'_>>,
) -> Result<Vec<TopologyLayer>, Stop>
    ensures made { IfOk result (λ xs. AreNamedLayers (parts_of of.now.topology.now) of.now.rules.now (seen_named layers.now.entries) xs.items) }
    ensures refused { result ≡ Err Stop.Unread → (fixing : Rules) → layers_faults (parts_of of.now.topology.now) of.now.rules.now fixing (seen_named layers.now.entries) ≢ [] }
{
    let mut found = Vec::new(alloc);
    for (name, value) in layers.iter() {
        match make_named(alloc, of, *name, *value) {
            Ok(layer) => keep(&mut found, layer)?,
            Err(stop) => return Err(stop),
        }
    }
    Ok(found)
}

// The faults of all objects.
fn judge_all(
    alloc: Global,
    of: &FeatureOf<'_, '_, '_>,
    fixing: &FixingRules,
    value: &Value<'_>,
) -> Result<Vec<Fault>, OutOfMemory>
    ensures { IfOk result (λ fs. pairs_of fs.items ≡ objects_faults (parts_of of.now.topology.now) of.now.rules.now fixing.now (value_view value.now)) }
{
    match members_of(value) {
        Some(members) => {
            let layers = members_in_order(alloc, members)?;
            judge_layers(alloc, of, fixing, &layers)
        }
        None => { Ok(one(alloc, FaultKind::WrongKind)?) }
    }
}

// The layers of all objects.
fn make_all(
    alloc: Global,
    of: &FeatureOf<'_, '_, '_>,
    value: &Value<'_>,
) -> Result<Vec<TopologyLayer>, Stop>
    ensures made { IfOk result (λ xs. AreLayers (parts_of of.now.topology.now) of.now.rules.now (value_view value.now) xs.items) }
    ensures refused { result ≡ Err Stop.Unread → (fixing : Rules) → objects_faults (parts_of of.now.topology.now) of.now.rules.now fixing (value_view value.now) ≢ [] }
{
    match members_of(value) {
        Some(members) => match members_in_order(alloc, members) {
            Ok(layers) => make_layers(alloc, of, &layers),
            Err(_) => Err(Stop::OutOfMemory),
        },
        None => Err(Stop::Unread),
    }
}

// The faults of the object of that name, which has to be there.
fn judge_only(
    alloc: Global,
    of: &FeatureOf<'_, '_, '_>,
    fixing: &FixingRules,
    value: &Value<'_>,
    name: &str,
) -> Result<Vec<Fault>, OutOfMemory>
    ensures { IfOk result (λ fs. pairs_of fs.items ≡ chosen_faults (parts_of of.now.topology.now) of.now.rules.now fixing.now (Some name.now) (value_view value.now)) }
{
    if !is_object(value) {
        return Ok(one(alloc, FaultKind::WrongKind)?);
    }
    judge_member(alloc, &LayerOf { of: *of }, fixing, value, name)
}

// The layer of the object of that name.
fn make_only(
    alloc: Global,
    of: &FeatureOf<'_, '_, '_>,
    value: &Value<'_>,
    name: &str,
) -> Result<Vec<TopologyLayer>, Stop>
    ensures made { IfOk result (λ xs. IsOnlyLayer (parts_of of.now.topology.now) of.now.rules.now name.now (value_view value.now) xs.items) }
    ensures refused { result ≡ Err Stop.Unread → (fixing : Rules) → chosen_faults (parts_of of.now.topology.now) of.now.rules.now fixing (Some name.now) (value_view value.now) ≢ [] }
{
    match value.get(name) {
        Some(there) => match make_named(alloc, of, name, there) {
            Ok(layer) => only(alloc, layer),
            Err(stop) => Err(stop),
        },
        None => Err(Stop::Unread),
    }
}

/// The member `objects` of a topology, of which one object alone may be read.
#[derive(Clone, Copy)]
pub struct LayersOf<'m, 'r, 't> {
    pub of: FeatureOf<'m, 'r, 't>,
    pub layer: Option<&'m str>,
}

impl<'m, 'r, 't> Part for LayersOf<'m, 'r, 't> {
    type Made = Vec<TopologyLayer>;

    type Count = ();

    ghost faults = { λ p fixing. chosen_faults (parts_of p.of.topology.now) p.of.rules.now fixing (option_map (λ n. n.now) p.layer) };

    ghost means = { λ p j xs a b. AreChosenLayers (parts_of p.of.topology.now) p.of.rules.now (option_map (λ n. n.now) p.layer) j xs.items };

    fn judge(
        &self,
        alloc: Global,
        fixing: &FixingRules,
        value: &Value<'_>,
    ) -> Result<Vec<Fault>, OutOfMemory> {
        match self.layer {
            Some(name) => judge_only(alloc, &self.of, fixing, value, name),
            None => judge_all(alloc, &self.of, fixing, value),
        }
    }

    fn make(
        &self,
        alloc: Global,
        value: &Value<'_>,
        _count: &mut (),
    ) -> Result<Vec<TopologyLayer>, Stop> {
        match self.layer {
            Some(name) => make_only(alloc, &self.of, value, name),
            None => make_all(alloc, &self.of, value),
        }
    }
}
