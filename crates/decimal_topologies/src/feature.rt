//! Features and layers.
ghost use Rattle.decimal_topologies.specs.Features.{IsFeature, IsLayer, feature_faults, feature_members_faults, has_features as gathers, layer_faults};
ghost use Rattle.decimal_topologies.specs.Geometries.{form_of as form_in, parts_of};
ghost use Rattle.fixing.specs.declared.rules.FixingRules.{FixingRules as Rules};
ghost use Rattle.json.specs.Value.{value_view};
ghost use Rattle.reading.specs.FaultLists.Found.{pairs_of};
ghost use Rattle.std.specs.Prelude.{◌≡◌, ◌≢◌, ◌∷◌, [], IfOk, Err, Ok};

use crate::geometry::{Topology, form_of, form_under, judge_content, make_geometry};
use attributes::attribute_faults;
use decimal_faults::feature::make_attributes;
use decimal_faults::geometry::GeometryForm;
use decimal_faults::lists::{ListOf, keep};
use decimal_faults::members::{is_object, judge_member, make_member};
use decimal_faults::part::Part;
use decimal_maps::{MapRules, RawFeature, Stop, Tally};
use faults::OutOfMemory;
use faults::fault::{Fault, FaultKind};
use fixing::FixingRules;
use json::Value;
use reading::fault_lists::found::{join, one};
use reading::fault_lists::types::type_fault;
use std::alloc::Global;

/// A geometry object that is a feature.
#[derive(Clone, Copy)]
pub struct FeatureOf<'m, 'r, 't> {
    pub topology: &'m Topology<'t>,
    pub rules: &'m MapRules<'r>,
}

// The faults of a feature's geometry, id and properties.
fn judge_feature(
    alloc: Global,
    of: &FeatureOf<'_, '_, '_>,
    fixing: &FixingRules,
    value: &Value<'_>,
    form: Option<GeometryForm>,
) -> Result<Vec<Fault>, OutOfMemory>
    ensures { IfOk result (λ fs. pairs_of fs.items ≡ feature_members_faults (parts_of of.now.topology.now) of.now.rules.now fixing.now (value_view value.now) form) }
{
    let geometry = judge_content(alloc, of.topology, fixing, value, form)?;
    let (id, properties) = (value.get("id"), value.get("properties"));
    let attributes = attribute_faults(alloc, &of.rules.attributes, id, properties)?;
    let found = join(geometry, attributes)?;
    Ok(found)
}

// The feature of an object of that form.
fn make_feature(
    alloc: Global,
    of: &FeatureOf<'_, '_, '_>,
    value: &Value<'_>,
    form: Option<GeometryForm>,
) -> Result<RawFeature, Stop>
    ensures made { IfOk result (λ f. form_in (value_view value.now) ≡ Ok form → IsFeature (parts_of of.now.topology.now) of.now.rules.now (value_view value.now) f) }
    ensures refused { result ≡ Err Stop.Unread → (fixing : Rules) → feature_members_faults (parts_of of.now.topology.now) of.now.rules.now fixing (value_view value.now) form ≢ [] }
{
    let mut tally = Tally::new();
    let geometry = match make_geometry(alloc, of.topology, value, form, &mut tally) {
        Ok(geometry) => geometry,
        Err(stop) => return Err(stop),
    };
    let (id, properties) = (value.get("id"), value.get("properties"));
    let attributes = match make_attributes(alloc, &of.rules.attributes, id, properties) {
        Ok(attributes) => attributes,
        Err(stop) => return Err(stop),
    };
    Ok(RawFeature {
        attributes,
        geometry,
        tally,
    })
}

impl<'m, 'r, 't> Part for FeatureOf<'m, 'r, 't> {
    type Made = RawFeature;

    type Count = ();

    ghost faults = { λ p fixing. feature_faults (parts_of p.topology.now) p.rules.now fixing };

    ghost means = { λ p j f a b. IsFeature (parts_of p.topology.now) p.rules.now j f };

    fn judge(
        &self,
        alloc: Global,
        fixing: &FixingRules,
        value: &Value<'_>,
    ) -> Result<Vec<Fault>, OutOfMemory> {
        if !is_object(value) {
            return Ok(one(alloc, FaultKind::WrongKind)?);
        }
        match form_under(fixing, value) {
            Ok(form) => judge_feature(alloc, self, fixing, value, form),
            Err(kind) => { Ok(type_fault(alloc, kind)?) }
        }
    }

    fn make(&self, alloc: Global, value: &Value<'_>, _count: &mut ()) -> Result<RawFeature, Stop> {
        match form_of(value) {
            Ok(form) => make_feature(alloc, self, value, form),
            Err(_) => Err(Stop::Unread),
        }
    }
}

// Whether a layer's features are those of a collection.
fn has_features(value: &Value<'_>) -> bool
    ensures { result ≡ gathers (value_view value.now) }
{
    match form_of(value) {
        Ok(Some(GeometryForm::Collection)) => true,
        _ => false,
    }
}

/// A list of one item.
///
/// # Errors
/// `OutOfMemory`.
pub fn only<T: Drop>(alloc: Global, item: T) -> Result<Vec<T>, Stop>
    ensures made { IfOk result (λ xs. xs.items ≡ item ∷ []) }
    ensures memory { result ≢ Err Stop.Unread }
{
    let mut found = Vec::new(alloc);
    keep(&mut found, item)?;
    Ok(found)
}

/// All faults of a layer that the fixing rules leave.
///
/// # Errors
/// Where memory is refused.
pub fn judge_layer(
    alloc: Global,
    of: &FeatureOf<'_, '_, '_>,
    fixing: &FixingRules,
    value: &Value<'_>,
) -> Result<Vec<Fault>, OutOfMemory>
    ensures { IfOk result (λ fs. pairs_of fs.items ≡ layer_faults (parts_of of.now.topology.now) of.now.rules.now fixing.now (value_view value.now)) }
{
    if has_features(value) {
        return judge_member(alloc, &ListOf { of: *of }, fixing, value, "geometries");
    }
    of.judge(alloc, fixing, value)
}

/// The features of a layer.
///
/// # Errors
/// `Unread` where it has a fault, whatever the fixing rules.
pub fn make_layer(
    alloc: Global,
    of: &FeatureOf<'_, '_, '_>,
    value: &Value<'_>,
) -> Result<Vec<RawFeature>, Stop>
    ensures made { IfOk result (λ fs. IsLayer (parts_of of.now.topology.now) of.now.rules.now (value_view value.now) fs.items) }
    ensures refused { result ≡ Err Stop.Unread → (fixing : Rules) → layer_faults (parts_of of.now.topology.now) of.now.rules.now fixing (value_view value.now) ≢ [] }
{
    if has_features(value) {
        let features = make_member(alloc, &ListOf { of: *of }, value, "geometries", &mut ())?;
        return Ok(features.into_vec());
    }
    match of.make(alloc, value, &mut ()) {
        Ok(feature) => only(alloc, feature),
        Err(stop) => Err(stop),
    }
}

/// A layer.
#[derive(Clone, Copy)]
pub struct LayerOf<'m, 'r, 't> {
    pub of: FeatureOf<'m, 'r, 't>,
}

impl<'m, 'r, 't> Part for LayerOf<'m, 'r, 't> {
    type Made = Vec<RawFeature>;

    type Count = ();

    ghost faults = { λ p fixing. layer_faults (parts_of p.of.topology.now) p.of.rules.now fixing };

    ghost means = { λ p j fs a b. IsLayer (parts_of p.of.topology.now) p.of.rules.now j fs.items };

    fn judge(
        &self,
        alloc: Global,
        fixing: &FixingRules,
        value: &Value<'_>,
    ) -> Result<Vec<Fault>, OutOfMemory> {
        judge_layer(alloc, &self.of, fixing, value)
    }

    fn make(
        &self,
        alloc: Global,
        value: &Value<'_>,
        _count: &mut (),
    ) -> Result<Vec<RawFeature>, Stop> {
        make_layer(alloc, &self.of, value)
    }
}
