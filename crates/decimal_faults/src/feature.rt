//! Features.
ghost use Rattle.decimal_faults.specs.Maps.{feature_faults, feature_members_faults};
ghost use Rattle.decimal_faults.specs.Parts.{option_faults, unless_null, type_text};
ghost use Rattle.decimal_faults.specs.Geometries.{geometry_faults};
ghost use Rattle.decimal_maps.specs.Features.{HaveAttributes, IsFeature, or_null};
ghost use Rattle.decimal_maps.specs.Geometries.{IsGeometryOrNull};
ghost use Rattle.fixing.specs.declared.rules.FixingRules.{FixingRules as Rules};
ghost use Rattle.attributes.specs.Attributes.{seen_member};
ghost use Rattle.attributes.specs.Refusals.{attributes_faults};
ghost use Rattle.json.specs.Find.{get};
ghost use Rattle.json.specs.Value.{value_view};
ghost use Rattle.reading.specs.FaultLists.Found.{pairs_of};
ghost use Rattle.reading.specs.Parts.{named, of_type};
ghost use Rattle.std.specs.Prelude.{◌≡◌, ◌≢◌, [], IfOk, Err, Ok, codes};

use crate::geometry::GeometryOrNull;
use crate::members::{is_object, judge_option, type_name};
use crate::part::Part;
use attributes::{AttributeRules, Attributes, Unread, attribute_faults, read_attributes};
use decimal_maps::{DecimalGrid, MapRules, RawFeature, Stop, Tally};
use faults::OutOfMemory;
use faults::fault::{Fault, FaultKind};
use fixing::{FixingRules, RawGeometry, RawShape};
use json::Value;
use reading::fault_lists::found::{join, one};
use reading::fault_lists::types::type_fault;
use std::alloc::Global;

/// All faults of the members of a feature that the fixing rules leave.
///
/// # Errors
/// Where memory is refused.
pub fn judge_feature(
    alloc: Global,
    rules: &MapRules<'_>,
    fixing: &FixingRules,
    value: &Value<'_>,
) -> Result<Vec<Fault>, OutOfMemory>
    ensures { IfOk result (λ fs. pairs_of fs.items ≡ feature_members_faults rules.now fixing.now (value_view value.now)) }
{
    let of = GeometryOrNull { grid: rules.grid };
    let geometry = judge_option(alloc, &of, fixing, value, "geometry")?;
    let (id, properties) = (value.get("id"), value.get("properties"));
    let attributes = attribute_faults(alloc, &rules.attributes, id, properties)?;
    let found = join(geometry, attributes)?;
    Ok(found)
}

/// The id and the properties that these values mean.
///
/// # Errors
/// `Unread` where they have a fault.
pub fn make_attributes(
    alloc: Global,
    rules: &AttributeRules<'_>,
    id: Option<&Value<'_>>,
    properties: Option<&Value<'_>>,
) -> Result<Attributes, Stop>
    ensures made { IfOk result (HaveAttributes rules.now (seen_member id.entry) (seen_member properties.entry)) }
    ensures refused { result ≡ Err Stop.Unread → attributes_faults rules.now (seen_member id.entry) (seen_member properties.entry) ≢ [] }
{
    match read_attributes(alloc, rules, id, properties) {
        Ok(attributes) => Ok(attributes),
        Err(Unread::Faulty) => Err(Stop::Unread),
        Err(Unread::OutOfMemory) => Err(Stop::OutOfMemory),
    }
}

// The geometry of a feature. A missing one is null.
fn geometry_of(
    alloc: Global,
    grid: &DecimalGrid,
    value: &Value<'_>,
    tally: &mut Tally,
) -> Result<RawGeometry, Stop>
    ensures made { IfOk result (λ g. IsGeometryOrNull grid.now (or_null (get (codes "geometry") (value_view value.now))) g tally.old tally.new) }
    ensures refused { result ≡ Err Stop.Unread → (fixing : Rules) → option_faults (codes "geometry") (unless_null (geometry_faults grid.now fixing)) (value_view value.now) ≢ [] }
{
    match value.get("geometry") {
        Some(geometry) => GeometryOrNull { grid: *grid }.make(alloc, geometry, tally),
        None => Ok(RawGeometry::One(RawShape::Null)),
    }
}

/// The feature of an object whose type is that of a feature.
///
/// # Errors
/// `Unread` where its members have a fault, whatever the fixing rules.
pub fn make_feature(
    alloc: Global,
    rules: &MapRules<'_>,
    value: &Value<'_>,
) -> Result<RawFeature, Stop>
    ensures made { IfOk result (λ f. type_text (value_view value.now) ≡ Ok (codes "Feature") → IsFeature rules.now (value_view value.now) f) }
    ensures refused { result ≡ Err Stop.Unread → (fixing : Rules) → feature_members_faults rules.now fixing (value_view value.now) ≢ [] }
{
    let mut tally = Tally::new();
    let geometry = match geometry_of(alloc, &rules.grid, value, &mut tally) {
        Ok(geometry) => geometry,
        Err(stop) => return Err(stop),
    };
    let (id, properties) = (value.get("id"), value.get("properties"));
    let attributes = match make_attributes(alloc, &rules.attributes, id, properties) {
        Ok(attributes) => attributes,
        Err(stop) => return Err(stop),
    };
    Ok(RawFeature {
        attributes,
        geometry,
        tally,
    })
}

// Whether the member `type` says that an object is a feature, or the kind of its fault.
fn feature_type(value: &Value<'_>) -> Result<(), FaultKind>
    ensures { result ≡ named (of_type (codes "Feature")) (type_text (value_view value.now)) }
{
    match type_name(value) {
        Ok(text) => {
            if text == "Feature" {
                Ok(())
            } else {
                Err(FaultKind::UnknownType)
            }
        }
        Err(kind) => Err(kind),
    }
}

/// An element of a FeatureCollection.
#[derive(Clone, Copy)]
pub struct FeatureOf<'m, 'r> {
    pub rules: &'m MapRules<'r>,
}

impl<'m, 'r> Part for FeatureOf<'m, 'r> {
    type Made = RawFeature;

    type Count = ();

    ghost faults = { λ p fixing. feature_faults p.rules.now fixing };

    ghost means = { λ p j f a b. IsFeature p.rules.now j f };

    fn judge(
        &self,
        alloc: Global,
        fixing: &FixingRules,
        value: &Value<'_>,
    ) -> Result<Vec<Fault>, OutOfMemory> {
        if !is_object(value) {
            return Ok(one(alloc, FaultKind::WrongKind)?);
        }
        match feature_type(value) {
            Ok(()) => judge_feature(alloc, self.rules, fixing, value),
            Err(kind) => { Ok(type_fault(alloc, kind)?) }
        }
    }

    fn make(&self, alloc: Global, value: &Value<'_>, _count: &mut ()) -> Result<RawFeature, Stop> {
        match feature_type(value) {
            Ok(()) => make_feature(alloc, self.rules, value),
            Err(_) => Err(Stop::Unread),
        }
    }
}
