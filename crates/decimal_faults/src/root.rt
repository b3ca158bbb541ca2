//! Maps and texts.
ghost use Rattle.decimal_faults.specs.Maps.{faults_of_text, map_faults};
ghost use Rattle.decimal_maps.specs.Features.{IsBareGeometry};
ghost use Rattle.decimal_maps.specs.Roots.{IsMap};
ghost use Rattle.fixing.specs.declared.rules.FixingRules.{FixingRules as Rules};
ghost use Rattle.decimal_faults.specs.Geometries.{geometry_faults};
ghost use Rattle.json.specs.Value.{value_view};
ghost use Rattle.reading.specs.FaultLists.Ascending.{IsAscending};
ghost use Rattle.reading.specs.FaultLists.Found.{pairs_of};
ghost use Rattle.std.specs.Prelude.{◌≡◌, ◌≢◌, ◌∷◌, [], IfOk, Err};

use crate::feature::{FeatureOf, judge_feature, make_attributes, make_feature};
use crate::geometry::{judge_geometry, make_geometry};
use crate::lists::{ListOf, keep};
use crate::members::{judge_member, make_member, type_name};
use attributes::AttributeRules;
use decimal_maps::{MapRules, RawFeature, Stop, Tally};
use faults::OutOfMemory;
use faults::fault::{Fault, FaultKind};
use fixing::FixingRules;
use json::{Error, Scratch, Value};
use reading::fault_lists::found::one;
use std::alloc::Global;

// The faults of a tree.
fn judge_map(
    alloc: Global,
    rules: &MapRules<'_>,
    fixing: &FixingRules,
    value: &Value<'_>,
) -> Result<Vec<Fault>, OutOfMemory>
    ensures { IfOk result (λ fs. pairs_of fs.items ≡ map_faults rules.now fixing.now (value_view value.now)) }
{
    match type_name(value) {
        Ok("FeatureCollection") => {
            let of = FeatureOf { rules };
            judge_member(alloc, &ListOf { of }, fixing, value, "features")
        }
        Ok("Feature") => judge_feature(alloc, rules, fixing, value),
        _ => judge_geometry(alloc, &rules.grid, fixing, value),
    }
}

/// All faults of a GeoJSON text in decimal numbers (RFC 7946, section 3) that the fixing rules leave, by path and then by number.
///
/// What would be fixed is no fault. A faulty `type` is the only fault of its object, and lines and rings whose positions
/// have faults have no others. Members that GeoJSON gives no meaning there have none, whatever they are.
///
/// # Errors
/// Where memory is refused.
pub fn faults(
    alloc: Global,
    rules: &MapRules<'_>,
    fixing: &FixingRules,
    bytes: &[u8],
) -> Result<Vec<Fault>, OutOfMemory>
    ensures all { IfOk result (λ fs. pairs_of fs.items ≡ faults_of_text rules.now fixing.now bytes.now) }
    ensures sorted { IfOk result (λ fs. IsAscending (pairs_of fs.items)) }
{
    let mut scratch = Scratch::new(alloc);
    match Value::from_slice(alloc, bytes, &mut scratch) {
        Ok(value) => judge_map(alloc, rules, fixing, &value),
        Err(Error::Invalid) => { Ok(one(alloc, FaultKind::NotJson)?) }
        Err(_) => Err(OutOfMemory),
    }
}

// The feature of a geometry that is no feature's.
fn make_bare(alloc: Global, rules: &MapRules<'_>, value: &Value<'_>) -> Result<RawFeature, Stop>
    ensures made { IfOk result (IsBareGeometry rules.now (value_view value.now)) }
    ensures refused { result ≡ Err Stop.Unread → (fixing : Rules) → geometry_faults rules.now.grid fixing (value_view value.now) ≢ [] }
{
    let mut tally = Tally::new();
    let geometry = make_geometry(alloc, &rules.grid, value, &mut tally)?;
    let unnamed = AttributeRules {
        id: None,
        ..rules.attributes
    };
    let attributes = match make_attributes(alloc, &unnamed, None, None) {
        Ok(attributes) => attributes,
        Err(stop) => return Err(stop),
    };
    Ok(RawFeature {
        attributes,
        geometry,
        tally,
    })
}

// A list of one feature.
fn only(alloc: Global, feature: RawFeature) -> Result<Vec<RawFeature>, Stop>
    ensures made { IfOk result (λ fs. fs.items ≡ feature ∷ []) }
    ensures memory { result ≢ Err Stop.Unread }
{
    let mut found = Vec::new(alloc);
    keep(&mut found, feature)?;
    Ok(found)
}

/// The features of a tree of GeoJSON in decimal numbers: those of a collection, or one for a feature or a geometry (RFC 7946, section 3).
///
/// # Errors
/// `Unread` where the tree has a fault, whatever is fixed; `OutOfMemory`.
pub fn read_value(
    alloc: Global,
    rules: &MapRules<'_>,
    value: &Value<'_>,
) -> Result<Vec<RawFeature>, Stop>
    ensures made { IfOk result (λ fs. IsMap rules.now (value_view value.now) fs.items) }
    ensures refused { result ≡ Err Stop.Unread → (fixing : Rules) → map_faults rules.now fixing (value_view value.now) ≢ [] }
{
    match type_name(value) {
        Ok("FeatureCollection") => {
            let of = FeatureOf { rules };
            match make_member(alloc, &ListOf { of }, value, "features", &mut ()) {
                Ok(features) => Ok(features.into_vec()),
                Err(stop) => Err(stop),
            }
        }
        Ok("Feature") => {
            let feature = make_feature(alloc, rules, value)?;
            only(alloc, feature)
        }
        _ => {
            let feature = make_bare(alloc, rules, value)?;
            only(alloc, feature)
        }
    }
}
