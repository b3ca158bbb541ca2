//! The feature that an error lies in, and the member of its properties.
ghost use Rattle.faults.specs.Fault.{turn_of};
ghost use Rattle.fault_reports.specs.FaultyFeatures.{as_id, faulty_feature, faulty_id, faulty_member, first_fraction, has_type, goes_into, steps_in_geojson, steps_in_topology, steps_to_feature, value_at, value_at_step};
ghost use Rattle.serde_json.specs.View.{members_view, view};
ghost use Rattle.std.specs.Prelude.{◌≡◌, ◌<◌, ◌≤◌, IfSome, IsTrue, length, map, option_and_then, option_map};

use faults::Step;
use serde_json::{Map, Value};
use shapes::nesting::has_fraction;

/// What a text is read as.
#[derive(Clone, Copy, PartialEq, Eq, Debug)]
pub enum Format {
    GeoJson,
    Topology,
}

/// A member of an object, or an element of an array.
fn at_step<'v>(value: &'v Value, step: &Step) -> Option<&'v Value>
    ensures { option_map (λ v. view v.now) result ≡ value_at_step (turn_of step.now) (view value.now) }
{
    match step {
        Step::Name(name) => value.get(name.as_str()),
        Step::Index(index) => value.get(*index),
    }
}

/// The value at a path.
fn at_path<'v>(value: &'v Value, path: &[Step]) -> Option<&'v Value>
    ensures { option_map (λ v. view v.now) result ≡ value_at (map turn_of path.now) (view value.now) }
{
    let mut here = value;
    for step in path {
        here = at_step(here, step)?;
    }
    Some(here)
}

/// Whether a path goes into the member of a name, and further.
fn goes_into(path: &[Step], wanted: &str) -> bool
    ensures is { result ≡ goes_into wanted.now (map turn_of path.now) }
    ensures further { IsTrue result → 1 < length path.now }
{
    match path {
        [Step::Name(name), _, ..] => name.as_str() == wanted,
        _ => false,
    }
}

/// Whether the type of an object is the wanted one.
fn is_typed(value: &Value, wanted: &str) -> bool
    ensures { result ≡ has_type wanted.now (view value.now) }
{
    match value.get("type") {
        Some(kind) => kind.as_str() == Some(wanted),
        None => false,
    }
}

/// How many steps lead to the feature that an error of GeoJSON lies in, where it lies in one.
fn steps_in_geojson(text: &Value, path: &[Step]) -> Option<usize>
    ensures is { result ≡ steps_in_geojson (view text.now) (map turn_of path.now) }
    ensures within { IfSome result (λ n. n ≤ length path.now) }
{
    if goes_into(path, "features") {
        Some(2)
    } else if is_typed(text, "Feature") {
        Some(0)
    } else {
        None
    }
}

/// How many steps lead to the geometry that an error of a topology lies in, where it lies in one.
fn steps_in_topology(text: &Value, path: &[Step]) -> Option<usize>
    ensures is { result ≡ steps_in_topology (view text.now) (map turn_of path.now) }
    ensures within { IfSome result (λ n. n ≤ length path.now) }
{
    if !goes_into(path, "objects") {
        return None;
    }
    if goes_into(&path[2..], "geometries") {
        return Some(4);
    }
    let layer = at_path(text, &path[..2])?;
    if is_typed(layer, "GeometryCollection") {
        None
    } else {
        Some(2)
    }
}

/// How many steps lead to the feature that an error lies in, where it lies in one.
fn steps_to_feature(format: Format, text: &Value, path: &[Step]) -> Option<usize>
    ensures is { result ≡ steps_to_feature format (view text.now) (map turn_of path.now) }
    ensures within { IfSome result (λ n. n ≤ length path.now) }
{
    match format {
        Format::GeoJson => steps_in_geojson(text, path),
        Format::Topology => steps_in_topology(text, path),
    }
}

/// The path to the feature that an error lies in, where it lies in one.
fn feature_path<'p>(format: Format, text: &Value, path: &'p [Step]) -> Option<&'p [Step]>
    ensures { option_and_then (λ p. value_at (map turn_of p.now) (view text.now)) result ≡ faulty_feature format (view text.now) (map turn_of path.now) }
{
    let steps = steps_to_feature(format, text, path)?;
    Some(&path[..steps])
}

/// The feature that an error lies in, where it lies in one.
fn feature_at<'v>(format: Format, text: &'v Value, path: &[Step]) -> Option<&'v Value>
    ensures { option_map (λ v. view v.now) result ≡ faulty_feature format (view text.now) (map turn_of path.now) }
{
    at_path(text, feature_path(format, text, path)?)
}

/// Whether the errors at two paths lie in one feature.
pub(crate) fn is_one_feature(format: Format, text: &Value, one: &[Step], other: &[Step]) -> bool
    ensures { IsTrue result → faulty_id format (view text.now) (map turn_of one.now) ≡ faulty_id format (view text.now) (map turn_of other.now) }
{
    let Some(one) = feature_path(format, text, one) else {
        return false;
    };
    match feature_path(format, text, other) {
        Some(other) => one == other,
        None => false,
    }
}

/// An id: a string or an integer of 64 bits.
fn as_id(value: &Value) -> Option<&Value>
    ensures { option_map (λ v. view v.now) result ≡ as_id (view value.now) }
{
    match value {
        Value::String(_) => Some(value),
        Value::Number(number) => {
            number.as_i64()?;
            Some(value)
        }
        _ => None,
    }
}

/// The id of the feature that an error lies in, where it has one: a string or an integer of 64 bits.
pub fn id_at<'v>(format: Format, text: &'v Value, path: &[Step]) -> Option<&'v Value>
    ensures { option_map (λ v. view v.now) result ≡ faulty_id format (view text.now) (map turn_of path.now) }
{
    as_id(feature_at(format, text, path)?.get("id")?)
}

/// The name of the first member in which a number is no integer.
fn first_fraction(members: &Map<String, Value>) -> Option<&str>
    ensures { option_map (λ s. s.now) result ≡ first_fraction (members_view members.now.entries) }
{
    for (name, member) in members.iter() {
        if has_fraction(member) {
            return Some(name.as_str());
        }
    }
    None
}

/// The name of the first member of the properties at a path in which a number is no integer.
pub fn member_at<'v>(text: &'v Value, path: &[Step]) -> Option<&'v str>
    ensures { option_map (λ s. s.now) result ≡ faulty_member (view text.now) (map turn_of path.now) }
{
    first_fraction(at_path(text, path)?.as_object()?)
}
