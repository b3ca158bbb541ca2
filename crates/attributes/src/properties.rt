//! The properties of a feature as members of an object.
ghost use Rattle.attributes.specs.Attributes.{counted, members_or_none, properties_members, seen_member};
ghost use Rattle.attributes.specs.Refusals.{has_wrong_number};
ghost use Rattle.attributes.specs.Values.{has_beyond, is_beyond, members_of, members_reals, number_at};
ghost use Rattle.serde_json.specs.View.{members_view};
ghost use Rattle.std.specs.Prelude.{◌+◌, ◌≡◌, IfOk, OnOk, option_map};

use crate::id::member;
use crate::numeral::scale;
use crate::rules::{AttributeRules, Reals, Scale};
use crate::values::convert_members;
use faults::OutOfMemory;
use json::Value;
use serde_json::Map;
use std::alloc::Global;

/// The members of properties that are an object, missing or null, as they are to be; None of others. It counts the numbers
/// that become texts.
pub fn convert_properties(
    alloc: Global,
    rule: Reals,
    scales: &[Scale<'_>],
    properties: Option<&Value<'_>>,
    reals: &mut u64,
) -> Result<Option<Map<String, serde_json::Value>>, OutOfMemory>
    ensures made { IfOk result (λ o. option_map (λ m. members_view m.entries) o ≡ option_map (members_of rule scales.now) (properties_members (seen_member properties.entry))) }
    ensures reals { OnOk result (counted reals.new ≡ counted (reals.old + members_reals rule scales.now (members_or_none (seen_member properties.entry)))) }
{
    match properties {
        None | Some(Value::Null) => Ok(Some(Map::new(alloc))),
        Some(Value::Object(members)) => {
            let made = convert_members(alloc, rule, scales, members, reals)?;
            Ok(Some(made))
        }
        Some(_) => Ok(None),
    }
}

fn is_beyond(scale_of: &Scale<'_>, properties: Option<&Value<'_>>) -> bool
    ensures { result ≡ is_beyond scale_of.now.places (number_at scale_of.now.property.now (seen_member properties.entry)) }
{
    match member(properties, scale_of.property) {
        Some(Value::Number(text)) => scale(text, scale_of.places).is_none(),
        _ => false,
    }
}

fn has_beyond(scales: &[Scale<'_>], properties: Option<&Value<'_>>) -> bool
    ensures { result ≡ has_beyond scales.now (seen_member properties.entry) }
{
    for scale in scales {
        if is_beyond(scale, properties) {
            return true;
        }
    }
    false
}

/// Whether some number of properties is a fault, so many of their numbers becoming texts.
pub fn has_wrong_number(
    rules: &AttributeRules<'_>,
    properties: Option<&Value<'_>>,
    reals: u64,
) -> bool
    ensures { result ≡ has_wrong_number rules.now (seen_member properties.entry) reals }
{
    has_beyond(rules.scales, properties) || (rules.reals.refuses() && reals > 0)
}
