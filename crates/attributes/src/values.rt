//! Values of properties, with their whole numbers as numbers and their other numbers as texts.
ghost use Rattle.attributes.specs.Attributes.{counted};
ghost use Rattle.attributes.specs.Numerals.{number_value, whole_of};
ghost use Rattle.attributes.specs.Values.{data_of, items_of, items_reals, members_of, members_reals, number_or, one_if, places_of, reals_of, scaled_property, unless_number};
ghost use Rattle.json.specs.Value.{items_view as json_items, members_view as json_members, value_view};
ghost use Rattle.serde_json.specs.Find.{get_member};
ghost use Rattle.serde_json.specs.View.{items_view, members_view, view};
ghost use Rattle.std.specs.Prelude.{◌+◌, ◌≡◌, not, is_some, IfOk, OnOk};

use crate::numeral::{scale, spell, whole_number};
use crate::rules::{Reals, Scale};
use faults::OutOfMemory;
use serde_json::{Map, Number, Value, put};
use std::alloc::Global;

/// The places by which a property is scaled, as the first of its scales says.
pub fn places_of(scales: &[Scale<'_>], name: &str) -> Option<u32>
    ensures { result ≡ places_of scales.now name.now }
{
    for scale in scales {
        if scale.property == name {
            return Some(scale.places);
        }
    }
    None
}

fn scale_property(scales: &[Scale<'_>], name: &str, value: &json::Value<'_>) -> Option<i64>
    ensures { result ≡ scaled_property scales.now name.now (value_view value.now) }
{
    let places = places_of(scales, name)?;
    let text = value.as_number()?;
    scale(text, places)
}

fn convert_number(
    alloc: Global,
    rule: Reals,
    text: &str,
    reals: &mut u64,
) -> Result<Value, OutOfMemory>
    ensures made { IfOk result (λ v. view v ≡ number_value rule text.now) }
    ensures reals { OnOk result (counted reals.new ≡ counted (reals.old + one_if (not (is_some (whole_of rule text.now))))) }
{
    match whole_number(rule, text) {
        Some(number) => Ok(Value::Number(number)),
        None => {
            *reals = reals.saturating_add(1);
            Ok(Value::String(String::from_str(alloc, spell(text))?))
        }
    }
}

// What a value becomes. It counts the numbers that become texts.
#[cycle(convert)]
fn convert(
    alloc: Global,
    rule: Reals,
    value: &json::Value<'_>,
    reals: &mut u64,
) -> Result<Value, OutOfMemory>
    ensures made { IfOk result (λ v. view v ≡ data_of rule (value_view value.now)) }
    ensures reals { OnOk result (counted reals.new ≡ counted (reals.old + reals_of rule (value_view value.now))) }
{
    match value {
        json::Value::Null => Ok(Value::Null),
        json::Value::Bool(b) => Ok(Value::Bool(*b)),
        json::Value::Number(text) => convert_number(alloc, rule, text, reals),
        json::Value::String(text) => Ok(Value::String(String::from_str(alloc, text)?)),
        json::Value::Array(items) => Ok(Value::Array(convert_items(alloc, rule, items, reals)?)),
        json::Value::Object(members) => {
            Ok(Value::Object(convert_members(alloc, rule, &[], members, reals)?))
        }
    }
}

#[cycle(convert)]
fn convert_items(
    alloc: Global,
    rule: Reals,
    items: &Vec<json::Value<'_>>,
    reals: &mut u64,
) -> Result<Vec<Value>, OutOfMemory>
    ensures made { IfOk result (λ v. items_view v.items ≡ items_of rule (json_items items.now.items)) }
    ensures reals { OnOk result (counted reals.new ≡ counted (reals.old + items_reals rule (json_items items.now.items))) }
{
    let mut made = Vec::new(alloc);
    for item in items {
        made.push(convert(alloc, rule, item, reals)?)?;
    }
    Ok(made)
}

fn has_member(members: &Map<String, Value>, name: &str) -> bool
    ensures { result ≡ is_some (get_member name.now (members_view members.now.entries)) }
{
    members.get(name).is_some()
}

// A member of an object, scaled if it is one of these properties.
#[cycle(convert)]
fn convert_member(
    alloc: Global,
    rule: Reals,
    scales: &[Scale<'_>],
    name: &str,
    value: &json::Value<'_>,
    reals: &mut u64,
) -> Result<Value, OutOfMemory>
    ensures made { IfOk result (λ v. view v ≡ number_or (scaled_property scales.now name.now (value_view value.now)) (data_of rule (value_view value.now))) }
    ensures reals { OnOk result (counted reals.new ≡ counted (reals.old + unless_number (scaled_property scales.now name.now (value_view value.now)) (reals_of rule (value_view value.now)))) }
{
    match scale_property(scales, name, value) {
        Some(number) => Ok(Value::Number(Number::from(number))),
        None => convert(alloc, rule, value, reals),
    }
}

// The members of an object, from the last one on: of members by one name the last counts.
#[cycle(convert)]
pub fn convert_members(
    alloc: Global,
    rule: Reals,
    scales: &[Scale<'_>],
    members: &Vec<(&str, json::Value<'_>)>,
    reals: &mut u64,
) -> Result<Map<String, Value>, OutOfMemory>
    ensures made { IfOk result (λ m. members_view m.entries ≡ members_of rule scales.now (json_members members.now.items)) }
    ensures reals { OnOk result (counted reals.new ≡ counted (reals.old + members_reals rule scales.now (json_members members.now.items))) }
{
    let mut made = Map::new(alloc);
    let mut left = members.len();
    while left > 0 {
        left -= 1;
        let member = &members[left];
        if !has_member(&made, member.0) {
            let value = convert_member(alloc, rule, scales, member.0, &member.1, reals)?;
            put(&mut made, alloc, member.0, value)?;
        }
    }
    Ok(made)
}
