//! The way back: properties with their numbers as they were before they became whole numbers and texts.
ghost use Rattle.attributes.specs.Back.{members_back, properties_back, unscaled, value_back};
ghost use Rattle.json.specs.Print.{quoted};
ghost use Rattle.serde_json.specs.View.{members_view, number_view, view};
ghost use Rattle.serde_json.specs.Written.{comma_if, has_float, members_have_float};
ghost use Rattle.shapes.specs.Parts.{properties_text};
ghost use Rattle.std.specs.BTreeMap.{get_by_text};
ghost use Rattle.std.specs.Prelude.{◌≡◌, ◌++◌, ◌∷◌, [], false, IfOk, is_some, OnOk, string_bytes};

use crate::decimals::is_decimal;
use crate::rules::Scale;
use crate::values::places_of;
use faults::OutOfMemory;
use numerals::Decimal;
use serde_json::{Map, Number, Value};
use shapes::{Props, Spelled};
use std::alloc::Global;
use std::collections::BTreeMap;

// The number that a whole number was before it was scaled.
fn unscale(places: Option<u32>, number: &Number) -> Option<Decimal>
    ensures { result ≡ unscaled places (number_view number.now) }
{
    let places = places?;
    let value = number.as_i128()?;
    Decimal::new(value, places)
}

// What is printed of a member.
fn value_text(
    alloc: Global,
    is_numeric: bool,
    places: Option<u32>,
    value: &Value,
) -> Result<String, OutOfMemory>
    ensures { IfOk result (λ t. has_float (view value.now) ≡ false → string_bytes t ≡ value_back is_numeric places (view value.now)) }
{
    match value {
        Value::Number(number) => match unscale(places, number) {
            Some(amount) => Ok(amount.to_text(alloc)?),
            None => Ok(value.to_string(alloc)?),
        },
        Value::String(text) => if is_numeric && is_decimal(text) {
            Ok(String::from_str(alloc, text)?)
        } else {
            Ok(value.to_string(alloc)?)
        },
        _ => Ok(value.to_string(alloc)?),
    }
}

// A member's name, in quotes and with a colon, behind a comma where members are before it.
fn push_name(alloc: Global, text: &mut String, later: bool, name: &str) -> Result<(), OutOfMemory>
    ensures { OnOk result (string_bytes text.new ≡ string_bytes text.old ++ (comma_if later ++ (quoted name.now ++ (58 ∷ [])))) }
{
    let name = Spelled::new(alloc, name)?;
    if later {
        text.push_str(",")?;
    }
    text.push_str(name.spelling())?;
    text.push_str(":")?;
    Ok(())
}

fn push_member(
    alloc: Global,
    text: &mut String,
    later: bool,
    is_numeric: bool,
    places: Option<u32>,
    name: &str,
    value: &Value,
) -> Result<(), OutOfMemory>
    ensures { OnOk result (has_float (view value.now) ≡ false → string_bytes text.new ≡ string_bytes text.old ++ (comma_if later ++ (quoted name.now ++ 58 ∷ value_back is_numeric places (view value.now)))) }
{
    push_name(alloc, text, later, name)?;
    let printed = value_text(alloc, is_numeric, places, value)?;
    text.push_str(&printed)?;
    Ok(())
}

fn members_text(
    alloc: Global,
    numbers: &BTreeMap<String, u64>,
    scales: &[Scale<'_>],
    members: &Map<String, Value>,
) -> Result<String, OutOfMemory>
    ensures { IfOk result (λ t. members_have_float (members_view members.now.entries) ≡ false → string_bytes t ≡ 123 ∷ members_back (λ name. is_some (get_by_text numbers.now name)) scales.now false (members_view members.now.entries)) }
{
    let mut text = String::from_str(alloc, "{")?;
    let mut later = false;
    for (name, value) in members.iter() {
        let is_numeric = numbers.contains_key(name.as_str());
        let places = places_of(scales, name);
        push_member(alloc, &mut text, later, is_numeric, places, name, value)?;
        later = true;
    }
    text.push_str("}")?;
    Ok(text)
}

/// The text of properties in which the decimal texts of some members are numbers, without quotes, and the whole numbers
/// of scaled members are divided by their power of ten again. All else stays as it is, and so do numbers of more than 30
/// places.
///
/// # Errors
/// Where memory is refused.
pub fn properties_back(
    alloc: Global,
    props: &Props,
    numbers: &BTreeMap<String, u64>,
    scales: &[Scale<'_>],
) -> Result<String, OutOfMemory>
    ensures { IfOk result (λ t. string_bytes t ≡ properties_back (λ name. is_some (get_by_text numbers.now name)) scales.now (properties_text props.now)) }
{
    let Ok(value) = Value::from_str(alloc, props.text()) else {
        return Err(OutOfMemory);
    };
    let Value::Object(members) = value else {
        return Err(OutOfMemory);
    };
    members_text(alloc, numbers, scales, &members)
}
