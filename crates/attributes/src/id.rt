//! The id that a value means.
ghost use Rattle.attributes.specs.Attributes.{counted, id_of, id_reals, id_source, number_id, seen_member};
ghost use Rattle.attributes.specs.Numerals.{signed_of, spelled};
ghost use Rattle.attributes.specs.Refusals.{id_faults, refuses};
ghost use Rattle.attributes.specs.Values.{one_if};
ghost use Rattle.json.specs.Find.{get};
ghost use Rattle.reading.specs.Plain.{plain_id};
ghost use Rattle.shapes.specs.Ids.{HasI64};
ghost use Rattle.std.specs.Prelude.{◌&&◌, ◌+◌, ◌≡◌, ◌≢◌, [], true, Err, IfOk, OnOk, false, is_some, not, option_and_then};

use crate::info::Unread;
use crate::numeral::{signed_number, spell};
use crate::rules::{AttributeRules, Reals};
use json::Value;
use shapes::{Id, Spelled};
use std::alloc::Global;

/// The last member of that name, where there is an object.
pub fn member<'v, 'a>(value: Option<&'v Value<'a>>, name: &str) -> Option<&'v Value<'a>>
    ensures { seen_member result ≡ option_and_then (get name.now) (seen_member value.entry) }
{
    match value {
        Some(value) => value.get(name),
        None => None,
    }
}

// The id that a numeral is: a number of 64 signed bits, or its text.
fn read_number_id(alloc: Global, rule: Reals, text: &str, reals: &mut u64) -> Result<Id, Unread>
    ensures made { IfOk result (λ id. plain_id id ≡ number_id (signed_of rule text.now) (spelled text.now)) }
    ensures bits { IfOk result HasI64 }
    ensures reals { OnOk result (counted reals.new ≡ counted (reals.old + one_if (not (is_some (signed_of rule text.now))))) }
    ensures ok { OnOk result (refuses rule && not (is_some (signed_of rule text.now)) ≡ false) }
    ensures refused { result ≡ Err Unread.Faulty → refuses rule && not (is_some (signed_of rule text.now)) ≡ true }
{
    match signed_number(rule, text) {
        Some(number) => Ok(Id::Number(number)),
        None => {
            if rule.refuses() {
                return Err(Unread::Faulty);
            }
            *reals = reals.saturating_add(1);
            Ok(Id::Text(Spelled::new(alloc, spell(text))?))
        }
    }
}

// The id that a value means, the value being a property or the member `id`. It counts a number that becomes a text.
fn read_value_id(
    alloc: Global,
    is_property: bool,
    rule: Reals,
    value: Option<&Value<'_>>,
    reals: &mut u64,
) -> Result<Id, Unread>
    ensures made { IfOk result (λ id. plain_id id ≡ id_of rule (seen_member value.entry)) }
    ensures bits { IfOk result HasI64 }
    ensures reals { OnOk result (counted reals.new ≡ counted (reals.old + id_reals rule (seen_member value.entry))) }
    ensures ok { OnOk result (id_faults is_property rule (seen_member value.entry) ≡ []) }
    ensures refused { result ≡ Err Unread.Faulty → id_faults is_property rule (seen_member value.entry) ≢ [] }
{
    match value {
        None | Some(Value::Null) => if is_property {
            Err(Unread::Faulty)
        } else {
            Ok(Id::None)
        },
        Some(Value::Number(text)) => read_number_id(alloc, rule, text, reals),
        Some(Value::String(text)) => Ok(Id::Text(Spelled::new(alloc, text)?)),
        Some(_) => Err(Unread::Faulty),
    }
}

/// The id that a feature's members mean: the member `id`, or the property of that name. It counts a number that becomes a
/// text.
pub fn read_id(
    alloc: Global,
    rules: &AttributeRules<'_>,
    id: Option<&Value<'_>>,
    properties: Option<&Value<'_>>,
    reals: &mut u64,
) -> Result<Id, Unread>
    ensures made { IfOk result (λ x. plain_id x ≡ id_of rules.now.reals (id_source rules.now.id (seen_member id.entry) (seen_member properties.entry))) }
    ensures bits { IfOk result HasI64 }
    ensures reals { OnOk result (counted reals.new ≡ counted (reals.old + id_reals rules.now.reals (id_source rules.now.id (seen_member id.entry) (seen_member properties.entry)))) }
    ensures ok { OnOk result (id_faults (is_some rules.now.id) rules.now.reals (id_source rules.now.id (seen_member id.entry) (seen_member properties.entry)) ≡ []) }
    ensures refused { result ≡ Err Unread.Faulty → id_faults (is_some rules.now.id) rules.now.reals (id_source rules.now.id (seen_member id.entry) (seen_member properties.entry)) ≢ [] }
{
    match rules.id {
        None => read_value_id(alloc, false, rules.reals, id, reals),
        Some(name) => {
            let value = member(properties, name);
            read_value_id(alloc, true, rules.reals, value, reals)
        }
    }
}
