//! The id and the properties that a feature's members mean.
ghost use Rattle.attributes.specs.Attributes.{AreAttributes, counted, members_or_none, properties_members, seen_member};
ghost use Rattle.attributes.specs.Refusals.{attributes_faults, members_faults};
ghost use Rattle.attributes.specs.Values.{members_of, members_reals};
ghost use Rattle.faults.specs.Fault.{Pair};
ghost use Rattle.serde_json.specs.Data.{object};
ghost use Rattle.serde_json.specs.Written.{compact_text};
ghost use Rattle.serde_json.specs.View.{members_view};
ghost use Rattle.shapes.specs.Parts.{properties_text};
ghost use Rattle.shapes.specs.PropertyFaults.{property_fault};
ghost use Rattle.std.specs.Prelude.{◌+◌, ◌≡◌, ◌≢◌, [], ◌++◌, List, Err, None, IfOk, OnOk};

use crate::id::read_id;
use crate::info::{Attributes, Unread};
use crate::properties::{convert_properties, has_wrong_number};
use crate::rules::AttributeRules;
use json::Value;
use serde_json::Map;
use shapes::{PropFault, Props};
use std::alloc::Global;

fn make_properties(alloc: Global, members: Map<String, serde_json::Value>) -> Result<Props, Unread>
    ensures text { IfOk result (λ p. properties_text p ≡ compact_text (object (members_view members.entries))) }
    ensures ok { OnOk result (property_fault (object (members_view members.entries)) ≡ None) }
    ensures refused { result ≡ Err Unread.Faulty → property_fault (object (members_view members.entries)) ≢ None }
{
    let value = serde_json::Value::Object(members);
    match Props::from_value(alloc, &value) {
        Ok(props) => Ok(props),
        Err(fault) => match fault {
            PropFault::OutOfMemory => Err(Unread::OutOfMemory),
            _ => Err(Unread::Faulty),
        },
    }
}

// The properties, with the count of the numbers that became texts.
fn read_properties(
    alloc: Global,
    rules: &AttributeRules<'_>,
    properties: Option<&Value<'_>>,
    reals: &mut u64,
) -> Result<Props, Unread>
    ensures made { IfOk result (λ p. properties_text p ≡ compact_text (object (members_of rules.now.reals rules.now.scales.now (members_or_none (seen_member properties.entry))))) }
    ensures reals { OnOk result (reals.new ≡ counted (reals.old + members_reals rules.now.reals rules.now.scales.now (members_or_none (seen_member properties.entry)))) }
    ensures ok { OnOk result ((named : List Pair) → members_faults rules.now (seen_member properties.entry) named (properties_members (seen_member properties.entry)) ≡ named) }
    ensures refused { result ≡ Err Unread.Faulty → (named : List Pair) → members_faults rules.now (seen_member properties.entry) named (properties_members (seen_member properties.entry)) ≢ [] }
{
    let mut texts = 0u64;
    let made = convert_properties(alloc, rules.reals, rules.scales, properties, &mut texts)?;
    let Some(members) = made else {
        return Err(Unread::Faulty);
    };
    if has_wrong_number(rules, properties, texts) {
        return Err(Unread::Faulty);
    }
    *reals = reals.saturating_add(texts);
    make_properties(alloc, members)
}

/// The id and the properties of a feature, by its members `id` and `properties`, which may be missing (RFC 7946, section
/// 3.2).
///
/// Whole numbers of 64 bits are numbers, others become the texts of their numerals, and scaled properties whole numbers.
/// `rules.reals` says which numbers are whole.
///
/// # Errors
/// `Faulty` where the members have faults, which `attribute_faults` lists; `OutOfMemory`.
pub fn read_attributes(
    alloc: Global,
    rules: &AttributeRules<'_>,
    id: Option<&Value<'_>>,
    properties: Option<&Value<'_>>,
) -> Result<Attributes, Unread>
    ensures made { IfOk result (AreAttributes rules.now (seen_member id.entry) (seen_member properties.entry)) }
    ensures ok { OnOk result (attributes_faults rules.now (seen_member id.entry) (seen_member properties.entry) ≡ []) }
    ensures refused { result ≡ Err Unread.Faulty → attributes_faults rules.now (seen_member id.entry) (seen_member properties.entry) ≢ [] }
{
    let mut reals = 0u64;
    let id = read_id(alloc, rules, id, properties, &mut reals)?;
    match read_properties(alloc, rules, properties, &mut reals) {
        Ok(props) => Ok(Attributes { id, props, reals }),
        Err(error) => Err(error),
    }
}
