//! The faults of a feature's id and properties.
ghost use Rattle.attributes.specs.Attributes.{properties_members, seen_member};
ghost use Rattle.attributes.specs.Refusals.{attributes_faults, id_faults, members_faults};
ghost use Rattle.reading.specs.FaultLists.Found.{pairs_of};
ghost use Rattle.serde_json.specs.Data.{depth, object};
ghost use Rattle.serde_json.specs.View.{members_view};
ghost use Rattle.reading.specs.Fault.{here};
ghost use Rattle.std.specs.Prelude.{◌≡◌, [], IfOk, nat_le, not, if◌then◌else◌};

use crate::id::member;
use crate::numeral::signed_number;
use crate::properties::{convert_properties, has_wrong_number};
use crate::rules::{AttributeRules, Reals};
use faults::{Fault, FaultKind, OutOfMemory};
use json::Value;
use reading::fault_lists::found::{join, one, put_under_name, under_name};
use serde_json::Map;
use shapes::nesting::{GREATEST_PROPERTY_DEPTH, nests_within};
use std::alloc::Global;

fn one_if(alloc: Global, applies: bool, kind: FaultKind) -> Result<Vec<Fault>, OutOfMemory>
    ensures { IfOk result (λ fs. pairs_of fs.items ≡ (if applies then here kind else [])) }
{
    if applies {
        Ok(one(alloc, kind)?)
    } else {
        Ok(Vec::new(alloc))
    }
}

fn nests_too_deep(members: Map<String, serde_json::Value>) -> bool
    ensures { result ≡ not (nat_le (depth (object (members_view members.entries))) GREATEST_PROPERTY_DEPTH) }
{
    let value = serde_json::Value::Object(members);
    !nests_within(&value, GREATEST_PROPERTY_DEPTH)
}

// The faults of the value of an id, which is a property or the member `id`.
fn judge_id(
    alloc: Global,
    is_property: bool,
    rule: Reals,
    value: Option<&Value<'_>>,
) -> Result<Vec<Fault>, OutOfMemory>
    ensures { IfOk result (λ fs. pairs_of fs.items ≡ id_faults is_property rule (seen_member value.entry)) }
{
    match value {
        None => one_if(alloc, is_property, FaultKind::Missing),
        Some(Value::Null) => one_if(alloc, is_property, FaultKind::WrongKind),
        Some(Value::Number(text)) => {
            one_if(
                alloc,
                rule.refuses() && signed_number(rule, text).is_none(),
                FaultKind::NotWhole,
            )
        }
        Some(Value::String(_)) => Ok(Vec::new(alloc)),
        Some(_) => one_if(alloc, true, FaultKind::WrongKind),
    }
}

// The faults of properties, with these of the id among them.
fn judge_properties(
    alloc: Global,
    rules: &AttributeRules<'_>,
    properties: Option<&Value<'_>>,
    named: Vec<Fault>,
) -> Result<Vec<Fault>, OutOfMemory>
    ensures { IfOk result (λ fs. pairs_of fs.items ≡ members_faults rules.now (seen_member properties.entry) (pairs_of named.items) (properties_members (seen_member properties.entry))) }
{
    let mut reals = 0u64;
    let made = convert_properties(alloc, rules.reals, rules.scales, properties, &mut reals)?;
    let Some(members) = made else {
        return one_if(alloc, true, FaultKind::WrongKind);
    };
    let depth = one_if(alloc, nests_too_deep(members), FaultKind::PropertyDepth)?;
    let number = one_if(
        alloc,
        has_wrong_number(rules, properties, reals),
        FaultKind::PropertyNumber,
    )?;
    let behind = join(depth, named)?;
    join(number, behind)
}

/// The faults of a feature's members `id` and `properties`, by their paths from the feature, in ascending order: `id`
/// (`WrongKind`, `NotWhole`), `properties` (`WrongKind`, `PropertyNumber`, `PropertyDepth`), and, where a property is
/// the id, that property (`Missing`, `WrongKind`, `NotWhole`).
///
/// # Errors
/// Where memory is refused.
pub fn attribute_faults(
    alloc: Global,
    rules: &AttributeRules<'_>,
    id: Option<&Value<'_>>,
    properties: Option<&Value<'_>>,
) -> Result<Vec<Fault>, OutOfMemory>
    ensures { IfOk result (λ fs. pairs_of fs.items ≡ attributes_faults rules.now (seen_member id.entry) (seen_member properties.entry)) }
{
    match rules.id {
        None => {
            let own = judge_id(alloc, false, rules.reals, id)?;
            let mut found = under_name(alloc, own, "id")?;
            let part = judge_properties(alloc, rules, properties, Vec::new(alloc))?;
            put_under_name(alloc, &mut found, part, "properties")?;
            Ok(found)
        }
        Some(name) => {
            let value = member(properties, name);
            let own = judge_id(alloc, true, rules.reals, value)?;
            let named = under_name(alloc, own, name)?;
            let part = judge_properties(alloc, rules, properties, named)?;
            under_name(alloc, part, "properties")
        }
    }
}
