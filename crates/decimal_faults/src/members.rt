//! Members of objects.
ghost use Rattle.decimal_faults.specs.Parts.{member_faults, option_faults, type_text};
ghost use Rattle.fixing.specs.declared.rules.FixingRules.{FixingRules as Rules};
ghost use Rattle.json.specs.Find.{as_object, get};
ghost use Rattle.json.specs.Json.{Json};
ghost use Rattle.json.specs.Value.{value_view};
ghost use Rattle.reading.specs.FaultLists.Found.{pairs_of};
ghost use Rattle.std.specs.Prelude.{◌≡◌, ◌≢◌, [], is_some, IfOk, IfErr, Ok, Err, Some};

use crate::part::Part;
use decimal_maps::Stop;
use faults::OutOfMemory;
use faults::fault::{Fault, FaultKind};
use fixing::FixingRules;
use json::Value;
use reading::fault_lists::found::{one, under_name};
use std::alloc::Global;

/// Whether a value is an object.
pub fn is_object(value: &Value<'_>) -> bool
    ensures { result ≡ is_some (as_object (value_view value.now)) }
{
    if let Value::Object(_) = value {
        true
    } else {
        false
    }
}

/// The text of an object's member `type`, or why it has none.
pub fn type_name<'v, 'a>(value: &'v Value<'a>) -> Result<&'a str, FaultKind>
    ensures ok { IfOk result (λ s. type_text (value_view value.now) ≡ Ok s.now) }
    ensures err { IfErr result (λ k. type_text (value_view value.now) ≡ Err k) }
{
    match value.get("type") {
        None => Err(FaultKind::Missing),
        Some(member) => match member.as_str() {
            None => Err(FaultKind::WrongKind),
            Some(text) => Ok(text),
        },
    }
}

/// A member that has to be there; a missing one is reported at its own path.
///
/// # Errors
/// Where memory is refused.
pub fn judge_member<P: Part>(
    alloc: Global,
    of: &P,
    fixing: &FixingRules,
    value: &Value<'_>,
    member: &str,
) -> Result<Vec<Fault>, OutOfMemory>
    ensures { IfOk result (λ fs. pairs_of fs.items ≡ member_faults member.now (P.faults of.now fixing.now) (value_view value.now)) }
{
    match value.get(member) {
        None => {
            let missing = one(alloc, FaultKind::Missing)?;
            let found = under_name(alloc, missing, member)?;
            Ok(found)
        }
        Some(there) => {
            let part = of.judge(alloc, fixing, there)?;
            let found = under_name(alloc, part, member)?;
            Ok(found)
        }
    }
}

/// What such a member means.
pub fn make_member<P: Part>(
    alloc: Global,
    of: &P,
    value: &Value<'_>,
    member: &str,
    count: &mut P::Count,
) -> Result<P::Made, Stop>
    ensures made { IfOk result (λ x. (k : Json) × (get member.now (value_view value.now) ≡ Some k) × P.means of.now k x count.old count.new) }
    ensures refused { result ≡ Err Stop.Unread → (fixing : Rules) → member_faults member.now (P.faults of.now fixing) (value_view value.now) ≢ [] }
{
    match value.get(member) {
        None => Err(Stop::Unread),
        Some(there) => of.make(alloc, there, count),
    }
}

/// A member that may be missing.
///
/// # Errors
/// Where memory is refused.
pub fn judge_option<P: Part>(
    alloc: Global,
    of: &P,
    fixing: &FixingRules,
    value: &Value<'_>,
    member: &str,
) -> Result<Vec<Fault>, OutOfMemory>
    ensures { IfOk result (λ fs. pairs_of fs.items ≡ option_faults member.now (P.faults of.now fixing.now) (value_view value.now)) }
{
    match value.get(member) {
        None => Ok(Vec::new(alloc)),
        Some(there) => {
            let part = of.judge(alloc, fixing, there)?;
            let found = under_name(alloc, part, member)?;
            Ok(found)
        }
    }
}
