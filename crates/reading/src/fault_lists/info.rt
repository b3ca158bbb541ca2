//! Faults of ids and properties.
ghost use Rattle.reading.specs.FaultLists.Found.{AreFound, AtMostOne, pairs_of};
ghost use Rattle.reading.specs.Info.{id_faults, properties_faults, info_faults, number_in_faults, depth_faults};
ghost use Rattle.serde_json.specs.View.{view};
ghost use Rattle.std.specs.Prelude.{◌++◌, IfOk};

use crate::fault_lists::found::{Wanted, is_enough, join, one};
use crate::fault_lists::judge::Judge;
use crate::fault_lists::members::judge_option;
use crate::info::{Ids, Properties};
use faults::OutOfMemory;
use faults::fault::{Fault, FaultKind};
use serde_json::Value;
use shapes::nesting::{GREATEST_PROPERTY_DEPTH, has_fraction, nests_within};
use std::alloc::Global;

impl Judge for Ids {
    ghost faults = { λ _. id_faults };

    #[tactic(auto, using(crate::proofs::FaultListsLemmas::Wholes::found_leaf))]
    fn judge(
        &self,
        alloc: Global,
        wanted: Wanted,
        value: &Value,
    ) -> Result<Vec<Fault>, OutOfMemory> {
        match value {
            Value::Null | Value::String(_) => Ok(Vec::new(alloc)),
            Value::Number(number) => match number.as_i64() {
                Some(_) => Ok(Vec::new(alloc)),
                None => Ok(one(alloc, FaultKind::NotWhole)?),
            },
            _ => Ok(one(alloc, FaultKind::WrongKind)?),
        }
    }
}

#[tactic(auto, using(crate::proofs::FaultListsLemmas::Kept::one_none))]
fn number_fault(alloc: Global, value: &Value) -> Result<Vec<Fault>, OutOfMemory>
    ensures { IfOk result (λ fs. AtMostOne (number_in_faults (view value.now)) (pairs_of fs.items)) }
{
    if has_fraction(value) {
        Ok(one(alloc, FaultKind::PropertyNumber)?)
    } else {
        Ok(Vec::new(alloc))
    }
}

#[tactic(auto, using(crate::proofs::FaultListsLemmas::Kept::one_none))]
fn depth_fault(alloc: Global, value: &Value) -> Result<Vec<Fault>, OutOfMemory>
    ensures { IfOk result (λ fs. AtMostOne (depth_faults (view value.now)) (pairs_of fs.items)) }
{
    if nests_within(value, GREATEST_PROPERTY_DEPTH) {
        Ok(Vec::new(alloc))
    } else {
        Ok(one(alloc, FaultKind::PropertyDepth)?)
    }
}

// Both kinds of faults of an object.
#[tactic(auto, using(crate::proofs::FaultListsLemmas::Kept::found_more, crate::proofs::FaultListsLemmas::Kept::found_enough, crate::proofs::FaultListsLemmas::Kept::found_same))]
fn judge_object(alloc: Global, wanted: Wanted, value: &Value) -> Result<Vec<Fault>, OutOfMemory>
    ensures { IfOk result (λ fs. AreFound wanted (number_in_faults (view value.now) ++ depth_faults (view value.now)) (pairs_of fs.items)) }
{
    let number = number_fault(alloc, value)?;
    if is_enough(wanted, &number) {
        return Ok(number);
    }
    let depth = depth_fault(alloc, value)?;
    let found = join(number, depth)?;
    Ok(found)
}

impl Judge for Properties {
    ghost faults = { λ _. properties_faults };

    #[tactic(auto, using(crate::proofs::FaultListsLemmas::Wholes::found_leaf))]
    fn judge(
        &self,
        alloc: Global,
        wanted: Wanted,
        value: &Value,
    ) -> Result<Vec<Fault>, OutOfMemory> {
        match value {
            Value::Null => Ok(Vec::new(alloc)),
            Value::Object(_) => Ok(judge_object(alloc, wanted, value)?),
            _ => Ok(one(alloc, FaultKind::WrongKind)?),
        }
    }
}

/// The members `id` and `properties` of an object, which may be missing.
///
/// # Errors
/// Where memory is refused.
#[tactic(auto, using(crate::proofs::FaultListsLemmas::Kept::found_more, crate::proofs::FaultListsLemmas::Kept::found_enough))]
pub fn judge_info(alloc: Global, wanted: Wanted, value: &Value) -> Result<Vec<Fault>, OutOfMemory>
    ensures { IfOk result (λ fs. AreFound wanted (info_faults (view value.now)) (pairs_of fs.items)) }
{
    let id = judge_option(alloc, wanted, &Ids, value, "id")?;
    if is_enough(wanted, &id) {
        return Ok(id);
    }
    let properties = judge_option(alloc, wanted, &Properties, value, "properties")?;
    let found = join(id, properties)?;
    Ok(found)
}
