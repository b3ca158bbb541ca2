//! From a borrowed topology to its text in the unit of the map.
ghost use Rattle.decimals.specs.Topology.TransformFaults.{IsTransformOf, text_numerals};
ghost use Rattle.faults.specs.Fault.{IsWant, pair_of};
ghost use Rattle.faults.specs.Path.{name as name_turn};
ghost use Rattle.noshinka.specs.BackOptions.{are_back_options};
ghost use Rattle.noshinka.specs.WayBack.{IsBackAnswer, IsBackRefusal, IsBackText, IsBackTextRefusal, IsBoxRefusal, IsLike, IsLikeRefusal, IsLikeTextRefusal, IsOfBox, IsOwnRefusal, IsOwnText, IsTextOn, fault_at, like_fault};
ghost use Rattle.noshinka.specs.RoundOptions.{IsSize, numeral_of};
ghost use Rattle.c_calls.specs.Why.{IsTextRefusal};
ghost use Rattle.numerals.specs.Numeral.{measure_of};
ghost use Rattle.rounded_maps.specs.Sequences.{without_mark};
ghost use Rattle.std.specs.Prelude.{◌≡◌, ◌≤◌, [], ◌∷◌, IfErr, IfNone, IfOk, IfSome, true};
ghost use Rattle.topo_io.specs.Means.{MeansTopology};

use crate::back_options::{WayBackOptions, are_back_options, back_names_of, back_rules_of};
use crate::rules::numeral_of;
use crate::topologies::topology_of;
use c_calls::refusal::CallRefusal;
use decimals::topology::{BackRules, DecimalTransform, TransformFault, text_of, text_on};
use faults::{Fault, FaultKind, OutOfMemory};
use numerals::DecimalStep;
use rounded_maps::texts_of;
use std::alloc::Global;
use topo::Topology;

/// The bytes of a text behind a byte order mark in front.
#[tactic(auto, using(crate::proofs::Backs::only_text))]
fn behind_mark<'t>(alloc: Global, text: &'t [u8]) -> Result<&'t [u8], OutOfMemory>
    ensures { IfOk result (λ t. t.now ≡ without_mark text.now) }
{
    let texts = texts_of(alloc, text, false)?;
    match texts.first() {
        Some(first) => Ok(*first),
        None => Ok(text),
    }
}

/// The topology of a text behind a byte order mark.
#[tactic(auto, using(crate::proofs::Backs::mark_memory))]
fn topology_behind(alloc: Global, text: &[u8]) -> Result<Topology, CallRefusal>
    ensures means { IfOk result (MeansTopology (without_mark text.now)) }
    ensures refused { IfErr result (IsTextRefusal 0 (without_mark text.now)) }
{
    let text = behind_mark(alloc, text)?;
    topology_of(alloc, 0, text)
}

/// A fault of a member of a text.
#[tactic(auto, using(crate::proofs::Backs::lifted_once))]
fn member_fault(alloc: Global, kind: FaultKind, member: &str) -> Fault
    ensures { (IsWant result → ⊥) → pair_of result ≡ fault_at (name_turn member.now ∷ []) kind }
{
    Fault::here(alloc, kind).under_name(alloc, member)
}

/// The fault of a text of which no transform is taken.
fn fault_of_like(alloc: Global, fault: TransformFault) -> Fault
    ensures { (IsWant result → ⊥) → pair_of result ≡ like_fault fault }
{
    match fault {
        TransformFault::NotJson => Fault::here(alloc, FaultKind::NotJson),
        TransformFault::NotTopology => member_fault(alloc, FaultKind::UnknownType, "type"),
        TransformFault::NoTransform => member_fault(alloc, FaultKind::NoTransform, "transform"),
        TransformFault::NotTwoNumbers => member_fault(alloc, FaultKind::NotTwo, "transform"),
        TransformFault::ZeroScale | TransformFault::TooManyDigits => member_fault(
            alloc,
            FaultKind::OutOfRange,
            "transform",
        ),
        TransformFault::OutOfMemory => Fault::here(alloc, FaultKind::OutOfMemory),
    }
}

/// The transform of another text.
#[tactic(auto, using(crate::proofs::Backs::like_memory))]
fn transform_of_like(
    alloc: Global,
    like: &[u8],
    unit: &DecimalStep,
) -> Result<DecimalTransform, CallRefusal>
    ensures made { IfOk result (IsTransformOf unit.now (text_numerals (without_mark like.now))) }
    ensures refused { IfErr result (IsLikeRefusal unit.now (without_mark like.now)) }
{
    let like = behind_mark(alloc, like)?;
    match DecimalTransform::read(alloc, like, unit) {
        Ok(transform) => Ok(transform),
        Err(fault) => Err(CallRefusal::of_text(1, fault_of_like(alloc, fault))),
    }
}

/// The text of a topology on its own transform.
#[tactic(auto, using(crate::proofs::Backs::own_made, crate::proofs::Backs::own_text, crate::proofs::Backs::own_decimal))]
fn own_text(
    alloc: Global,
    unit: &DecimalStep,
    rules: &BackRules<'_>,
    text: &[u8],
) -> Result<Vec<u8>, CallRefusal>
    ensures made { IfOk result (λ t. IsOwnText unit.now rules.now (without_mark text.now) t.items) }
    ensures refused { IfErr result (IsOwnRefusal unit.now (without_mark text.now)) }
{
    let topology = topology_behind(alloc, text)?;
    Ok(text_of(alloc, &topology, unit, rules)?)
}

/// The text of a topology on the transform of another text.
#[tactic(auto, using(crate::proofs::Backs::like_made, crate::proofs::Backs::like_refused, crate::proofs::Backs::like_text, crate::proofs::Backs::like_decimal))]
fn like_text(
    alloc: Global,
    options: &WayBackOptions<'_>,
    unit: &DecimalStep,
    rules: &BackRules<'_>,
    text: &[u8],
) -> Result<Vec<u8>, CallRefusal>
    ensures made { IfOk result (λ t. IsTextOn (IsLike unit.now (without_mark options.now.like.now)) rules.now (without_mark text.now) t.items) }
    ensures refused { IfErr result (IsLikeTextRefusal unit.now (without_mark options.now.like.now) (without_mark text.now)) }
{
    let transform = transform_of_like(alloc, options.like, unit)?;
    let topology = topology_behind(alloc, text)?;
    Ok(text_on(alloc, &topology, &transform, rules)?)
}

/// The text of a topology on a transform of so many steps along each side of its bounding box.
#[tactic(auto, using(crate::proofs::Backs::box_made, crate::proofs::Backs::box_text, crate::proofs::Backs::box_wide, crate::proofs::Backs::box_decimal))]
fn box_text(
    alloc: Global,
    steps: u64,
    unit: &DecimalStep,
    rules: &BackRules<'_>,
    text: &[u8],
) -> Result<Vec<u8>, CallRefusal>
    requires { 1 ≤ steps }
    ensures made { IfOk result (λ t. IsTextOn (IsOfBox unit.now steps) rules.now (without_mark text.now) t.items) }
    ensures refused { IfErr result (IsBoxRefusal unit.now steps (without_mark text.now)) }
{
    let topology = topology_behind(alloc, text)?;
    let transform = DecimalTransform::of_box(alloc, &topology, unit, steps)?;
    Ok(text_on(alloc, &topology, &transform, rules)?)
}

/// The text of a topology on the transform that the options ask for.
#[tactic(auto, using(crate::proofs::Backs::some_count, crate::proofs::Backs::some_steps, crate::proofs::Backs::own_asked, crate::proofs::Backs::like_asked, crate::proofs::Backs::box_asked, crate::proofs::Backs::own_not, crate::proofs::Backs::like_not, crate::proofs::Backs::box_not))]
fn back_text(
    alloc: Global,
    options: &WayBackOptions<'_>,
    unit: &DecimalStep,
    rules: &BackRules<'_>,
    text: &[u8],
) -> Result<Vec<u8>, CallRefusal>
    requires { are_back_options options.now ≡ true }
    ensures made { IfOk result (λ t. IsBackText options.now unit.now rules.now (without_mark text.now) t.items) }
    ensures refused { IfErr result (IsBackTextRefusal options.now unit.now (without_mark text.now)) }
{
    match options.transform {
        0 => own_text(alloc, unit, rules, text),
        1 => like_text(alloc, options, unit, rules, text),
        _ => box_text(alloc, options.count - 1, unit, rules, text),
    }
}

/// What an absolute 1 is worth.
fn unit_of(unit: &[u8]) -> Option<DecimalStep>
    ensures unit { IfSome result (λ u. u ≡ measure_of (numeral_of unit.now)) }
    ensures size { IfSome result (λ _. IsSize (numeral_of unit.now)) }
    ensures none { IfNone result (¬ IsSize (numeral_of unit.now)) }
{
    let unit = DecimalStep::parse(numeral_of(unit))?;
    Some(unit)
}

/// What `togrid --back` prints of a topology's text, as the options say.
#[tactic(auto, using(crate::proofs::Backs::back_choice, crate::proofs::Backs::back_unit, crate::proofs::Backs::back_names, crate::proofs::Backs::back_not, crate::proofs::Backs::back_made))]
pub(crate) fn back(
    alloc: Global,
    options: &WayBackOptions<'_>,
    text: &[u8],
) -> Result<Vec<u8>, CallRefusal>
    ensures made { IfOk result (λ t. IsBackAnswer options.now text.now t.items) }
    ensures refused { IfErr result (IsBackRefusal options.now text.now) }
{
    if !are_back_options(options) {
        return Err(CallRefusal::BadChoice);
    }
    let Some(unit) = unit_of(options.unit) else {
        return Err(CallRefusal::BadGrid);
    };
    let names = back_names_of(alloc, options)?;
    let rules = back_rules_of(options, &names);
    back_text(alloc, options, &unit, &rules, text)
}
