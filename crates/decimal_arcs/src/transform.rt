//! The transform of a topology (TopoJSON, section 2.1.2).
ghost use Rattle.decimal_arcs.specs.Transforms as spec;
ghost use Rattle.decimal_arcs.specs.Transforms.{fit_faults, fits_faults, limit_faults, members_faults, pair_faults, quantization_of, texts_of, transform_faults, two_faults};
ghost use Rattle.decimal_faults.specs.Parts.{member_faults};
ghost use Rattle.json.specs.Value.{value_view, items_view};
ghost use Rattle.reading.specs.FaultLists.Found.{pairs_of};
ghost use Rattle.std.specs.Prelude.{◌≡◌, ◌≢◌, [], codes, IfOk, OnOk, IfSome, Err, Some, None, option_map};

use crate::place::{NumeralTransform, Quantization};
use decimal_faults::lists::items_of;
use decimal_faults::members::is_object;
use decimal_maps::{DecimalGrid, Stop};
use faults::OutOfMemory;
use faults::fault::{Fault, FaultKind};
use json::Value;
use numerals::{DecimalAxis, is_fit};
use reading::fault_lists::found::{join, one, put_under_index, under_name};
use std::alloc::Global;

/// The numerals of two numbers, the first for x.
#[derive(Clone, Copy)]
struct Texts<'t> {
    x: &'t str,
    y: &'t str,
}

fn judge_number(alloc: Global, value: &Value<'_>) -> Result<Vec<Fault>, OutOfMemory>
    ensures { IfOk result (λ fs. pairs_of fs.items ≡ spec.number_faults (value_view value.now)) }
{
    match value.as_number() {
        Some(_) => Ok(Vec::new(alloc)),
        None => { Ok(one(alloc, FaultKind::WrongKind)?) }
    }
}

fn judge_two(alloc: Global, values: &[Value<'_>]) -> Result<Vec<Fault>, OutOfMemory>
    ensures { IfOk result (λ fs. pairs_of fs.items ≡ two_faults (items_view values.now)) }
{
    if values.len() != 2 {
        return Ok(one(alloc, FaultKind::NotTwo)?);
    }
    let x = judge_number(alloc, &values[0])?;
    let y = judge_number(alloc, &values[1])?;
    let mut found = Vec::new(alloc);
    put_under_index(&mut found, x, 0)?;
    put_under_index(&mut found, y, 1)?;
    Ok(found)
}

// The faults of an array of two numbers.
fn judge_pair(alloc: Global, value: &Value<'_>) -> Result<Vec<Fault>, OutOfMemory>
    ensures { IfOk result (λ fs. pairs_of fs.items ≡ pair_faults (value_view value.now)) }
{
    match items_of(value) {
        Some(items) => judge_two(alloc, items),
        None => { Ok(one(alloc, FaultKind::WrongKind)?) }
    }
}

// The faults of a member that is to be such an array.
fn judge_named(alloc: Global, value: &Value<'_>, member: &str) -> Result<Vec<Fault>, OutOfMemory>
    ensures { IfOk result (λ fs. pairs_of fs.items ≡ member_faults member.now pair_faults (value_view value.now)) }
{
    let found = match value.get(member) {
        Some(there) => judge_pair(alloc, there)?,
        None => one(alloc, FaultKind::Missing)?,
    };
    Ok(under_name(alloc, found, member)?)
}

fn judge_members(alloc: Global, value: &Value<'_>) -> Result<Vec<Fault>, OutOfMemory>
    ensures { IfOk result (λ fs. pairs_of fs.items ≡ members_faults (value_view value.now)) }
{
    let scale = judge_named(alloc, value, "scale")?;
    let translate = judge_named(alloc, value, "translate")?;
    let found = join(scale, translate)?;
    Ok(found)
}

// The numerals of an array's first two numbers.
fn texts_in<'v>(values: &'v [Value<'_>]) -> Option<Texts<'v>>
    ensures { option_map (λ t. (t.x.now, t.y.now)) result ≡ spec.texts_in (items_view values.now) }
{
    if values.len() < 2 {
        return None;
    }
    Some(Texts {
        x: values[0].as_number()?,
        y: values[1].as_number()?,
    })
}

// The numerals of a member that is such an array.
fn texts_of<'v>(value: &'v Value<'_>, member: &str) -> Texts<'v>
    ensures { (result.x.now, result.y.now) ≡ texts_of member.now (value_view value.now) }
{
    let found = match value.get(member) {
        Some(there) => match items_of(there) {
            Some(items) => texts_in(items),
            None => None,
        },
        None => None,
    };
    match found {
        Some(texts) => texts,
        None => Texts { x: "", y: "" },
    }
}

// The fault of a number, of which another is on the same axis.
fn judge_fit(alloc: Global, text: &str, other: &str) -> Result<Vec<Fault>, OutOfMemory>
    ensures { IfOk result (λ fs. pairs_of fs.items ≡ fit_faults text.now other.now) }
{
    if is_within(text, other) {
        return Ok(Vec::new(alloc));
    }
    Ok(one(alloc, FaultKind::OutOfRange)?)
}

fn is_within(text: &str, other: &str) -> bool
    ensures { result ≡ spec.is_fit text.now other.now }
{
    is_fit(text.as_bytes(), other.as_bytes())
}

// The faults of both numbers of a member, which are on the axes of others.
fn judge_fits(alloc: Global, texts: Texts<'_>, others: Texts<'_>) -> Result<Vec<Fault>, OutOfMemory>
    ensures { IfOk result (λ fs. pairs_of fs.items ≡ fits_faults (texts.entry.x.now, texts.entry.y.now) (others.entry.x.now, others.entry.y.now)) }
{
    let x = judge_fit(alloc, texts.x, others.x)?;
    let y = judge_fit(alloc, texts.y, others.y)?;
    let mut found = Vec::new(alloc);
    put_under_index(&mut found, x, 0)?;
    put_under_index(&mut found, y, 1)?;
    Ok(found)
}

fn judge_limits(alloc: Global, value: &Value<'_>) -> Result<Vec<Fault>, OutOfMemory>
    ensures { IfOk result (λ fs. pairs_of fs.items ≡ limit_faults (texts_of (codes "scale") (value_view value.now)) (texts_of (codes "translate") (value_view value.now))) }
{
    let (scale, translate) = (texts_of(value, "scale"), texts_of(value, "translate"));
    let first = judge_fits(alloc, scale, translate)?;
    let second = judge_fits(alloc, translate, scale)?;
    let first = under_name(alloc, first, "scale")?;
    let second = under_name(alloc, second, "translate")?;
    let found = join(first, second)?;
    Ok(found)
}

fn judge_object(alloc: Global, value: &Value<'_>) -> Result<Vec<Fault>, OutOfMemory>
    ensures { IfOk result (λ fs. pairs_of fs.items ≡ spec.faults_of (value_view value.now)) }
{
    if !is_object(value) {
        return Ok(one(alloc, FaultKind::WrongKind)?);
    }
    let found = judge_members(alloc, value)?;
    if !found.is_empty() {
        return Ok(found);
    }
    judge_limits(alloc, value)
}

/// All faults of the transform of a topology, which may be missing.
///
/// # Errors
/// Where memory is refused.
pub fn judge_transform(alloc: Global, value: &Value<'_>) -> Result<Vec<Fault>, OutOfMemory>
    ensures { IfOk result (λ fs. pairs_of fs.items ≡ transform_faults (value_view value.now)) }
{
    match value.get("transform") {
        Some(there) => {
            let found = judge_object(alloc, there)?;
            Ok(under_name(alloc, found, "transform")?)
        }
        None => Ok(Vec::new(alloc)),
    }
}

// The transform that an object means. None where a number of it is out of range.
fn transform_of(value: &Value<'_>) -> Option<NumeralTransform>
    ensures made { IfSome result (λ t. t ≡ spec.transform_of (value_view value.now)) }
    ensures none { result ≡ None → limit_faults (texts_of (codes "scale") (value_view value.now)) (texts_of (codes "translate") (value_view value.now)) ≢ [] }
{
    let (scale, translate) = (texts_of(value, "scale"), texts_of(value, "translate"));
    let x = DecimalAxis::parse(scale.x.as_bytes(), translate.x.as_bytes())?;
    let y = DecimalAxis::parse(scale.y.as_bytes(), translate.y.as_bytes())?;
    Some(NumeralTransform { x, y })
}

/// A grid, with the topology's transform where it has one.
///
/// # Errors
/// `Unread` where the transform has a fault.
pub fn read_quantization(
    alloc: Global,
    grid: &DecimalGrid,
    value: &Value<'_>,
) -> Result<Quantization, Stop>
    ensures made { IfOk result (λ q. q ≡ quantization_of grid.now (value_view value.now)) }
    ensures ok { OnOk result (transform_faults (value_view value.now) ≡ []) }
    ensures refused { result ≡ Err Stop.Unread → transform_faults (value_view value.now) ≢ [] }
{
    match judge_transform(alloc, value) {
        Ok(found) => {
            if !found.is_empty() {
                return Err(Stop::Unread);
            }
        }
        Err(_) => return Err(Stop::OutOfMemory),
    }
    let transform = match value.get("transform") {
        Some(there) => match transform_of(there) {
            Some(transform) => Some(transform),
            None => return Err(Stop::Unread),
        },
        None => None,
    };
    Ok(Quantization {
        grid: *grid,
        transform,
    })
}
