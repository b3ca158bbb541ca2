//! Ids and properties.
ghost use Rattle.faults.specs.Fault.{IsWant};
ghost use Rattle.reading.specs.Fault.{LeastOrWant};
ghost use Rattle.reading.specs.Info.{IsIdOf, id_faults, properties_faults, info_faults, id_of, properties_of, member_or_null, properties_kind};
ghost use Rattle.reading.specs.Parts.{option_faults};
ghost use Rattle.reading.specs.Plain.{plain_id};
ghost use Rattle.serde_json.specs.View.{view};
ghost use Rattle.shapes.specs.Ids.{HasI64};
ghost use Rattle.shapes.specs.Parts.{properties_text};
ghost use Rattle.std.specs.Prelude.{◌≡◌, [], IfOk, IfErr, OnOk, codes};

use crate::part::{Part, read_option};
use faults::fault::{Fault, FaultKind};
use serde_json::Value;
use shapes::props::{PropFault, Props};
use shapes::shape::Id;
use shapes::spelled::Spelled;
use std::alloc::Global;

/// An id: null, a whole number or a text.
#[derive(Drop)]
pub struct Ids;

impl Part for Ids {
    type Made = Id;

    ghost faults = { λ _. id_faults };

    ghost means = { λ _ d x. IsIdOf d x };

    fn read(&self, alloc: Global, value: &Value) -> Result<Id, Fault> {
        match value {
            Value::Null => Ok(Id::None),
            Value::Number(number) => match number.as_i64() {
                Some(n) => Ok(Id::Number(n)),
                None => Err(Fault::here(alloc, FaultKind::NotWhole)),
            },
            Value::String(text) => match Spelled::new(alloc, text.as_str()) {
                Ok(text) => Ok(Id::Text(text)),
                Err(_) => Err(Fault::here(alloc, FaultKind::OutOfMemory)),
            },
            _ => Err(Fault::here(alloc, FaultKind::WrongKind)),
        }
    }
}

/// Properties: null or an object, kept as their compact text.
#[derive(Drop)]
pub struct Properties;

impl Part for Properties {
    type Made = Props;

    ghost faults = { λ _. properties_faults };

    ghost means = { λ _ d x. properties_text x ≡ properties_of d };

    fn read(&self, alloc: Global, value: &Value) -> Result<Props, Fault> {
        if value.is_null() {
            return no_properties(alloc);
        }
        match Props::from_value(alloc, value) {
            Ok(props) => Ok(props),
            Err(fault) => Err(Fault::here(alloc, kind_of(fault))),
        }
    }
}

fn kind_of(fault: PropFault) -> FaultKind
    ensures { result ≡ properties_kind fault }
{
    match fault {
        PropFault::WrongKind => FaultKind::WrongKind,
        PropFault::PropertyNumber => FaultKind::PropertyNumber,
        PropFault::PropertyDepth => FaultKind::PropertyDepth,
        PropFault::OutOfMemory => FaultKind::OutOfMemory,
    }
}

/// The properties of a feature that names none.
pub fn no_properties(alloc: Global) -> Result<Props, Fault>
    ensures ok { IfOk result (λ p. properties_text p ≡ codes "{}") }
    ensures err { IfErr result IsWant }
{
    match Props::empty(alloc) {
        Ok(props) => Ok(props),
        Err(_) => Err(Fault::here(alloc, FaultKind::OutOfMemory)),
    }
}

fn read_id(alloc: Global, value: &Value) -> Result<Id, Fault>
    ensures ok { OnOk result (option_faults (codes "id") id_faults (view value.now) ≡ []) }
    ensures made { IfOk result (λ id. plain_id id ≡ id_of (member_or_null (codes "id") (view value.now))) }
    ensures bits { IfOk result HasI64 }
    ensures err { IfErr result (λ f. LeastOrWant (option_faults (codes "id") id_faults (view value.now)) f) }
{
    match read_option(alloc, &Ids, value, "id")? {
        Some(id) => Ok(id),
        None => Ok(Id::None),
    }
}

fn read_properties(alloc: Global, value: &Value) -> Result<Props, Fault>
    ensures ok { OnOk result (option_faults (codes "properties") properties_faults (view value.now) ≡ []) }
    ensures made { IfOk result (λ p. properties_text p ≡ properties_of (member_or_null (codes "properties") (view value.now))) }
    ensures err { IfErr result (λ f. LeastOrWant (option_faults (codes "properties") properties_faults (view value.now)) f) }
{
    match read_option(alloc, &Properties, value, "properties")? {
        Some(props) => Ok(props),
        None => no_properties(alloc),
    }
}

/// The id and the properties of an object: its members `id` and `properties`, which may be missing.
pub fn read_info(alloc: Global, value: &Value) -> Result<(Id, Props), Fault>
    ensures ok { OnOk result (info_faults (view value.now) ≡ []) }
    ensures id { IfOk result (λ info. plain_id info.0 ≡ id_of (member_or_null (codes "id") (view value.now))) }
    ensures bits { IfOk result (λ info. HasI64 info.0) }
    ensures properties { IfOk result (λ info. properties_text info.1 ≡ properties_of (member_or_null (codes "properties") (view value.now))) }
    ensures err { IfErr result (λ f. LeastOrWant (info_faults (view value.now)) f) }
{
    let id = read_id(alloc, value)?;
    let props = read_properties(alloc, value)?;
    Ok((id, props))
}
