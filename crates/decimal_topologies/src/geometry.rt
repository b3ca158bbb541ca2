//! Geometry objects, and collections of them (TopoJSON, section 2.2).
ghost use Rattle.decimal_faults.specs.Parts.{member_faults};
ghost use Rattle.decimal_topologies.specs.Geometries.{AreShapes, HasShapes, IsCollection, IsGeometry, IsOne, body_faults, body_name as named_body, content_faults, each_geometry_faults, form_of as form_in, form_or_null as named_or_null, form_under as form_in_under, geometries_faults, geometry_faults, parts_of};
ghost use Rattle.fixing.specs.Forms.{RawShape as Raw};
ghost use Rattle.fixing.specs.declared.rules.FixingRules.{FixingRules as Rules};
ghost use Rattle.json.specs.Value.{value_view, items_view};
ghost use Rattle.reading.specs.FaultLists.Found.{pairs_of};
ghost use Rattle.std.specs.Prelude.{◌≡◌, ◌≢◌, ◌++◌, [], List, IfOk, OnOk, Err, Ok, Some, codes};

use crate::bodies::{BodyOf, body_name};
use decimal_arcs::place::{Place, Quantization};
use decimal_faults::geometry::{GeometryForm, form_named};
use decimal_faults::lists::{items_of, keep};
use decimal_faults::members::{is_object, judge_member, make_member};
use decimal_maps::{Stop, Tally};
use faults::OutOfMemory;
use faults::fault::{Fault, FaultKind};
use fixing::{FixingRules, RawGeometry, RawShape};
use json::Value;
use reading::fault_lists::found::{one, put_under_index, under_name};
use reading::fault_lists::types::type_fault;
use reading::geometry::GeometryType;
use std::alloc::Global;

/// What the geometries of a topology refer to.
#[derive(Clone, Copy)]
pub struct Topology<'t> {
    pub quantization: Quantization,
    /// The arcs by their numbers. One that no geometry uses, or that has a fault, is None.
    pub arcs: &'t [Option<Vec<Place>>],
}

// Null, or the geometry that a text names.
fn form_or_null(value: &Value<'_>) -> Result<Option<GeometryForm>, FaultKind>
    ensures { result ≡ named_or_null (value_view value.now) }
{
    match value {
        Value::Null => Ok(None),
        Value::String(text) => match form_named(text) {
            Ok(form) => Ok(Some(form)),
            Err(kind) => Err(kind),
        },
        _ => Err(FaultKind::WrongKind),
    }
}

/// What the member `type` of an object says that it is: a geometry, or none where it is null.
///
/// # Errors
/// The kind of its fault.
pub fn form_of(value: &Value<'_>) -> Result<Option<GeometryForm>, FaultKind>
    ensures { result ≡ form_in (value_view value.now) }
{
    match value.get("type") {
        Some(name) => form_or_null(name),
        None => Err(FaultKind::Missing),
    }
}

/// What `type` says that an object is, where collections are refused if the fixing rules don't split them.
///
/// # Errors
/// The kind of its fault.
pub fn form_under(
    fixing: &FixingRules,
    value: &Value<'_>,
) -> Result<Option<GeometryForm>, FaultKind>
    ensures { result ≡ form_in_under fixing.now (value_view value.now) }
{
    match form_of(value) {
        Ok(Some(GeometryForm::Collection)) if !fixing.splits_collections => {
            Err(FaultKind::UnknownType)
        }
        other => other,
    }
}

/// All faults that the fixing rules leave of what an object of that form has.
///
/// # Errors
/// Where memory is refused.
#[cycle(judging)]
pub fn judge_content(
    alloc: Global,
    topology: &Topology<'_>,
    fixing: &FixingRules,
    value: &Value<'_>,
    form: Option<GeometryForm>,
) -> Result<Vec<Fault>, OutOfMemory>
    ensures { IfOk result (λ fs. pairs_of fs.items ≡ content_faults (parts_of topology.now) fixing.now (value_view value.now) form) }
{
    match form {
        None => Ok(Vec::new(alloc)),
        Some(GeometryForm::Simple(kind)) => {
            let of = BodyOf { topology, kind };
            judge_member(alloc, &of, fixing, value, body_name(kind))
        }
        Some(GeometryForm::Collection) => judge_collection(alloc, topology, fixing, value),
    }
}

// The member `geometries` of an object.
#[cycle(judging)]
fn judge_collection(
    alloc: Global,
    topology: &Topology<'_>,
    fixing: &FixingRules,
    value: &Value<'_>,
) -> Result<Vec<Fault>, OutOfMemory>
    ensures { IfOk result (λ fs. pairs_of fs.items ≡ member_faults (codes "geometries") (geometries_faults (parts_of topology.now) fixing.now) (value_view value.now)) }
{
    match value.get("geometries") {
        None => {
            let missing = one(alloc, FaultKind::Missing)?;
            under_name(alloc, missing, "geometries")
        }
        Some(list) => {
            let found = judge_geometries(alloc, topology, fixing, list)?;
            under_name(alloc, found, "geometries")
        }
    }
}

// A list of geometry objects.
#[cycle(judging)]
fn judge_geometries(
    alloc: Global,
    topology: &Topology<'_>,
    fixing: &FixingRules,
    value: &Value<'_>,
) -> Result<Vec<Fault>, OutOfMemory>
    ensures { IfOk result (λ fs. pairs_of fs.items ≡ geometries_faults (parts_of topology.now) fixing.now (value_view value.now)) }
{
    match items_of(value) {
        Some(items) => judge_each(alloc, topology, fixing, items),
        None => { Ok(one(alloc, FaultKind::WrongKind)?) }
    }
}

// The geometry objects of a collection.
#[cycle(judging)]
fn judge_each(
    alloc: Global,
    topology: &Topology<'_>,
    fixing: &FixingRules,
    values: &[Value<'_>],
) -> Result<Vec<Fault>, OutOfMemory>
    ensures { IfOk result (λ fs. pairs_of fs.items ≡ each_geometry_faults (parts_of topology.now) fixing.now 0 (items_view values.now)) }
{
    let mut found = Vec::new(alloc);
    for i in 0..values.len() {
        let part = judge_geometry(alloc, topology, fixing, &values[i])?;
        put_under_index(&mut found, part, i)?;
    }
    Ok(found)
}

// A geometry object of a collection.
#[cycle(judging)]
fn judge_geometry(
    alloc: Global,
    topology: &Topology<'_>,
    fixing: &FixingRules,
    value: &Value<'_>,
) -> Result<Vec<Fault>, OutOfMemory>
    ensures { IfOk result (λ fs. pairs_of fs.items ≡ geometry_faults (parts_of topology.now) fixing.now (value_view value.now)) }
{
    if !is_object(value) {
        return Ok(one(alloc, FaultKind::WrongKind)?);
    }
    match form_under(fixing, value) {
        Ok(form) => judge_content(alloc, topology, fixing, value, form),
        Err(kind) => { Ok(type_fault(alloc, kind)?) }
    }
}

// The shape of coordinates or arcs.
fn make_simple(
    alloc: Global,
    topology: &Topology<'_>,
    kind: GeometryType,
    value: &Value<'_>,
    tally: &mut Tally,
) -> Result<RawShape, Stop>
    ensures made { IfOk result (λ s. form_in (value_view value.now) ≡ Ok (Some (GeometryForm.Simple kind)) → IsOne (parts_of topology.now) (value_view value.now) s tally.old tally.new) }
    ensures refused { result ≡ Err Stop.Unread → (fixing : Rules) → member_faults (named_body kind) (body_faults (parts_of topology.now) fixing kind) (value_view value.now) ≢ [] }
{
    let of = BodyOf { topology, kind };
    make_member(alloc, &of, value, body_name(kind), tally)
}

// Puts the shapes of a geometry object behind others.
#[cycle(making)]
fn put_shapes(
    alloc: Global,
    topology: &Topology<'_>,
    value: &Value<'_>,
    found: &mut Vec<RawShape>,
    tally: &mut Tally,
) -> Result<(), Stop>
    ensures made { OnOk result ((ss : List Raw) × (found.new.items ≡ found.old.items ++ ss) × HasShapes (parts_of topology.now) (value_view value.now) ss tally.old tally.new) }
    ensures refused { result ≡ Err Stop.Unread → (fixing : Rules) → geometry_faults (parts_of topology.now) fixing (value_view value.now) ≢ [] }
{
    match form_of(value) {
        Ok(None) => keep(found, RawShape::Null),
        Ok(Some(GeometryForm::Simple(kind))) => {
            match make_simple(alloc, topology, kind, value, tally) {
                Ok(shape) => keep(found, shape),
                Err(stop) => Err(stop),
            }
        }
        Ok(Some(GeometryForm::Collection)) => put_collection(alloc, topology, value, found, tally),
        Err(_) => Err(Stop::Unread),
    }
}

// Puts the shapes of a collection behind others.
#[cycle(making)]
fn put_collection(
    alloc: Global,
    topology: &Topology<'_>,
    value: &Value<'_>,
    found: &mut Vec<RawShape>,
    tally: &mut Tally,
) -> Result<(), Stop>
    ensures made { OnOk result ((ss : List Raw) × (found.new.items ≡ found.old.items ++ ss) × (form_in (value_view value.now) ≡ Ok (Some GeometryForm.Collection) → IsCollection (parts_of topology.now) (value_view value.now) ss tally.old tally.new)) }
    ensures refused { result ≡ Err Stop.Unread → (fixing : Rules) → member_faults (codes "geometries") (geometries_faults (parts_of topology.now) fixing) (value_view value.now) ≢ [] }
{
    let Some(list) = value.get("geometries") else {
        return Err(Stop::Unread);
    };
    match items_of(list) {
        Some(items) => put_each(alloc, topology, items, found, tally),
        None => Err(Stop::Unread),
    }
}

// Puts the shapes of geometry objects behind others.
#[cycle(making)]
fn put_each(
    alloc: Global,
    topology: &Topology<'_>,
    values: &[Value<'_>],
    found: &mut Vec<RawShape>,
    tally: &mut Tally,
) -> Result<(), Stop>
    ensures made { OnOk result ((ss : List Raw) × (found.new.items ≡ found.old.items ++ ss) × AreShapes (parts_of topology.now) (items_view values.now) ss tally.old tally.new) }
    ensures refused { result ≡ Err Stop.Unread → (fixing : Rules) → each_geometry_faults (parts_of topology.now) fixing 0 (items_view values.now) ≢ [] }
{
    for i in 0..values.len() {
        match put_shapes(alloc, topology, &values[i], found, tally) {
            Ok(()) => {}
            Err(stop) => return Err(stop),
        }
    }
    Ok(())
}

/// The geometry of an object.
///
/// # Errors
/// `Unread` where its type or what it has has a fault, whatever the fixing rules.
pub fn make_geometry(
    alloc: Global,
    topology: &Topology<'_>,
    value: &Value<'_>,
    form: Option<GeometryForm>,
    tally: &mut Tally,
) -> Result<RawGeometry, Stop>
    ensures made { IfOk result (λ g. form_in (value_view value.now) ≡ Ok form → IsGeometry (parts_of topology.now) (value_view value.now) g tally.old tally.new) }
    ensures refused { result ≡ Err Stop.Unread → (fixing : Rules) → content_faults (parts_of topology.now) fixing (value_view value.now) form ≢ [] }
{
    match form {
        None => Ok(RawGeometry::One(RawShape::Null)),
        Some(GeometryForm::Simple(kind)) => {
            match make_simple(alloc, topology, kind, value, tally) {
                Ok(shape) => Ok(RawGeometry::One(shape)),
                Err(stop) => Err(stop),
            }
        }
        Some(GeometryForm::Collection) => {
            let mut shapes = Vec::new(alloc);
            match put_collection(alloc, topology, value, &mut shapes, tally) {
                Ok(()) => Ok(RawGeometry::Collection(shapes)),
                Err(stop) => Err(stop),
            }
        }
    }
}
