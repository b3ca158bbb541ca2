//! Geometries, and collections of them.
ghost use Rattle.decimal_faults.specs.Collections.{HasShapes};
ghost use Rattle.decimal_faults.specs.Geometries.{each_geometry_faults, form_named as named_form, form_of as form_in, geometries_faults, geometry_faults};
ghost use Rattle.decimal_faults.specs.Parts.{member_faults, unless_null};
ghost use Rattle.decimal_maps.specs.Geometries.{AreShapes, IsCollection, IsGeometry, IsGeometryOrNull, IsSimple};
ghost use Rattle.fixing.specs.Forms.{RawShape as Raw};
ghost use Rattle.fixing.specs.declared.rules.FixingRules.{FixingRules as Rules};
ghost use Rattle.json.specs.Value.{value_view, items_view};
ghost use Rattle.reading.specs.FaultLists.Found.{pairs_of};
ghost use Rattle.std.specs.Prelude.{◌≡◌, ◌≢◌, ◌++◌, [], List, IfOk, OnOk, Err, Ok, codes};

use crate::coordinates::CoordinatesOf;
use crate::lists::{items_of, keep};
use crate::members::{is_object, judge_member, make_member, type_name};
use crate::part::Part;
use decimal_maps::{DecimalGrid, Stop, Tally};
use faults::OutOfMemory;
use faults::fault::{Fault, FaultKind};
use fixing::{FixingRules, RawGeometry, RawShape};
use json::Value;
use reading::fault_lists::found::{one, put_under_index, under_name};
use reading::fault_lists::types::type_fault;
use reading::geometry::GeometryType;
use std::alloc::Global;

/// What a geometry has, by its type.
#[derive(Clone, Copy, PartialEq, Eq, Debug)]
pub enum GeometryForm {
    /// Coordinates.
    Simple(GeometryType),
    /// Geometries (RFC 7946, section 3.1.8).
    Collection,
}

/// The geometry that a name says.
pub fn form_named(text: &str) -> Result<GeometryForm, FaultKind>
    ensures { result ≡ named_form text.now }
{
    if text == "GeometryCollection" {
        return Ok(GeometryForm::Collection);
    }
    match GeometryType::from_name(text) {
        Ok(kind) => Ok(GeometryForm::Simple(kind)),
        Err(fault) => Err(fault),
    }
}

// The geometry that an object's member `type` names.
fn form_of(value: &Value<'_>) -> Result<GeometryForm, FaultKind>
    ensures { result ≡ form_in (value_view value.now) }
{
    match type_name(value) {
        Ok(text) => form_named(text),
        Err(fault) => Err(fault),
    }
}

/// All faults of a geometry that the fixing rules leave.
///
/// # Errors
/// Where memory is refused.
#[cycle(judging)]
pub fn judge_geometry(
    alloc: Global,
    grid: &DecimalGrid,
    fixing: &FixingRules,
    value: &Value<'_>,
) -> Result<Vec<Fault>, OutOfMemory>
    ensures { IfOk result (λ fs. pairs_of fs.items ≡ geometry_faults grid.now fixing.now (value_view value.now)) }
{
    if !is_object(value) {
        return Ok(one(alloc, FaultKind::WrongKind)?);
    }
    match form_of(value) {
        Ok(GeometryForm::Simple(kind)) => {
            let of = CoordinatesOf { grid: *grid, kind };
            judge_member(alloc, &of, fixing, value, "coordinates")
        }
        Ok(GeometryForm::Collection) if fixing.splits_collections => {
            judge_collection(alloc, grid, fixing, value)
        }
        Ok(GeometryForm::Collection) => { Ok(type_fault(alloc, FaultKind::UnknownType)?) }
        Err(kind) => { Ok(type_fault(alloc, kind)?) }
    }
}

// The member `geometries` of an object.
#[cycle(judging)]
fn judge_collection(
    alloc: Global,
    grid: &DecimalGrid,
    fixing: &FixingRules,
    value: &Value<'_>,
) -> Result<Vec<Fault>, OutOfMemory>
    ensures { IfOk result (λ fs. pairs_of fs.items ≡ member_faults (codes "geometries") (geometries_faults grid.now fixing.now) (value_view value.now)) }
{
    match value.get("geometries") {
        None => {
            let missing = one(alloc, FaultKind::Missing)?;
            under_name(alloc, missing, "geometries")
        }
        Some(list) => {
            let found = judge_geometries(alloc, grid, fixing, list)?;
            under_name(alloc, found, "geometries")
        }
    }
}

// A list of geometries.
#[cycle(judging)]
fn judge_geometries(
    alloc: Global,
    grid: &DecimalGrid,
    fixing: &FixingRules,
    value: &Value<'_>,
) -> Result<Vec<Fault>, OutOfMemory>
    ensures { IfOk result (λ fs. pairs_of fs.items ≡ geometries_faults grid.now fixing.now (value_view value.now)) }
{
    match items_of(value) {
        Some(items) => judge_each(alloc, grid, fixing, items),
        None => { Ok(one(alloc, FaultKind::WrongKind)?) }
    }
}

// The geometries of a collection.
#[cycle(judging)]
fn judge_each(
    alloc: Global,
    grid: &DecimalGrid,
    fixing: &FixingRules,
    values: &[Value<'_>],
) -> Result<Vec<Fault>, OutOfMemory>
    ensures { IfOk result (λ fs. pairs_of fs.items ≡ each_geometry_faults grid.now fixing.now 0 (items_view values.now)) }
{
    let mut found = Vec::new(alloc);
    for i in 0..values.len() {
        let part = judge_geometry(alloc, grid, fixing, &values[i])?;
        put_under_index(&mut found, part, i)?;
    }
    Ok(found)
}

// Puts the shapes of a geometry behind others.
#[cycle(making)]
fn put_shapes(
    alloc: Global,
    grid: &DecimalGrid,
    value: &Value<'_>,
    found: &mut Vec<RawShape>,
    tally: &mut Tally,
) -> Result<(), Stop>
    ensures made { OnOk result ((ss : List Raw) × (found.new.items ≡ found.old.items ++ ss) × HasShapes grid.now (value_view value.now) ss tally.old tally.new) }
    ensures refused { result ≡ Err Stop.Unread → (fixing : Rules) → geometry_faults grid.now fixing (value_view value.now) ≢ [] }
{
    match form_of(value) {
        Ok(GeometryForm::Simple(kind)) => {
            match make_simple(alloc, grid, kind, value, tally) {
                Ok(shape) => keep(found, shape),
                Err(stop) => Err(stop),
            }
        }
        Ok(GeometryForm::Collection) => put_collection(alloc, grid, value, found, tally),
        Err(_) => Err(Stop::Unread),
    }
}

// Puts the shapes of a collection behind others.
#[cycle(making)]
fn put_collection(
    alloc: Global,
    grid: &DecimalGrid,
    value: &Value<'_>,
    found: &mut Vec<RawShape>,
    tally: &mut Tally,
) -> Result<(), Stop>
    ensures made { OnOk result ((ss : List Raw) × (found.new.items ≡ found.old.items ++ ss) × (form_in (value_view value.now) ≡ Ok GeometryForm.Collection → IsCollection grid.now (value_view value.now) ss tally.old tally.new)) }
    ensures refused { result ≡ Err Stop.Unread → (fixing : Rules) → member_faults (codes "geometries") (geometries_faults grid.now fixing) (value_view value.now) ≢ [] }
{
    let Some(list) = value.get("geometries") else {
        return Err(Stop::Unread);
    };
    match items_of(list) {
        Some(items) => put_each(alloc, grid, items, found, tally),
        None => Err(Stop::Unread),
    }
}

// Puts the shapes of geometries behind others.
#[cycle(making)]
fn put_each(
    alloc: Global,
    grid: &DecimalGrid,
    values: &[Value<'_>],
    found: &mut Vec<RawShape>,
    tally: &mut Tally,
) -> Result<(), Stop>
    ensures made { OnOk result ((ss : List Raw) × (found.new.items ≡ found.old.items ++ ss) × AreShapes grid.now (items_view values.now) ss tally.old tally.new) }
    ensures refused { result ≡ Err Stop.Unread → (fixing : Rules) → each_geometry_faults grid.now fixing 0 (items_view values.now) ≢ [] }
{
    for i in 0..values.len() {
        match put_shapes(alloc, grid, &values[i], found, tally) {
            Ok(()) => {}
            Err(stop) => return Err(stop),
        }
    }
    Ok(())
}

// The shape of a geometry that has coordinates.
fn make_simple(
    alloc: Global,
    grid: &DecimalGrid,
    kind: GeometryType,
    value: &Value<'_>,
    tally: &mut Tally,
) -> Result<RawShape, Stop>
    ensures made { IfOk result (λ s. form_in (value_view value.now) ≡ Ok (GeometryForm.Simple kind) → IsSimple grid.now (value_view value.now) s tally.old tally.new) }
    ensures refused { result ≡ Err Stop.Unread → form_in (value_view value.now) ≡ Ok (GeometryForm.Simple kind) → (fixing : Rules) → geometry_faults grid.now fixing (value_view value.now) ≢ [] }
{
    let of = CoordinatesOf { grid: *grid, kind };
    make_member(alloc, &of, value, "coordinates", tally)
}

/// The geometry that a value means.
///
/// # Errors
/// `Unread` where it has a fault, whatever the fixing rules.
pub fn make_geometry(
    alloc: Global,
    grid: &DecimalGrid,
    value: &Value<'_>,
    tally: &mut Tally,
) -> Result<RawGeometry, Stop>
    ensures made { IfOk result (λ g. IsGeometry grid.now (value_view value.now) g tally.old tally.new) }
    ensures refused { result ≡ Err Stop.Unread → (fixing : Rules) → geometry_faults grid.now fixing (value_view value.now) ≢ [] }
{
    match form_of(value) {
        Ok(GeometryForm::Simple(kind)) => {
            match make_simple(alloc, grid, kind, value, tally) {
                Ok(shape) => Ok(RawGeometry::One(shape)),
                Err(stop) => Err(stop),
            }
        }
        Ok(GeometryForm::Collection) => {
            let mut shapes = Vec::new(alloc);
            match put_collection(alloc, grid, value, &mut shapes, tally) {
                Ok(()) => Ok(RawGeometry::Collection(shapes)),
                Err(stop) => Err(stop),
            }
        }
        Err(_) => Err(Stop::Unread),
    }
}

/// The member `geometry` of a feature: null, or a geometry.
#[derive(Clone, Copy)]
pub struct GeometryOrNull {
    pub grid: DecimalGrid,
}

impl Part for GeometryOrNull {
    type Made = RawGeometry;

    type Count = Tally;

    ghost faults = { λ p fixing. unless_null (geometry_faults p.grid fixing) };

    ghost means = { λ p. IsGeometryOrNull p.grid };

    fn judge(
        &self,
        alloc: Global,
        fixing: &FixingRules,
        value: &Value<'_>,
    ) -> Result<Vec<Fault>, OutOfMemory> {
        if value.is_null() {
            return Ok(Vec::new(alloc));
        }
        judge_geometry(alloc, &self.grid, fixing, value)
    }

    fn make(
        &self,
        alloc: Global,
        value: &Value<'_>,
        count: &mut Tally,
    ) -> Result<RawGeometry, Stop> {
        if value.is_null() {
            return Ok(RawGeometry::One(RawShape::Null));
        }
        make_geometry(alloc, &self.grid, value, count)
    }
}
