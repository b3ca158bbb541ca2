//! Geometries of a topology (TopoJSON, section 2.2).
ghost use Rattle.reading.specs.Fault.{LeastOrWant};
ghost use Rattle.reading.specs.Plain.{plain};
ghost use Rattle.serde_json.specs.View.{view};
ghost use Rattle.std.specs.Prelude.{◌≡◌, [], IfOk, IfErr, OnOk, Ok, Err, Some, None, option_map};
ghost use Rattle.topo_io.specs.Arcs.{known, stitched_list_faults, stitched_of};
ghost use Rattle.topo_io.specs.Geometries.{body_name as name_of_body, typed_faults_of, feature_of, text_or_null as text_or_null_of, type_or_null as type_text_or_null, geometry_type as type_of_geometry, geometry_faults, geometry_feature};
ghost use Rattle.topo_io.specs.Limits.{position_faults, position_of};

use crate::reader::position::{DeltaPosition, Limits};
use crate::reader::stitching::{IndexOf, stitch};
use faults::fault::{Fault, FaultKind};
use grid::pos::Pos;
use lines::items::Items;
use reading::geometry::GeometryType;
use reading::info::read_info;
use reading::part::{Part, read_list, read_member, type_fault};
use reading::shape::{Positions, ShapeFrom};
use serde_json::Value;
use shapes::feature::Feature;
use shapes::shape::Shape;
use std::alloc::Global;

fn text_or_null(value: &Value) -> Result<Option<&str>, FaultKind>
    ensures ok { IfOk result (λ s. text_or_null_of (view value.now) ≡ Ok (option_map (λ t. t.now) s)) }
    ensures err { IfErr result (λ k. text_or_null_of (view value.now) ≡ Err k) }
{
    match value {
        Value::Null => Ok(None),
        Value::String(text) => Ok(Some(text.as_str())),
        _ => Err(FaultKind::WrongKind),
    }
}

/// The text of an object's member `type`, where it is not null.
pub fn type_or_null(value: &Value) -> Result<Option<&str>, FaultKind>
    ensures ok { IfOk result (λ s. type_text_or_null (view value.now) ≡ Ok (option_map (λ t. t.now) s)) }
    ensures err { IfErr result (λ k. type_text_or_null (view value.now) ≡ Err k) }
{
    match value.get("type") {
        None => Err(FaultKind::Missing),
        Some(member) => text_or_null(member),
    }
}

/// What geometries are read with: the topology's arcs, and the limits of positions.
#[derive(Clone, Copy)]
pub struct Ground<'a> {
    pub arcs: &'a [Items<Pos>],
    pub limits: Limits,
}

impl Positions for &Ground<'_> {
    ghost position_faults = { λ p. position_faults p.now.limits };

    ghost position = { λ _. position_of };

    ghost list_faults = { λ p. stitched_list_faults (known p.now.arcs.now) };

    ghost positions = { λ p. stitched_of p.now.arcs.now };

    fn read_position(&self, alloc: Global, value: &Value) -> Result<Pos, Fault> {
        let limits = self.limits;
        DeltaPosition { limits }.read(alloc, value)
    }

    fn read_positions(&self, alloc: Global, value: &Value) -> Result<Vec<Pos>, Fault> {
        let of = IndexOf { arcs: self.arcs };
        let used = read_list(alloc, &of, value)?;
        stitch(alloc, self.arcs, &used)
    }
}

/// The name of the member that holds the body.
pub(crate) fn body_name(kind: GeometryType) -> &'static str
    ensures { result.now ≡ name_of_body kind }
{
    match kind {
        GeometryType::Point | GeometryType::MultiPoint => "coordinates",
        _ => "arcs",
    }
}

/// The feature of a geometry of that type, none for null.
pub fn read_as(
    alloc: Global,
    on: &Ground,
    kind: Option<GeometryType>,
    value: &Value,
) -> Result<Feature, Fault>
    ensures ok { OnOk result (typed_faults_of on.now.limits (known on.now.arcs.now) kind (view value.now) ≡ []) }
    ensures made { IfOk result (λ f. plain f ≡ feature_of on.now.arcs.now kind (view value.now)) }
    ensures err { IfErr result (λ f. LeastOrWant (typed_faults_of on.now.limits (known on.now.arcs.now) kind (view value.now)) f) }
{
    let shape = match kind {
        None => Shape::Null,
        Some(kind) => {
            let body = ShapeFrom { from: on, kind };
            read_member(alloc, &body, value, body_name(kind))?
        }
    };
    let (id, props) = read_info(alloc, value)?;
    Ok(Feature { id, props, shape })
}

pub(crate) fn geometry_type(value: &Value) -> Result<Option<GeometryType>, FaultKind>
    ensures { result ≡ type_of_geometry (view value.now) }
{
    match type_or_null(value) {
        Ok(None) => Ok(None),
        Ok(Some(text)) => match GeometryType::from_name(text) {
            Ok(kind) => Ok(Some(kind)),
            Err(fault) => Err(fault),
        },
        Err(fault) => Err(fault),
    }
}

/// A geometry of a collection.
#[derive(Clone, Copy)]
pub struct GeometryOf<'g, 'a> {
    pub on: &'g Ground<'a>,
}

impl Part for GeometryOf<'_, '_> {
    type Made = Feature;

    ghost faults = { λ p. geometry_faults p.on.now.limits (known p.on.now.arcs.now) };

    ghost means = { λ p d f. plain f ≡ geometry_feature p.on.now.arcs.now d };

    fn read(&self, alloc: Global, value: &Value) -> Result<Feature, Fault> {
        if !value.is_object() {
            return Err(Fault::here(alloc, FaultKind::WrongKind));
        }
        match geometry_type(value) {
            Ok(kind) => read_as(alloc, self.on, kind, value),
            Err(kind) => Err(type_fault(alloc, kind)),
        }
    }
}
