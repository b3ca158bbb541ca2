//! Geometries: objects with a type and coordinates.
ghost use Rattle.geojson_io.specs.Geometries.{typed_geometry_faults, typed_form, geometry_faults, geometry_form};
ghost use Rattle.reading.specs.Fault.{LeastOrWant};
ghost use Rattle.reading.specs.Parts.{unless_null};
ghost use Rattle.reading.specs.Plain.{plain_form};
ghost use Rattle.serde_json.specs.View.{view};
ghost use Rattle.std.specs.Prelude.{◌≡◌, [], IfOk, IfErr, OnOk};

use crate::reader::position::Position;
use faults::fault::{Fault, FaultKind};
use reading::geometry::GeometryType;
use reading::part::{Part, read_member, type_fault};
use reading::shape::ShapeFrom;
use serde_json::Value;
use shapes::shape::Shape;
use std::alloc::Global;

/// The shape of a geometry whose type is known.
pub fn read_geometry(
    alloc: Global,
    position: &Position,
    kind: GeometryType,
    value: &Value,
) -> Result<Shape, Fault>
    ensures ok { OnOk result (typed_geometry_faults position.now.grid kind (view value.now) ≡ []) }
    ensures made { IfOk result (λ s. plain_form s ≡ typed_form position.now.grid kind (view value.now)) }
    ensures err { IfErr result (λ f. LeastOrWant (typed_geometry_faults position.now.grid kind (view value.now)) f) }
{
    let from = *position;
    let coordinates = ShapeFrom { from, kind };
    read_member(alloc, &coordinates, value, "coordinates")
}

/// The member `geometry` of a feature: null, or a geometry.
#[derive(Clone, Copy)]
pub struct GeometryPart {
    pub position: Position,
}

impl Part for GeometryPart {
    type Made = Shape;

    ghost faults = { λ p. unless_null (geometry_faults p.position.grid) };

    ghost means = { λ p d s. plain_form s ≡ geometry_form p.position.grid d };

    fn read(&self, alloc: Global, value: &Value) -> Result<Shape, Fault> {
        if value.is_null() {
            return Ok(Shape::Null);
        }
        if !value.is_object() {
            return Err(Fault::here(alloc, FaultKind::WrongKind));
        }
        match GeometryType::of(value) {
            Ok(kind) => read_geometry(alloc, &self.position, kind, value),
            Err(kind) => Err(type_fault(alloc, kind)),
        }
    }
}
