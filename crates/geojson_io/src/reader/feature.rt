//! Features: an object with a geometry, an id and properties.
ghost use Rattle.geojson_io.specs.Features.{feature_members, feature_of, element_of_features_faults};
ghost use Rattle.geojson_io.specs.Geometries.{geometry_faults, geometry_form};
ghost use Rattle.reading.specs.Fault.{LeastOrWant};
ghost use Rattle.reading.specs.Info.{member_or_null};
ghost use Rattle.reading.specs.Parts.{option_faults, unless_null};
ghost use Rattle.reading.specs.Plain.{plain, plain_form};
ghost use Rattle.serde_json.specs.View.{view};
ghost use Rattle.std.specs.Prelude.{◌≡◌, [], IfOk, IfErr, OnOk, codes};

use crate::reader::geometry::GeometryPart;
use crate::reader::position::Position;
use faults::fault::{Fault, FaultKind};
use reading::info::read_info;
use reading::part::{Part, judge_type, read_option, type_fault};
use serde_json::Value;
use shapes::feature::Feature;
use shapes::shape::Shape;
use std::alloc::Global;

fn read_shape(alloc: Global, position: &Position, value: &Value) -> Result<Shape, Fault>
    ensures ok { OnOk result (option_faults (codes "geometry") (unless_null (geometry_faults position.now.grid)) (view value.now) ≡ []) }
    ensures made { IfOk result (λ s. plain_form s ≡ geometry_form position.now.grid (member_or_null (codes "geometry") (view value.now))) }
    ensures err { IfErr result (λ f. LeastOrWant (option_faults (codes "geometry") (unless_null (geometry_faults position.now.grid)) (view value.now)) f) }
{
    let geometry = GeometryPart {
        position: *position,
    };
    match read_option(alloc, &geometry, value, "geometry")? {
        Some(shape) => Ok(shape),
        None => Ok(Shape::Null),
    }
}

/// The feature of an object whose type is validated. A missing geometry is the null shape.
pub fn read_feature(alloc: Global, position: &Position, value: &Value) -> Result<Feature, Fault>
    ensures ok { OnOk result (feature_members position.now.grid (view value.now) ≡ []) }
    ensures made { IfOk result (λ f. plain f ≡ feature_of position.now.grid (view value.now)) }
    ensures err { IfErr result (λ f. LeastOrWant (feature_members position.now.grid (view value.now)) f) }
{
    let shape = read_shape(alloc, position, value)?;
    let (id, props) = read_info(alloc, value)?;
    Ok(Feature { id, props, shape })
}

/// An element of a FeatureCollection.
#[derive(Clone, Copy)]
pub struct FeatureElement {
    pub position: Position,
}

impl Part for FeatureElement {
    type Made = Feature;

    ghost faults = { λ p. element_of_features_faults p.position.grid };

    ghost means = { λ p d f. plain f ≡ feature_of p.position.grid d };

    fn read(&self, alloc: Global, value: &Value) -> Result<Feature, Fault> {
        if !value.is_object() {
            return Err(Fault::here(alloc, FaultKind::WrongKind));
        }
        match judge_type(value, "Feature") {
            Ok(()) => read_feature(alloc, &self.position, value),
            Err(kind) => Err(type_fault(alloc, kind)),
        }
    }
}
