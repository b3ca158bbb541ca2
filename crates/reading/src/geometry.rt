//! The six types of geometries.
ghost use Rattle.serde_json.specs.View.{view};
ghost use Rattle.std.specs.Prelude.{◌≡◌};

use crate::part::type_name;
use faults::fault::FaultKind;
use serde_json::Value;

/// A type of geometries (RFC 7946, sections 3.1.2 to 3.1.7).
#[derive(Clone, Copy, PartialEq, Eq, Debug)]
pub enum GeometryType {
    Point,
    MultiPoint,
    LineString,
    MultiLineString,
    Polygon,
    MultiPolygon,
}

impl GeometryType {
    ghost use Rattle.reading.specs.Types.{geometry_named, geometry_type};

    /// The type of that name.
    pub fn from_name(text: &str) -> Result<GeometryType, FaultKind>
        ensures { result ≡ geometry_named text.now }
    {
        if text == "Point" {
            Ok(GeometryType::Point)
        } else if text == "MultiPoint" {
            Ok(GeometryType::MultiPoint)
        } else if text == "LineString" {
            Ok(GeometryType::LineString)
        } else if text == "MultiLineString" {
            Ok(GeometryType::MultiLineString)
        } else if text == "Polygon" {
            Ok(GeometryType::Polygon)
        } else if text == "MultiPolygon" {
            Ok(GeometryType::MultiPolygon)
        } else {
            Err(FaultKind::UnknownType)
        }
    }

    /// What an object's member `type` names.
    pub fn of(value: &Value) -> Result<GeometryType, FaultKind>
        ensures { result ≡ geometry_type (view value.now) }
    {
        match type_name(value) {
            Ok(text) => GeometryType::from_name(text),
            Err(kind) => Err(kind),
        }
    }
}
