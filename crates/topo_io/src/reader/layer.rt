//! Layers: the members of a topology's `objects` (TopoJSON, section 2.1.5).
ghost use Rattle.reading.specs.Fault.{LeastOrWant};
ghost use Rattle.reading.specs.Info.{member_or_null};
ghost use Rattle.reading.specs.Parts.{member_faults, list_faults, elements};
ghost use Rattle.reading.specs.Plain.{plain};
ghost use Rattle.serde_json.specs.View.{view};
ghost use Rattle.std.specs.Prelude.{◌≡◌, [], ◌∷◌, map, IfOk, IfErr, OnOk, Ok, Err, codes};
ghost use Rattle.topo_io.specs.Arcs.{known};
ghost use Rattle.topo_io.specs.Geometries.{typed_faults_of, feature_of, geometry_faults, geometry_feature, layer_named as named_layer, layer_type as type_of_layer, typed_layer_faults, layer_faults, layer_as, layer_features};

use crate::reader::geometry::{GeometryOf, Ground, read_as, type_or_null};
use crate::reader::layer_type::LayerType;
use faults::fault::{Fault, FaultKind};
use reading::geometry::GeometryType;
use reading::part::{Part, one, read_list_member, type_fault};
use serde_json::Value;
use shapes::feature::Feature;
use std::alloc::Global;

fn layer_named(text: &str) -> Result<LayerType, FaultKind>
    ensures { result ≡ named_layer text.now }
{
    if text == "GeometryCollection" {
        return Ok(LayerType::Collection);
    }
    match GeometryType::from_name(text) {
        Ok(kind) => Ok(LayerType::Geometry(Some(kind))),
        Err(fault) => Err(fault),
    }
}

pub(crate) fn layer_type(value: &Value) -> Result<LayerType, FaultKind>
    ensures { result ≡ type_of_layer (view value.now) }
{
    match type_or_null(value) {
        Ok(None) => Ok(LayerType::Geometry(None)),
        Ok(Some(text)) => layer_named(text),
        Err(fault) => Err(fault),
    }
}

fn read_geometries(alloc: Global, on: &Ground, value: &Value) -> Result<Vec<Feature>, Fault>
    ensures ok { OnOk result (member_faults (codes "geometries") (list_faults (geometry_faults on.now.limits (known on.now.arcs.now))) (view value.now) ≡ []) }
    ensures made { IfOk result (λ fs. map plain fs.items ≡ map (geometry_feature on.now.arcs.now) (elements (member_or_null (codes "geometries") (view value.now)))) }
    ensures err { IfErr result (λ f. LeastOrWant (member_faults (codes "geometries") (list_faults (geometry_faults on.now.limits (known on.now.arcs.now))) (view value.now)) f) }
{
    read_list_member(alloc, GeometryOf { on }, value, "geometries")
}

fn read_one(
    alloc: Global,
    on: &Ground,
    kind: Option<GeometryType>,
    value: &Value,
) -> Result<Vec<Feature>, Fault>
    ensures ok { OnOk result (typed_faults_of on.now.limits (known on.now.arcs.now) kind (view value.now) ≡ []) }
    ensures made { IfOk result (λ fs. map plain fs.items ≡ feature_of on.now.arcs.now kind (view value.now) ∷ []) }
    ensures err { IfErr result (λ f. LeastOrWant (typed_faults_of on.now.limits (known on.now.arcs.now) kind (view value.now)) f) }
{
    let feature = read_as(alloc, on, kind, value)?;
    one(alloc, feature)
}

fn read_layer(
    alloc: Global,
    on: &Ground,
    kind: LayerType,
    value: &Value,
) -> Result<Vec<Feature>, Fault>
    ensures ok { OnOk result (typed_layer_faults on.now.limits (known on.now.arcs.now) (view value.now) kind ≡ []) }
    ensures made { IfOk result (λ fs. map plain fs.items ≡ layer_as on.now.arcs.now (view value.now) (Ok kind)) }
    ensures err { IfErr result (λ f. LeastOrWant (typed_layer_faults on.now.limits (known on.now.arcs.now) (view value.now) kind) f) }
{
    match kind {
        LayerType::Collection => read_geometries(alloc, on, value),
        LayerType::Geometry(kind) => read_one(alloc, on, kind, value),
    }
}

/// A layer, and what its geometries are read with.
#[derive(Clone, Copy)]
pub struct LayerOf<'g, 'a> {
    pub on: &'g Ground<'a>,
}

impl Part for LayerOf<'_, '_> {
    type Made = Vec<Feature>;

    ghost faults = { λ p. layer_faults p.on.now.limits (known p.on.now.arcs.now) };

    ghost means = { λ p d fs. map plain fs.items ≡ layer_features p.on.now.arcs.now d };

    fn read(&self, alloc: Global, value: &Value) -> Result<Vec<Feature>, Fault> {
        if !value.is_object() {
            return Err(Fault::here(alloc, FaultKind::WrongKind));
        }
        match layer_type(value) {
            Ok(kind) => read_layer(alloc, self.on, kind, value),
            Err(kind) => Err(type_fault(alloc, kind)),
        }
    }
}
