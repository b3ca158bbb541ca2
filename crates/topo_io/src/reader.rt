//! Topologies in: the grid and the features that arcs stitch to.
ghost use Rattle.faults.specs.Fault.{IsWant};
ghost use Rattle.faults.specs.Path.{name as name_turn};
ghost use Rattle.reading.specs.Fault.{LeastOrWant, under};
ghost use Rattle.reading.specs.Info.{member_or_null};
ghost use Rattle.reading.specs.Parts.{member_faults};
ghost use Rattle.serde_json.specs.Data.{Data};
ghost use Rattle.serde_json.specs.Find.{get, as_object};
ghost use Rattle.serde_json.specs.View.{view};
ghost use Rattle.shapes.specs.Fitting.{MapFits};
ghost use Rattle.std.specs.FinMap as finite;
ghost use Rattle.std.specs.Prelude.{◌≡◌, [], ◌++◌, map as map_list, IsTrue, Some, Ok, Err, codes, IfOk, IfErr, OnOk, string_bytes};
ghost use Rattle.theory.specs.Lists.{Distinct};
ghost use Rattle.topo_io.specs.Arcs.{known};
ghost use Rattle.topo_io.specs.Layers.{plain_layer, layer_read, names_read, with_layers};
ghost use Rattle.topo_io.specs.Means.{Means};
ghost use Rattle.topo_io.specs.Roots.{objects_faults, layers_if_object, content_faults, layers_of, limits_of, transform_of, transform_faults, transformed_faults, topology_faults, grid_of, faults_of_text, grid_of_text, layers_of_text};

pub mod arc;
pub mod geometry;
pub mod layer;
pub mod layer_type;
pub mod limit;
pub mod parts;
pub mod position;
pub mod stitching;
pub mod transform;

use crate::reader::arc::ArcOf;
use crate::reader::geometry::Ground;
use crate::reader::layer::LayerOf;
use crate::reader::position::Limits;
use crate::reader::transform::read_transform;
use crate::validity::judge_root;
use faults::OutOfMemory;
use faults::fault::{Fault, FaultKind};
use grid::transform::Grid;
use reading::document::document;
use reading::part::{
    Part, judge_type, read_each_member, read_list_member, read_member, type_fault,
};
use serde_json::Value;
use shapes::feature::Feature;
use shapes::feature_map::FeatureMap;
use shapes::layer::feature_set;
use std::alloc::Global;

/// Layers by name, each with the features that its geometries mean.
type Layers = Vec<(String, Vec<Feature>)>;

/// The member `objects`: an object of layers.
#[derive(Clone, Copy)]
struct Objects<'g, 'a> {
    on: &'g Ground<'a>,
}

impl Part for Objects<'_, '_> {
    type Made = Layers;

    ghost faults = { λ p. objects_faults p.on.now.limits (known p.on.now.arcs.now) };

    ghost means = { λ p d ls. (map_list plain_layer ls.items ≡ layers_if_object p.on.now.arcs.now (as_object d)) × Distinct (names_read ls.items) };

    fn read(&self, alloc: Global, value: &Value) -> Result<Layers, Fault> {
        let of = LayerOf { on: self.on };
        match value.as_object() {
            Some(members) => read_each_member(alloc, &of, members),
            None => Err(Fault::here(alloc, FaultKind::WrongKind)),
        }
    }
}

fn read_objects(alloc: Global, on: &Ground, value: &Value) -> Result<Layers, Fault>
    ensures ok { OnOk result (member_faults (codes "objects") (objects_faults on.now.limits (known on.now.arcs.now)) (view value.now) ≡ []) }
    ensures made { IfOk result (λ ls. map_list plain_layer ls.items ≡ layers_if_object on.now.arcs.now (as_object (member_or_null (codes "objects") (view value.now)))) }
    ensures distinct { IfOk result (λ ls. Distinct (names_read ls.items)) }
    ensures err { IfErr result (λ f. LeastOrWant (member_faults (codes "objects") (objects_faults on.now.limits (known on.now.arcs.now)) (view value.now)) f) }
{
    read_member(alloc, &Objects { on }, value, "objects")
}

/// The layers of a topology: its arcs are validated first, used or not, and dropped at the end.
fn read_layers(alloc: Global, limits: &Limits, value: &Value) -> Result<Layers, Fault>
    ensures ok { OnOk result (content_faults limits.now (view value.now) ≡ []) }
    ensures made { IfOk result (λ ls. map_list plain_layer ls.items ≡ layers_of (view value.now)) }
    ensures distinct { IfOk result (λ ls. Distinct (names_read ls.items)) }
    ensures err { IfErr result (λ f. LeastOrWant (content_faults limits.now (view value.now)) f) }
{
    let of = ArcOf { limits: *limits };
    let arcs = read_list_member(alloc, of, value, "arcs")?;
    let on = Ground {
        arcs: &arcs,
        limits: *limits,
    };
    read_objects(alloc, &on, value)
}

// A faulty transform is told after the faults of arcs and objects, and absolute numbers then have no
// limits.
fn read_faulty(alloc: Global, fault: Fault, value: &Value) -> Result<(Grid, Layers), Fault>
    ensures err { IfErr result (λ f. (t : Data) → LeastOrWant (transform_faults t) fault → LeastOrWant (content_faults (limits_of t) (view value.now) ++ under (name_turn (codes "transform")) (transform_faults t)) f) }
    ensures ok { OnOk result ⊥ }
{
    match fault.kind {
        FaultKind::OutOfMemory => Err(fault),
        _ => match read_layers(alloc, &Limits::of_positions(), value) {
            Ok(_layers) => Err(fault.under_name(alloc, "transform")),
            Err(before) => Err(before),
        },
    }
}

fn read_with(alloc: Global, transform: &Value, value: &Value) -> Result<(Grid, Layers), Fault>
    ensures ok { OnOk result (content_faults (limits_of (view transform.now)) (view value.now) ++ under (name_turn (codes "transform")) (transform_faults (view transform.now)) ≡ []) }
    ensures grid { IfOk result (λ made. made.0 ≡ transform_of (view transform.now)) }
    ensures layers { IfOk result (λ made. map_list plain_layer made.1.items ≡ layers_of (view value.now)) }
    ensures distinct { IfOk result (λ made. Distinct (names_read made.1.items)) }
    ensures err { IfErr result (λ f. LeastOrWant (content_faults (limits_of (view transform.now)) (view value.now) ++ under (name_turn (codes "transform")) (transform_faults (view transform.now))) f) }
{
    match read_transform(alloc, transform) {
        Ok(grid) => {
            let layers = read_layers(alloc, &Limits::of(&grid), value)?;
            Ok((grid, layers))
        }
        Err(fault) => read_faulty(alloc, fault, value),
    }
}

fn read_members(alloc: Global, value: &Value) -> Result<(Grid, Layers), Fault>
    ensures ok { OnOk result (transformed_faults (view value.now) (get (codes "transform") (view value.now)) ≡ []) }
    ensures grid { IfOk result (λ made. made.0 ≡ grid_of (view value.now)) }
    ensures layers { IfOk result (λ made. map_list plain_layer made.1.items ≡ layers_of (view value.now)) }
    ensures distinct { IfOk result (λ made. Distinct (names_read made.1.items)) }
    ensures err { IfErr result (λ f. LeastOrWant (transformed_faults (view value.now) (get (codes "transform") (view value.now))) f) }
{
    match value.get("transform") {
        None => Err(Fault::here(alloc, FaultKind::NoTransform).under_name(alloc, "transform")),
        Some(transform) => read_with(alloc, transform, value),
    }
}

pub(crate) fn read_root(alloc: Global, value: &Value) -> Result<(Grid, Layers), Fault>
    ensures ok { OnOk result (topology_faults (view value.now) ≡ []) }
    ensures grid { IfOk result (λ made. made.0 ≡ grid_of (view value.now)) }
    ensures layers { IfOk result (λ made. map_list plain_layer made.1.items ≡ layers_of (view value.now)) }
    ensures distinct { IfOk result (λ made. Distinct (names_read made.1.items)) }
    ensures err { IfErr result (λ f. LeastOrWant (topology_faults (view value.now)) f) }
{
    if !value.is_object() {
        return Err(Fault::here(alloc, FaultKind::WrongKind));
    }
    match judge_type(value, "Topology") {
        Ok(()) => read_members(alloc, value),
        Err(kind) => Err(type_fault(alloc, kind)),
    }
}

// The value is judged first, so that no feature is kept of a text that has a fault. It is dropped at the end,
// before the map is made.
pub(crate) fn read_text(alloc: Global, bytes: &[u8]) -> Result<(Grid, Layers), Fault>
    ensures ok { OnOk result (faults_of_text bytes.now ≡ []) }
    ensures grid { IfOk result (λ made. made.0 ≡ grid_of_text bytes.now) }
    ensures layers { IfOk result (λ made. map_list plain_layer made.1.items ≡ layers_of_text bytes.now) }
    ensures distinct { IfOk result (λ made. Distinct (names_read made.1.items)) }
    ensures err { IfErr result (λ f. LeastOrWant (faults_of_text bytes.now) f) }
{
    let value = document(alloc, bytes)?;
    judge_root(alloc, &value)?;
    read_root(alloc, &value)
}

// The map of the layers, each put under its name.
fn put_layers(alloc: Global, layers: Layers) -> Result<FeatureMap, OutOfMemory>
    ensures { IfOk result (λ m. m ≡ with_layers finite.empty (map_list layer_read layers.items)) }
{
    let mut map = FeatureMap::new(alloc);
    for (name, features) in layers {
        let features = feature_set(alloc, features)?;
        map = map.with_features(name.as_str(), features)?;
    }
    Ok(map)
}

pub(crate) fn map_of(alloc: Global, layers: Layers) -> Result<FeatureMap, Fault>
    ensures made { IfOk result (λ m. m ≡ with_layers finite.empty (map_list layer_read layers.items)) }
    ensures err { IfErr result IsWant }
{
    match put_layers(alloc, layers) {
        Ok(map) => Ok(map),
        Err(_) => Err(Fault::here(alloc, FaultKind::OutOfMemory)),
    }
}

/// The grid of a topology's text, and its features: what its arcs stitch to (TopoJSON, section 2).
///
/// Only quantized topologies are read. Members that the standard does not name are ignored, and so
/// is `bbox`.
///
/// # Errors
/// The first error of the text, by path and then by number; `OutOfMemory` at the root.
pub fn read(alloc: Global, bytes: &[u8]) -> Result<(Grid, FeatureMap), Fault>
    ensures ok { OnOk result (faults_of_text bytes.now ≡ []) }
    ensures grid { IfOk result (λ made. made.0 ≡ grid_of_text bytes.now) }
    ensures means { IfOk result (λ made. Means bytes.now made.0 made.1) }
    ensures fits { IfOk result (λ made. MapFits made.0 made.1) }
    ensures err { IfErr result (λ f. LeastOrWant (faults_of_text bytes.now) f) }
{
    let (grid, layers) = read_text(alloc, bytes)?;
    let map = map_of(alloc, layers)?;
    Ok((grid, map))
}
