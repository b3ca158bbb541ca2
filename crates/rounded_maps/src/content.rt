//! What a text has: read along its tokens, or from its tree, which is parsed once.
ghost use Rattle.decimal_topologies.specs.Roots.{topology_faults as topology_faults_of};
ghost use Rattle.json.specs.Json.{Json, document};
ghost use Rattle.json.specs.Value.{value_view};
ghost use Rattle.reading.specs.Fault.{LeastOrWant};
ghost use Rattle.rounded_maps.specs.Contents.{HasContent, IsContent};
ghost use Rattle.rounded_maps.specs.Topologies.{faults_of_either, topology_rules};
ghost use Rattle.std.specs.Prelude.{◌≡◌, IfOk, Some};

use crate::rounding::{RoundingRules, refuse, want_of_memory};
use decimal_faults::read_value;
use decimal_maps::{RawFeature, Stop, read_map};
use decimal_topologies::{TopologyLayer, is_topology, read_topology, topology_faults};
use faults::Fault;
use json::{Error, Scratch, Value};
use std::alloc::Global;

/// What a text has: the features of GeoJSON, or the layers of a topology.
#[derive(Drop)]
pub(crate) enum Content {
    Map(Vec<RawFeature>),
    Topology(Vec<TopologyLayer>),
}

/// The first fault of a topology that has one.
fn refuse_topology(alloc: Global, value: &Value<'_>, rules: &RoundingRules<'_>) -> Fault
    ensures { LeastOrWant (topology_faults_of (topology_rules rules.now) rules.now.fixing (value_view value.now)) result }
{
    let topology = rules.topology();
    // Kit 13f proves a function that owns rules only where it names a place inside each of them.
    let _attributes = &topology.map.attributes;
    match topology_faults(alloc, &topology, &rules.fixing, value) {
        Ok(faults) => match faults.into_iter().next() {
            Some(fault) => fault,
            None => want_of_memory(alloc),
        },
        Err(_) => want_of_memory(alloc),
    }
}

/// The first fault of a text that has one, be it a topology or GeoJSON.
pub(crate) fn refuse_either(alloc: Global, text: &[u8], rules: &RoundingRules<'_>) -> Fault
    ensures { LeastOrWant (faults_of_either rules.now text.now) result }
{
    let mut scratch = Scratch::new(alloc);
    match Value::from_slice(alloc, text, &mut scratch) {
        Ok(value) => if is_topology(&value) {
            refuse_topology(alloc, &value, rules)
        } else {
            refuse(alloc, text, rules)
        },
        Err(Error::Invalid) => refuse(alloc, text, rules),
        Err(_) => want_of_memory(alloc),
    }
}

/// What a tree has.
fn value_content(
    alloc: Global,
    value: &Value<'_>,
    rules: &RoundingRules<'_>,
) -> Result<Content, Stop>
    ensures made { IfOk result (HasContent rules.now (value_view value.now)) }
{
    if is_topology(value) {
        let topology = rules.topology();
        let (_attributes, _layer) = (&topology.map.attributes, &topology.layer);
        match read_topology(alloc, &topology, value) {
            Ok(layers) => Ok(Content::Topology(layers)),
            Err(stop) => Err(stop),
        }
    } else {
        match read_value(alloc, &rules.map, value) {
            Ok(features) => Ok(Content::Map(features)),
            Err(stop) => Err(stop),
        }
    }
}

/// What the tree of a text has, which is let go of then.
fn tree_content(alloc: Global, text: &str, rules: &RoundingRules<'_>) -> Result<Content, Stop>
    ensures made { IfOk result (λ read. (j : Json) × (document text.now ≡ Some j) × HasContent rules.now j read) }
{
    let mut scratch = Scratch::new(alloc);
    match Value::parse(alloc, text, &mut scratch) {
        Ok(value) => value_content(alloc, &value, rules),
        Err(Error::OutOfMemory) => Err(Stop::OutOfMemory),
        Err(_) => Err(Stop::Unread),
    }
}

/// What a text has: read along its tokens, and from its tree where that stops.
fn text_content(alloc: Global, text: &str, rules: &RoundingRules<'_>) -> Result<Content, Stop>
    ensures made { IfOk result (λ read. (j : Json) × (document text.now ≡ Some j) × HasContent rules.now j read) }
{
    match read_map(alloc, &rules.map, text) {
        Ok(features) => Ok(Content::Map(features)),
        Err(Stop::Unread) => tree_content(alloc, text, rules),
        Err(Stop::OutOfMemory) => Err(Stop::OutOfMemory),
    }
}

/// What a text has, of which the bytes have to be UTF-8.
pub(crate) fn read_content(
    alloc: Global,
    bytes: &[u8],
    rules: &RoundingRules<'_>,
) -> Result<Content, Stop>
    ensures made { IfOk result (IsContent rules.now bytes.now) }
{
    let Ok(text) = simdutf8::compat::from_utf8(bytes) else {
        return Err(Stop::Unread);
    };
    match text_content(alloc, text, rules) {
        Ok(content) => Ok(content),
        Err(stop) => Err(stop),
    }
}
