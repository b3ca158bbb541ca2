//! A file to a map of fixed features.
ghost use Rattle.decimal_maps.specs.Roots.{IsMap};
ghost use Rattle.decimal_maps.specs.declared.feature.RawFeature.{RawFeature as Raw};
ghost use Rattle.faults.specs.Fault.{IsWant, Lifted};
ghost use Rattle.faults.specs.Path.{index as index_turn};
ghost use Rattle.json.specs.Json.{Json, document};
ghost use Rattle.reading.specs.Fault.{LeastOrWant};
ghost use Rattle.rounded_maps.specs.Fixed.{HasMore};
ghost use Rattle.rounded_maps.specs.Rounded.{IsRead, IsRounded, faults_under, text_faults};
ghost use Rattle.std.specs.Prelude.{◌≡◌, [], IfErr, IfOk, List, OnOk, Some, false, true};

use crate::map::RoundedMap;
use crate::source::texts_of;
use attributes::AttributeRules;
use decimal_faults::read_value;
use decimal_maps::{MapRules, RawFeature, Stop, read_map};
use decimal_topologies::TopologyRules;
use faults::{Fault, FaultKind};
use fixing::{Broken, FixingRules};
use json::{Error, Scratch, Value};
use std::alloc::Global;

/// What is done with a map.
#[derive(Clone, Copy)]
pub struct RoundingRules<'r> {
    pub map: MapRules<'r>,
    pub fixing: FixingRules,
    /// Whether a feature without an id gets its number in its file for one, from 1.
    pub numbers: bool,
    /// The only object that is read of a topology, where one is named.
    pub layer: Option<&'r str>,
}

impl<'r> RoundingRules<'r> {
    ghost use Rattle.rounded_maps.specs.Topologies.{topology_rules};

    /// How a topology is read.
    pub fn topology(&self) -> TopologyRules<'r>
        ensures { result ≡ topology_rules self.now }
    {
        let attributes = &self.map.attributes;
        TopologyRules {
            map: MapRules {
                grid: self.map.grid,
                attributes: AttributeRules {
                    id: attributes.id,
                    scales: attributes.scales,
                    reals: attributes.reals,
                },
            },
            layer: self.layer,
        }
    }
}

pub(crate) fn want_of_memory(alloc: Global) -> Fault
    ensures { IsWant result }
{
    Fault::here(alloc, FaultKind::OutOfMemory)
}

/// The first fault of a text of GeoJSON that has one.
pub(crate) fn refuse(alloc: Global, bytes: &[u8], rules: &RoundingRules<'_>) -> Fault
    ensures { LeastOrWant (text_faults rules.now bytes.now) result }
{
    match decimal_faults::faults(alloc, &rules.map, &rules.fixing, bytes) {
        Ok(faults) => match faults.into_iter().next() {
            Some(fault) => fault,
            None => want_of_memory(alloc),
        },
        Err(_) => want_of_memory(alloc),
    }
}

/// The features of a text, read from its tree.
fn read_tree(alloc: Global, text: &str, rules: &RoundingRules<'_>) -> Result<Vec<RawFeature>, Fault>
    ensures made { IfOk result (λ fs. (j : Json) × (document text.now ≡ Some j) × IsMap rules.now.map j fs.items) }
    ensures err { IfErr result (LeastOrWant (text_faults rules.now text.now)) }
{
    let mut scratch = Scratch::new(alloc);
    let value = match Value::parse(alloc, text, &mut scratch) {
        Ok(value) => value,
        Err(Error::OutOfMemory) => return Err(want_of_memory(alloc)),
        Err(_) => return Err(refuse(alloc, text.as_bytes(), rules)),
    };
    match read_value(alloc, &rules.map, &value) {
        Ok(features) => Ok(features),
        Err(Stop::Unread) => Err(refuse(alloc, text.as_bytes(), rules)),
        Err(Stop::OutOfMemory) => Err(want_of_memory(alloc)),
    }
}

/// The features of a text: read along its tokens, and from its tree where that stops.
fn read_features(
    alloc: Global,
    text: &str,
    rules: &RoundingRules<'_>,
) -> Result<Vec<RawFeature>, Fault>
    ensures made { IfOk result (λ fs. (j : Json) × (document text.now ≡ Some j) × IsMap rules.now.map j fs.items) }
    ensures err { IfErr result (LeastOrWant (text_faults rules.now text.now)) }
{
    match read_map(alloc, &rules.map, text) {
        Ok(features) => Ok(features),
        Err(Stop::Unread) => read_tree(alloc, text, rules),
        Err(Stop::OutOfMemory) => Err(want_of_memory(alloc)),
    }
}

/// The features of a text, of which the bytes have to be UTF-8.
fn read_text(
    alloc: Global,
    bytes: &[u8],
    rules: &RoundingRules<'_>,
) -> Result<Vec<RawFeature>, Fault>
    ensures read { IfOk result (λ fs. IsRead rules.now.map bytes.now fs.items) }
    ensures err { IfErr result (LeastOrWant (text_faults rules.now bytes.now)) }
{
    let Ok(text) = simdutf8::compat::from_utf8(bytes) else {
        return Err(refuse(alloc, bytes, rules));
    };
    match read_features(alloc, text, rules) {
        Ok(features) => Ok(features),
        Err(fault) => Err(fault),
    }
}

/// Adds the features of a text to a map, each fixed.
fn add_text(
    alloc: Global,
    bytes: &[u8],
    rules: &RoundingRules<'_>,
    map: &mut RoundedMap,
) -> Result<(), Fault>
    ensures more { OnOk result ((raws : List Raw) × IsRead rules.now.map bytes.now raws × HasMore rules.now.fixing rules.now.numbers raws map.old map.new) }
    ensures err { IfErr result (LeastOrWant (text_faults rules.now bytes.now)) }
{
    let features = read_text(alloc, bytes, rules)?;
    match map.add_all(alloc, features, &rules.fixing, rules.numbers) {
        Ok(()) => Ok(()),
        Err(Broken::Refused) => Err(refuse(alloc, bytes, rules)),
        Err(Broken::OutOfMemory) => Err(want_of_memory(alloc)),
    }
}

/// A fault of a text, as that of its file: in a sequence under the number of the text.
fn place_fault(fault: Fault, is_sequence: bool, number: usize) -> Fault
    ensures sequence { is_sequence ≡ true → Lifted (index_turn number) fault result }
    ensures text { is_sequence ≡ false → result ≡ fault }
{
    if is_sequence {
        fault.under_index(number)
    } else {
        fault
    }
}

/// The map of a file of GeoJSON in decimal numbers (RFC 7946), a text or a sequence of texts: each coordinate the nearest
/// whole number of steps, and each feature fixed as the rules say. A byte order mark in front is passed over.
///
/// # Errors
/// The first fault of the file that isn't fixed; `OutOfMemory`.
pub fn round_map(
    alloc: Global,
    bytes: &[u8],
    is_sequence: bool,
    rules: &RoundingRules<'_>,
) -> Result<RoundedMap, Fault>
    ensures made { IfOk result (IsRounded rules.now is_sequence bytes.now) }
    ensures ok { OnOk result (faults_under rules.now is_sequence bytes.now ≡ []) }
    ensures err { IfErr result (LeastOrWant (faults_under rules.now is_sequence bytes.now)) }
{
    let _step = rules.map.grid.step.size();
    let Ok(texts) = texts_of(alloc, bytes, is_sequence) else {
        return Err(want_of_memory(alloc));
    };
    let mut map = RoundedMap::new(alloc);
    for (number, text) in texts.iter().enumerate() {
        match add_text(alloc, *text, rules, &mut map) {
            Ok(()) => {}
            Err(fault) => return Err(place_fault(fault, is_sequence, number)),
        }
    }
    Ok(map)
}
