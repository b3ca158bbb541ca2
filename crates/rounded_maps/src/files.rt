//! The maps of files: one of GeoJSON, or one for each layer of a topology.
ghost use Rattle.reading.specs.Fault.{LeastOrWant};
ghost use Rattle.rounded_maps.specs.Contents.{AreMapsOf, IsContent, IsOnlyMap};
ghost use Rattle.rounded_maps.specs.Files.{AreOfFile, AreRounded, IsOfGeoJson, file_of, files_of};
ghost use Rattle.rounded_maps.specs.Fixed.{IsFixedMap};
ghost use Rattle.rounded_maps.specs.Refusals.{IsMapsRefusal, IsRefusal};
ghost use Rattle.rounded_maps.specs.Laws.{AreFaultless};
ghost use Rattle.rounded_maps.specs.Rounded.{faults_under};
ghost use Rattle.rounded_maps.specs.Topologies.{AreLayerMaps, faults_of_either, file_faults, kept_unless, takes_name};
ghost use Rattle.rounded_maps.specs.declared.content.Content.{Content as Has};
ghost use Rattle.rounded_maps.specs.declared.files.Origin.{Origin as From};
ghost use Rattle.rounded_maps.specs.declared.map.RoundedMap.{RoundedMap as Map};
ghost use Rattle.std.specs.Prelude.{◌≡◌, ◌++◌, ◌∷◌, [], Bool, IfErr, IfOk, List, OnOk, true};

use crate::building::{MapsFault, refuse_text};
use crate::content::{Content, read_content, refuse_either};
use crate::map::RoundedMap;
use crate::rounding::{RoundingRules, round_map, want_of_memory};
use crate::source::{Source, skip_mark};
use decimal_maps::{RawFeature, Stop};
use decimal_topologies::TopologyLayer;
use faults::{Fault, OutOfMemory};
use fixing::Broken;
use std::alloc::Global;
use std::convert::AsSlice;

/// Where a map is from.
#[derive(Drop)]
pub struct Origin {
    /// The place of its file.
    pub text: usize,
    /// The name of its layer, where its file gives it one. Otherwise it is the caller's.
    pub layer: Option<String>,
}

/// The maps of files, and where each is from.
#[derive(Drop)]
pub(crate) struct ReadMaps {
    pub(crate) maps: Vec<RoundedMap>,
    pub(crate) origins: Vec<Origin>,
}

/// The map of a layer's features.
fn layer_map(
    alloc: Global,
    features: Vec<RawFeature>,
    rules: &RoundingRules<'_>,
) -> Result<RoundedMap, Broken>
    ensures { IfOk result (IsFixedMap rules.now.fixing rules.now.numbers features.items) }
{
    let mut map = RoundedMap::new(alloc);
    map.add_all(alloc, features, &rules.fixing, rules.numbers)?;
    Ok(map)
}

/// Whether the caller's name counts for the layers: where it is asked, and there is one alone.
fn is_renamed(is_named: bool, layers: &[TopologyLayer]) -> bool
    ensures { result ≡ takes_name is_named layers.now }
{
    is_named && layers.len() == 1
}

/// The name of a layer, where the caller's doesn't count.
fn name_unless(renamed: bool, name: String) -> Option<String>
    ensures { result ≡ kept_unless renamed name }
{
    if renamed { None } else { Some(name) }
}

/// The maps of layers, from the file at that place. Their names count unless they get the caller's.
fn layer_maps(
    alloc: Global,
    layers: Vec<TopologyLayer>,
    place: usize,
    renamed: bool,
    rules: &RoundingRules<'_>,
) -> Result<ReadMaps, Broken>
    ensures { IfOk result (λ read. AreLayerMaps rules.now place renamed layers.items read.maps.items read.origins.items) }
{
    let mut read = ReadMaps {
        maps: Vec::new(alloc),
        origins: Vec::new(alloc),
    };
    for layer in layers {
        let TopologyLayer { name, features } = layer;
        read.maps.push(layer_map(alloc, features, rules)?)?;
        read.origins.push(Origin {
            text: place,
            layer: name_unless(renamed, name),
        })?;
    }
    Ok(read)
}

/// The only map of the file at a place.
fn only_map(alloc: Global, map: RoundedMap, place: usize) -> Result<ReadMaps, OutOfMemory>
    ensures { IfOk result (λ read. IsOnlyMap place map read.maps.items read.origins.items) }
{
    let (mut maps, mut origins) = (Vec::new(alloc), Vec::new(alloc));
    maps.push(map)?;
    origins.push(Origin {
        text: place,
        layer: None,
    })?;
    Ok(ReadMaps { maps, origins })
}

/// The maps of what a text has, which is the file at that place.
fn content_maps(
    alloc: Global,
    content: Content,
    is_named: bool,
    place: usize,
    rules: &RoundingRules<'_>,
) -> Result<ReadMaps, Broken>
    ensures { IfOk result (λ read. AreMapsOf rules.now place is_named content read.maps.items read.origins.items) }
{
    match content {
        Content::Map(features) => {
            let map = layer_map(alloc, features, rules)?;
            Ok(only_map(alloc, map, place)?)
        }
        Content::Topology(layers) => {
            let renamed = is_renamed(is_named, layers.as_slice());
            layer_maps(alloc, layers, place, renamed, rules)
        }
    }
}

/// The maps of a text, which is the file at that place.
fn text_maps(
    alloc: Global,
    text: &[u8],
    is_named: bool,
    place: usize,
    rules: &RoundingRules<'_>,
) -> Result<ReadMaps, Fault>
    ensures made { IfOk result (λ read. (content : Has) × (IsContent rules.now text.now content × AreMapsOf rules.now place is_named content read.maps.items read.origins.items)) }
    ensures err { IfErr result (LeastOrWant (faults_of_either rules.now text.now)) }
{
    let content = match read_content(alloc, text, rules) {
        Ok(content) => content,
        Err(Stop::Unread) => return Err(refuse_either(alloc, text, rules)),
        Err(Stop::OutOfMemory) => return Err(want_of_memory(alloc)),
    };
    match content_maps(alloc, content, is_named, place, rules) {
        Ok(read) => Ok(read),
        Err(Broken::Refused) => Err(refuse_either(alloc, text, rules)),
        Err(Broken::OutOfMemory) => Err(want_of_memory(alloc)),
    }
}

/// The only map of a file that is a sequence of texts.
fn sequence_maps(
    alloc: Global,
    bytes: &[u8],
    place: usize,
    rules: &RoundingRules<'_>,
) -> Result<ReadMaps, Fault>
    ensures made { IfOk result (λ read. (named : Bool) → IsOfGeoJson rules.now place (file_of true named bytes.now) read.maps.items read.origins.items) }
    ensures err { IfErr result (LeastOrWant (faults_under rules.now true bytes.now)) }
{
    let map = round_map(alloc, bytes, true, rules)?;
    match only_map(alloc, map, place) {
        Ok(read) => Ok(read),
        Err(_) => Err(want_of_memory(alloc)),
    }
}

/// The maps of a file: that of GeoJSON, or those of a topology's layers.
fn file_maps(
    alloc: Global,
    bytes: &[u8],
    is_sequence: bool,
    is_named: bool,
    place: usize,
    rules: &RoundingRules<'_>,
) -> Result<ReadMaps, Fault>
    ensures made { IfOk result (λ read. AreOfFile rules.now place (file_of is_sequence is_named bytes.now) read.maps.items read.origins.items) }
    ensures err { IfErr result (LeastOrWant (file_faults rules.now is_sequence bytes.now)) }
{
    if is_sequence {
        return sequence_maps(alloc, bytes, place, rules);
    }
    text_maps(alloc, skip_mark(bytes), is_named, place, rules)
}

/// Adds the maps of a file, and where they are from.
fn add_file(
    alloc: Global,
    bytes: &[u8],
    is_sequence: bool,
    is_named: bool,
    place: usize,
    rules: &RoundingRules<'_>,
    read: &mut ReadMaps,
) -> Result<(), MapsFault>
    ensures more { OnOk result ((ms : List Map) × ((os : List From) × (AreOfFile rules.now place (file_of is_sequence is_named bytes.now) ms os × ((read.new.maps.items ≡ read.old.maps.items ++ ms) × (read.new.origins.items ≡ read.old.origins.items ++ os))))) }
    ensures refused { IfErr result (IsRefusal place (file_faults rules.now is_sequence bytes.now)) }
{
    match file_maps(alloc, bytes, is_sequence, is_named, place, rules) {
        Ok(made) => {
            let ReadMaps {
                mut maps,
                mut origins,
            } = made;
            read.maps.append(&mut maps)?;
            read.origins.append(&mut origins)?;
            Ok(())
        }
        Err(fault) => Err(refuse_text(place, fault)),
    }
}

/// The maps of files. The bytes of each are let go of once it is read.
pub(crate) fn read_maps<T: AsSlice<u8> + Drop>(
    alloc: Global,
    sources: Vec<Source<T>>,
    rules: &RoundingRules<'_>,
) -> Result<ReadMaps, MapsFault>
    ensures rounded { IfOk result (λ read. AreRounded rules.now 0 (files_of T.items sources.items) read.maps.items read.origins.items) }
    ensures faultless { OnOk result (AreFaultless rules.now (files_of T.items sources.items)) }
    ensures refused { IfErr result (IsMapsRefusal rules.now 0 (files_of T.items sources.items)) }
{
    let _step = rules.map.grid.step.size();
    let mut read = ReadMaps {
        maps: Vec::new(alloc),
        origins: Vec::new(alloc),
    };
    let mut place = 0;
    for source in sources {
        let bytes = source.bytes.as_slice();
        let (is_sequence, is_named) = (source.is_sequence, source.is_named);
        add_file(alloc, bytes, is_sequence, is_named, place, rules, &mut read)?;
        place += 1;
    }
    Ok(read)
}
