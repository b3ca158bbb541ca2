//! Maps that are rounded together, and their topology.
ghost use Rattle.reading.specs.Meant.{AreFeatures};
ghost use Rattle.reading.specs.Plain.{Plain, plain};
ghost use Rattle.rounded_maps.specs.Built.{AreLayersWith, AreMaps, HaveSame, IsBuilt, IsReport, plain_features, plain_of};
ghost use Rattle.rounded_maps.specs.Equal.{AreEqualIf};
ghost use Rattle.rounded_maps.specs.Files.{AreRounded, File as OneFile, files_of, layer_of};
ghost use Rattle.rounded_maps.specs.Joined.{AreCountsIf, AreJoinedMaps, AreJoinedWithin, AreVertexUses, shapes_in};
ghost use Rattle.rounded_maps.specs.Laws.{AreFaultless};
ghost use Rattle.rounded_maps.specs.Outcomes.{AreOutcomes};
ghost use Rattle.rounded_maps.specs.Refusals.{IsMapsRefusal, IsTextFault};
ghost use Rattle.rounded_maps.specs.Unjoined.{AreUnjoined, AreUnjoinedTexts, file_at, of_file};
ghost use Rattle.rounded_maps.specs.declared.building.MapsFault.TheVariants.{OutOfMemory as WantOfMemory};
ghost use Rattle.shapes.specs.Ids.{HasI64};
ghost use Rattle.shapes.specs.Maps.{set_of as features_set};
ghost use Rattle.snapping.specs.NearlyShared.Joined.{target_in};
ghost use Rattle.snapping.specs.NearlyShared.Uses.{shapes_uses};
ghost use Rattle.std.specs.FinMap as finite;
ghost use Rattle.std.specs.Prelude.{◌≡◌, ◌⊎◌, ◌+◌, ◌++◌, ◌∷◌, [], IfErr, IfOk, List, OnOk, get_or, length, map, string_bytes};

use crate::equal::{EqualFeatures, find_equal_features};
use crate::files::{Origin, ReadMaps, read_maps};
use crate::joining::join_map;
use crate::map::RoundedMap;
use crate::outcome::Outcome;
use crate::rounding::RoundingRules;
use crate::source::Source;
use faults::{Fault, FaultKind, OutOfMemory};
use fixing::{FixedFeature, FixingRules};
use grid::Grid;
use shapes::layer::feature_set;
use shapes::{Feature, FeatureMap, Id, Props, Shape};
use snapping::nearly_shared::{Clusters, VertexCounts, VertexIndex, Vertices};
use std::alloc::{AllocError, AllocFailed, Global};
use std::collections::BTreeSet;
use std::convert::AsSlice;
use thiserror::Error;
use topo::Topology;

/// What is done with maps.
#[derive(Clone, Copy)]
pub struct BuildRules<'r> {
    pub rounding: RoundingRules<'r>,
    /// The grid of the topology.
    pub grid: Grid,
    /// How many steps apart nearly shared vertices are joined; 0 joins none.
    pub join_distance: u32,
    /// Whether shared and nearly shared vertices, and equal features, are counted.
    pub counts: bool,
}

/// Why maps are refused.
#[derive(Debug, Drop, Error)]
pub enum MapsFault {
    /// The place of the first text that is refused, and its first fault, which is never out of memory.
    #[error("text {0} is refused")]
    Text(usize, Fault),
    /// A growth of memory was refused.
    #[error("out of memory")]
    OutOfMemory,
}

impl From<OutOfMemory> for MapsFault {
    ghost from_gives = { λ _ e. e ≡ WantOfMemory };

    fn from(_fault: OutOfMemory) -> MapsFault {
        MapsFault::OutOfMemory
    }
}

impl From<AllocError> for MapsFault {
    ghost from_gives = { λ _ e. e ≡ WantOfMemory };

    fn from(_fault: AllocError) -> MapsFault {
        MapsFault::OutOfMemory
    }
}

impl<T: Drop> From<AllocFailed<T>> for MapsFault {
    ghost from_gives = { λ _ e. e ≡ WantOfMemory };

    fn from(_fault: AllocFailed<T>) -> MapsFault {
        MapsFault::OutOfMemory
    }
}

/// What became of maps that were rounded together.
#[derive(Drop)]
pub struct Rounded {
    /// Where each map is from.
    pub origins: Vec<Origin>,
    /// What became of each map.
    pub outcomes: Vec<Outcome>,
    /// Which vertices were joined, where that was asked.
    pub clusters: Option<Clusters>,
    /// How many vertices are shared and nearly shared in the end, where that was asked.
    pub counts: Option<VertexCounts>,
    /// Which features of each map equal an earlier one of their layer, where that was asked.
    pub equal: Option<Vec<EqualFeatures>>,
}

/// The refusal of the text at a place.
pub(crate) fn refuse_text(place: usize, fault: Fault) -> MapsFault
    ensures { IsTextFault place fault result }
{
    match fault.kind {
        FaultKind::OutOfMemory => MapsFault::OutOfMemory,
        _ => MapsFault::Text(place, fault),
    }
}

/// Adds the vertices of a map. Each shape that is left is a feature.
fn add_vertices(vertices: &mut Vertices, map: &RoundedMap) -> Result<(), OutOfMemory>
    ensures uses { OnOk result (vertices.new.uses.items ≡ vertices.old.uses.items ++ shapes_uses vertices.old.features (shapes_in map.now)) }
    ensures features { OnOk result (vertices.new.features ≡ vertices.old.features + length (shapes_in map.now)) }
{
    for feature in &map.features {
        vertices.add(feature.feature.shapes.as_slice())?;
    }
    Ok(())
}

/// The vertices of maps, numbered by feature in the order of the maps.
fn index_of(alloc: Global, maps: &[RoundedMap]) -> Result<VertexIndex, OutOfMemory>
    ensures { IfOk result (AreVertexUses maps.now) }
{
    let mut vertices = Vertices::new(alloc);
    for map in maps {
        add_vertices(&mut vertices, map)?;
    }
    Ok(vertices.into_index())
}

/// The maps with the vertices of clusters joined.
fn join_maps(
    alloc: Global,
    maps: Vec<RoundedMap>,
    clusters: &Clusters,
    rules: &FixingRules,
) -> Result<Vec<RoundedMap>, MapsFault>
    ensures ok { IfOk result (λ joined. AreJoinedMaps rules.now (target_in clusters.now) maps.items joined.items) }
    ensures err { IfErr result (AreUnjoined rules.now (target_in clusters.now) 0 maps.items) }
{
    let mut joined = Vec::new(alloc);
    for map in maps {
        match join_map(alloc, map, clusters, rules) {
            Ok(map) => joined.push(map)?,
            Err(fault) => return Err(refuse_text(joined.len(), fault)),
        }
    }
    Ok(joined)
}

/// The place of the file that a map is from.
fn file_of(origins: &[Origin], map: usize) -> usize
    ensures { result ≡ file_at origins.now map }
{
    match origins.get(map) {
        Some(origin) => origin.text,
        None => map,
    }
}

/// The refusal of a map, as that of the file that it is from.
fn in_file(origins: &[Origin], fault: MapsFault) -> MapsFault
    ensures { result ≡ of_file origins.now fault }
{
    match fault {
        MapsFault::Text(map, fault) => MapsFault::Text(file_of(origins, map), fault),
        MapsFault::OutOfMemory => MapsFault::OutOfMemory,
    }
}

/// The maps with nearly shared vertices joined, where that is asked, and which these are.
fn join_near(
    alloc: Global,
    maps: Vec<RoundedMap>,
    origins: &[Origin],
    rules: &BuildRules<'_>,
) -> Result<(Vec<RoundedMap>, Option<Clusters>), MapsFault>
    ensures ok { IfOk result (λ joined. AreJoinedWithin rules.now.rounding.fixing rules.now.join_distance joined.1 maps.items joined.0.items) }
    ensures err { IfErr result (λ e. (files : List OneFile) → AreRounded rules.now.rounding 0 files maps.items origins.now → (e ≡ WantOfMemory) ⊎ AreUnjoinedTexts rules.now files e) }
{
    if rules.join_distance == 0 {
        return Ok((maps, None));
    }
    let index = index_of(alloc, maps.as_slice())?;
    let clusters = index.clusters(alloc, rules.join_distance)?;
    match join_maps(alloc, maps, &clusters, &rules.rounding.fixing) {
        Ok(joined) => Ok((joined, Some(clusters))),
        Err(fault) => Err(in_file(origins, fault)),
    }
}

/// How many vertices are shared and nearly shared, at most a step apart, where that is asked.
fn counts_of(
    alloc: Global,
    maps: &[RoundedMap],
    rules: &BuildRules<'_>,
) -> Result<Option<VertexCounts>, OutOfMemory>
    ensures { IfOk result (AreCountsIf rules.now.counts maps.now) }
{
    if !rules.counts {
        return Ok(None);
    }
    let index = index_of(alloc, maps)?;
    Ok(Some(index.count(alloc, 1)?))
}

fn outcomes_of(alloc: Global, maps: &[RoundedMap]) -> Result<Vec<Outcome>, OutOfMemory>
    ensures { IfOk result (λ outcomes. AreOutcomes maps.now outcomes.items) }
{
    let mut outcomes = Vec::with_capacity(alloc, maps.len())?;
    for map in maps {
        outcomes.push(Outcome::of(alloc, map)?)?;
    }
    Ok(outcomes)
}

/// The name of a map's layer.
fn layer_name(alloc: Global, names: &[&str], origin: &Origin) -> Result<String, OutOfMemory>
    ensures { IfOk result (λ layer. string_bytes layer ≡ layer_of (map (λ n. n.now) names.now) origin.now) }
{
    match &origin.layer {
        Some(layer) => Ok(String::from_str(alloc, layer.as_str())?),
        None => Ok(String::from_str(alloc, name_at(names, origin.text))?),
    }
}

/// The name at a place, or an empty one.
fn name_at<'n>(names: &[&'n str], place: usize) -> &'n str
    ensures { result.now ≡ get_or (map (λ n. n.now) names.now) place [] }
{
    match names.get(place) {
        Some(name) => *name,
        None => "",
    }
}

/// The names of the layers of maps: those that their files give them, else the caller's names of the files. One that is
/// missing is empty.
fn layer_names(
    alloc: Global,
    names: &[&str],
    origins: &[Origin],
) -> Result<Vec<String>, OutOfMemory>
    ensures { IfOk result (λ layers. map string_bytes layers.items ≡ map (layer_of (map (λ n. n.now) names.now)) origins.now) }
{
    let mut layers = Vec::new(alloc);
    for origin in origins {
        layers.push(layer_name(alloc, names, origin)?)?;
    }
    Ok(layers)
}

/// The features that equal an earlier one of their layer, where that is asked.
fn equal_features_of(
    alloc: Global,
    names: &[&str],
    read: &ReadMaps,
    rules: &BuildRules<'_>,
) -> Result<Option<Vec<EqualFeatures>>, OutOfMemory>
    ensures { IfOk result (AreEqualIf rules.now.counts (map (layer_of (map (λ n. n.now) names.now)) read.now.origins.items) read.now.maps.items) }
{
    if !rules.counts {
        return Ok(None);
    }
    let layers = layer_names(alloc, names, read.origins.as_slice())?;
    let equal = find_equal_features(alloc, layers.as_slice(), read.maps.as_slice())?;
    Ok(Some(equal))
}

/// What became of maps.
fn report_of(
    alloc: Global,
    names: &[&str],
    read: ReadMaps,
    clusters: Option<Clusters>,
    rules: &BuildRules<'_>,
) -> Result<(Vec<RoundedMap>, Rounded), MapsFault>
    ensures same { IfOk result (λ r. (r.0 ≡ read.maps) × (r.1.origins ≡ read.origins) × (r.1.clusters ≡ clusters)) }
    ensures report { IfOk result (λ r. IsReport rules.now (map (λ n. n.now) names.now) r.0.items r.1) }
    ensures want { IfErr result (λ e. e ≡ WantOfMemory) }
{
    let outcomes = outcomes_of(alloc, read.maps.as_slice())?;
    let counts = counts_of(alloc, read.maps.as_slice(), rules)?;
    let equal = equal_features_of(alloc, names, &read, rules)?;
    let ReadMaps { maps, origins } = read;
    let rounded = Rounded {
        origins,
        outcomes,
        clusters,
        counts,
        equal,
    };
    Ok((maps, rounded))
}

/// The maps of files in decimal numbers, with nearly shared vertices joined where that is asked, and what became of them. A
/// map that has no name in its file is in the layer that `names` has at the file's place.
///
/// # Errors
/// `Text` with the first file that is refused and its first fault; `OutOfMemory`.
pub fn round_maps<T: AsSlice<u8> + Drop>(
    alloc: Global,
    names: &[&str],
    sources: Vec<Source<T>>,
    rules: &BuildRules<'_>,
) -> Result<(Vec<RoundedMap>, Rounded), MapsFault>
    ensures maps { IfOk result (λ r. AreMaps rules.now (files_of T.items sources.items) r.1 r.0.items) }
    ensures faultless { OnOk result (AreFaultless rules.now.rounding (files_of T.items sources.items)) }
    ensures report { IfOk result (λ r. IsReport rules.now (map (λ n. n.now) names.now) r.0.items r.1) }
    ensures refused { IfErr result (λ e. IsMapsRefusal rules.now.rounding 0 (files_of T.items sources.items) e ⊎ AreUnjoinedTexts rules.now (files_of T.items sources.items) e) }
{
    let ReadMaps { maps, origins } = read_maps(alloc, sources, &rules.rounding)?;
    let (maps, clusters) = join_near(alloc, maps, origins.as_slice(), rules)?;
    report_of(alloc, names, ReadMaps { maps, origins }, clusters, rules)
}

/// Adds a feature for each of these shapes, with copies of an id and properties.
fn add_copies(
    alloc: Global,
    id: &Id,
    props: &Props,
    shapes: Vec<Shape>,
    features: &mut Vec<Feature>,
) -> Result<(), OutOfMemory>
    requires { HasI64 id.now }
    ensures { OnOk result (map plain features.new.items ≡ map plain features.old.items ++ map (plain_of id.now props.now) shapes.items) }
{
    for shape in shapes {
        let id = id.copy(alloc)?;
        let props = props.copy(alloc)?;
        features.push(Feature { id, props, shape })?;
    }
    Ok(())
}

/// Adds a feature for each shape of a fixed feature.
fn add_each(
    alloc: Global,
    feature: FixedFeature,
    features: &mut Vec<Feature>,
) -> Result<(), OutOfMemory>
    ensures { OnOk result (map plain features.new.items ≡ map plain features.old.items ++ map (plain_of feature.id feature.props) feature.shapes.items) }
{
    let FixedFeature {
        id,
        props,
        mut shapes,
    } = feature;
    let Some(shape) = shapes.pop() else {
        return Ok(());
    };
    add_copies(alloc, &id, &props, shapes, features)?;
    features.push(Feature { id, props, shape })?;
    Ok(())
}

/// Adds the features that a fixed feature stands for: one for each of its shapes.
fn add_feature(
    alloc: Global,
    feature: FixedFeature,
    features: &mut Vec<Feature>,
) -> Result<(), OutOfMemory>
    ensures { OnOk result (HaveSame (map plain features.new.items) (map plain features.old.items ++ map (plain_of feature.id feature.props) feature.shapes.items)) }
{
    add_each(alloc, feature, features)?;
    Ok(())
}

/// The set of the features of a map.
fn set_of(alloc: Global, map: RoundedMap) -> Result<BTreeSet<Feature>, OutOfMemory>
    ensures { IfOk result (λ s. AreFeatures (features_set s) (plain_features map)) }
{
    let mut features = Vec::with_capacity(alloc, map.features.len())?;
    for feature in map.features {
        add_feature(alloc, feature.feature, &mut features)?;
    }
    match feature_set(alloc, features) {
        Ok(set) => Ok(set),
        Err(fault) => Err(fault),
    }
}

/// The layers of maps. Maps of one name are one layer.
fn layers_of(
    alloc: Global,
    names: Vec<String>,
    maps: Vec<RoundedMap>,
) -> Result<FeatureMap, OutOfMemory>
    ensures { IfOk result (AreLayersWith finite.empty (map string_bytes names.items) maps.items) }
{
    let mut layers = FeatureMap::new(alloc);
    let mut names = names.into_iter();
    for map in maps {
        let Some(name) = names.next() else {
            return Ok(layers);
        };
        layers = layers.with_features(name.as_str(), set_of(alloc, map)?)?;
    }
    Ok(layers)
}

/// The topology of files in decimal numbers, each map in the layer of its name, and what became of them.
///
/// # Errors
/// As `round_maps`.
pub fn build_maps<T: AsSlice<u8> + Drop>(
    alloc: Global,
    names: &[&str],
    sources: Vec<Source<T>>,
    rules: &BuildRules<'_>,
) -> Result<(Topology, Rounded), MapsFault>
    ensures built { IfOk result (λ r. IsBuilt rules.now (map (λ n. n.now) names.now) (files_of T.items sources.items) r.1 r.0) }
    ensures faultless { OnOk result (AreFaultless rules.now.rounding (files_of T.items sources.items)) }
    ensures refused { IfErr result (λ e. IsMapsRefusal rules.now.rounding 0 (files_of T.items sources.items) e ⊎ AreUnjoinedTexts rules.now (files_of T.items sources.items) e) }
{
    let (maps, rounded) = round_maps(alloc, names, sources, rules)?;
    let layers = layer_names(alloc, names, rounded.origins.as_slice())?;
    let map = layers_of(alloc, layers, maps)?;
    let topology = Topology::build_owned(alloc, &rules.grid, map)?;
    Ok((topology, rounded))
}
