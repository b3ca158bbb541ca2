//! What differs between two topologies, before it is written.
ghost use Rattle.compare.specs.Compared.{IsComparisonOf, IsPairOf, geometries_from};
ghost use Rattle.difference_text.specs.DifferenceParts.{layer_in};
ghost use Rattle.difference_text.specs.DifferenceText.{AgreeAt, AreAllChanges, AreChanges, ArePairsAsked, IsDifferenceAsked, LackLayer, counts_of, is_same_layer, single_number, changed_numbers};
ghost use Rattle.difference_text.specs.declared.fault.DifferenceFault.TheVariants.{OtherGrid, NoLayer, Write};
ghost use Rattle.shapes.specs.Maps.{Layers, features_at};
ghost use Rattle.shapes.specs.Sets as set;
ghost use Rattle.std.specs.FinMap as map;
ghost use Rattle.std.specs.List.{list_all};
ghost use Rattle.std.specs.Option.{option_copied};
ghost use Rattle.std.specs.Prelude.{◌≡◌, ◌↔◌, ◌+◌, ◌^◌, ◌<◌, [], ◌∷◌, ◌++◌, IfErr, IfOk, IsErrOf, IsTrue, List, is_some, length, map as map_list, true, ℕ};
ghost use Rattle.topo.specs.ItsMap.{ForItsMap};
ghost use Rattle.topo.specs.OfMap.{IsOf};

use crate::DifferenceOptions;
use crate::fault::DifferenceFault;
use crate::geometry::{GeometryChange, is_turned};
use crate::members::{MemberChange, member_changes};
use crate::vertices::PassedPoints;
use compare::{Changed, Comparison, LayerDifference, LayerPair, compare};
use faults::OutOfMemory;
use std::alloc::{AllocError, Global};
use topo::{Geom, Layer, Topology};

/// A feature that only one of two layers has: its number there, and the compact text of its key, where features pair
/// by a property that it has.
#[derive(Drop, Debug)]
pub struct Single {
    pub number: usize,
    pub key: Option<String>,
}

/// Two features that pair and differ: their numbers in the layers, the compact text of their key, where features pair
/// by a property, and what differs.
#[derive(Drop, Debug)]
pub struct FeatureChange {
    pub old: usize,
    pub new: usize,
    pub key: Option<String>,
    pub members: Vec<MemberChange>,
    /// None where the geometries are the same.
    pub geometry: Option<GeometryChange>,
}

/// What differs between the layers of one name. All lists ascend.
#[derive(Drop, Debug)]
pub struct LayerChanges {
    pub layers: LayerPair,
    pub removed: Vec<Single>,
    pub added: Vec<Single>,
    pub changed: Vec<FeatureChange>,
}

/// How many features were added, removed and changed, and how many layers were added and removed.
#[derive(Clone, Copy, PartialEq, Eq, Debug)]
pub struct ChangeCounts {
    pub added: usize,
    pub removed: usize,
    pub changed: usize,
    pub layers_added: usize,
    pub layers_removed: usize,
}

/// What differs between two topologies, layer by layer, in the order of the layers' names.
#[derive(Drop, Debug)]
pub struct Difference {
    pub layers: Vec<LayerChanges>,
    /// Whether features pair by a property.
    pub is_keyed: bool,
}

impl LayerChanges {
    /// Whether nothing differs: both layers are there, and no feature was removed, added or changed.
    fn is_empty(&self) -> bool
        ensures { result ≡ is_same_layer self.now }
    {
        self.layers.old.is_some()
            && self.layers.new.is_some()
            && self.removed.is_empty()
            && self.added.is_empty()
            && self.changed.is_empty()
    }
}

impl Difference {
    /// How much differs.
    pub fn counts(&self) -> ChangeCounts
        ensures { result ≡ counts_of self.now.layers.items }
    {
        let mut counts = ChangeCounts {
            added: 0,
            removed: 0,
            changed: 0,
            layers_added: 0,
            layers_removed: 0,
        };
        for layer in &self.layers {
            counts = with_layer(counts, layer);
        }
        counts
    }

    /// Whether nothing differs.
    pub fn is_empty(&self) -> bool
        ensures { result ≡ list_all is_same_layer self.now.layers.items }
    {
        self.layers.iter().all(|layer| layer.is_empty())
    }
}

/// Counts with those of a layer.
fn with_layer(counts: ChangeCounts, layer: &LayerChanges) -> ChangeCounts
    ensures { (layers : List LayerChanges) → length layers + 1 < 2 ^ 64 → counts ≡ counts_of layers → result ≡ counts_of (layers ++ layer.now ∷ []) }
{
    ChangeCounts {
        added: counts.added.saturating_add(layer.added.len()),
        removed: counts.removed.saturating_add(layer.removed.len()),
        changed: counts.changed.saturating_add(layer.changed.len()),
        layers_added: counts
            .layers_added
            .saturating_add(usize::from(layer.layers.old.is_none())),
        layers_removed: counts
            .layers_removed
            .saturating_add(usize::from(layer.layers.new.is_none())),
    }
}

/// Whether a topology has a layer of the name.
fn has_layer(topology: &Topology, name: &str) -> bool
    ensures { ForItsMap topology.now (λ m. IsTrue result ↔ IsTrue (map.contains_key m name.now)) }
{
    topology.geometries(name).is_some()
}

/// Whether a layer is asked for that neither topology has.
fn lack_layer(old: &Topology, new: &Topology, layer: Option<&str>) -> bool
    ensures { (m n : Layers) → IsOf m old.now → IsOf n new.now → (IsTrue result ↔ LackLayer (option_copied layer.entry) m n) }
{
    match layer {
        Some(name) => !has_layer(old, name) && !has_layer(new, name),
        None => false,
    }
}

/// What differs between two topologies: all layers, or the one that is asked for.
///
/// # Errors
/// `OtherGrid` exactly where the grids differ; else `NoLayer` exactly where a layer is asked for that neither topology
/// has; `OutOfMemory`.
pub fn find_difference(
    alloc: Global,
    old: &Topology,
    new: &Topology,
    options: &DifferenceOptions<'_>,
) -> Result<Difference, DifferenceFault>
    ensures told { IfOk result (λ d. (m n : Layers) → IsOf m old.now → IsOf n new.now → AreAllChanges (option_copied options.now.layer) (option_copied options.now.key) m n d.layers.items) }
    ensures same { IfOk result (λ d. (m n : Layers) → IsOf m old.now → IsOf n new.now → ((list_all is_same_layer d.layers.items ≡ true) ↔ AgreeAt (option_copied options.now.layer) m n)) }
    ensures keyed { IfOk result (λ d. d.is_keyed ≡ is_some options.now.key) }
    ensures other_grid { IsErrOf result OtherGrid ↔ ¬ (old.now.grid ≡ new.now.grid) }
    ensures no_layer { (m n : Layers) → IsOf m old.now → IsOf n new.now → (IsErrOf result NoLayer ↔ ((old.now.grid ≡ new.now.grid) × LackLayer (option_copied options.now.layer) m n)) }
    ensures unwritten { IfErr result (λ f. ¬ (f ≡ Write)) }
{
    if !old.is_on_grid_of(new) {
        return Err(DifferenceFault::OtherGrid);
    }
    if lack_layer(old, new, options.layer) {
        return Err(DifferenceFault::NoLayer);
    }
    match changes_asked(alloc, old, new, options) {
        Ok(difference) => Ok(difference),
        Err(OutOfMemory) => Err(DifferenceFault::OutOfMemory),
    }
}

/// What differs between two topologies on one grid, in all layers or in the one that is asked for.
fn changes_asked(
    alloc: Global,
    old: &Topology,
    new: &Topology,
    options: &DifferenceOptions<'_>,
) -> Result<Difference, OutOfMemory>
    ensures told { IfOk result (λ d. (m n : Layers) → IsOf m old.now → IsOf n new.now → ¬ LackLayer (option_copied options.now.layer) m n → AreAllChanges (option_copied options.now.layer) (option_copied options.now.key) m n d.layers.items) }
    ensures keyed { IfOk result (λ d. d.is_keyed ≡ is_some options.now.key) }
{
    let Ok(comparison) = compare(alloc, old, new) else {
        return Err(OutOfMemory);
    };
    let pairs = pairs_asked(alloc, &comparison, options.layer)?;
    let passed = PassedPoints::of(alloc, &comparison, &pairs)?;
    let key = options.key;
    let mut layers = Vec::new(alloc);
    for pair in &pairs {
        let sides = BothLayers {
            old,
            new,
            comparison: &comparison,
            passed: &passed,
            pair: *pair,
            key,
        };
        layers.push(sides.changes(alloc)?)?;
    }
    Ok(Difference {
        layers,
        is_keyed: key.is_some(),
    })
}

/// The layers to compare.
fn pairs_asked(
    alloc: Global,
    comparison: &Comparison,
    layer: Option<&str>,
) -> Result<Vec<LayerPair>, AllocError>
    ensures { IfOk result (λ v. (m n : Layers) → IsComparisonOf m n comparison.now → ¬ LackLayer (option_copied layer.entry) m n → ArePairsAsked (option_copied layer.entry) m n comparison.now v.items) }
{
    let Some(name) = layer else {
        return comparison.pairs(alloc);
    };
    let mut pairs = Vec::new(alloc);
    pairs.push(comparison.pair(name))?;
    Ok(pairs)
}

/// Two topologies, by their own arcs and by those of both, the points inside of these, two of their layers, and the property
/// by which features pair.
#[derive(Clone, Copy)]
struct BothLayers<'a> {
    old: &'a Topology,
    new: &'a Topology,
    comparison: &'a Comparison,
    passed: &'a PassedPoints,
    pair: LayerPair,
    key: Option<&'a str>,
}

impl<'a> BothLayers<'a> {
    /// What differs between the two layers.
    fn changes(&self, alloc: Global) -> Result<LayerChanges, OutOfMemory>
        ensures pair { IfOk result (λ l. l.layers ≡ self.now.pair) }
        ensures changes { IfOk result (λ l. (m n : Layers) (q : List ℕ) → IsComparisonOf m n self.now.comparison.now → IsPairOf self.now.comparison.now q self.now.pair → AreChanges (option_copied self.now.key) (set.items (features_at m q)) (set.items (features_at n q)) l) }
    {
        let difference = self.difference(alloc)?;
        let olds = geometries_at(self.old.layers(), self.pair.old);
        let news = geometries_at(self.new.layers(), self.pair.new);
        let mut changed = Vec::new(alloc);
        for pair in &difference.changed {
            changed.push(self.change(alloc, *pair)?)?;
        }
        Ok(LayerChanges {
            layers: self.pair,
            removed: self.singles(alloc, olds, &difference.removed)?,
            added: self.singles(alloc, news, &difference.added)?,
            changed,
        })
    }

    /// Which features differ.
    fn difference(&self, alloc: Global) -> Result<LayerDifference, OutOfMemory>
        ensures { IfOk result (λ d. (m n : Layers) (q : List ℕ) → IsComparisonOf m n self.now.comparison.now → IsPairOf self.now.comparison.now q self.now.pair → IsDifferenceAsked (option_copied self.now.key) (set.items (features_at m q)) (set.items (features_at n q)) d) }
    {
        match self.key {
            Some(property) => self.comparison.difference_by(alloc, self.pair, property),
            None => Ok(self.comparison.difference(alloc, self.pair)?),
        }
    }

    /// The features of these numbers, with their keys.
    fn singles(
        &self,
        alloc: Global,
        geometries: &[Geom],
        numbers: &[usize],
    ) -> Result<Vec<Single>, OutOfMemory>
        ensures { IfOk result (λ v. map_list single_number v.items ≡ numbers.now) }
    {
        let mut singles = Vec::new(alloc);
        for number in numbers {
            singles.push(self.single(alloc, geometries, *number)?)?;
        }
        Ok(singles)
    }

    /// The feature of a number, with its key.
    fn single(
        &self,
        alloc: Global,
        geometries: &[Geom],
        number: usize,
    ) -> Result<Single, OutOfMemory>
        ensures { IfOk result (λ s. s.number ≡ number) }
    {
        let key = match geometries.get(number) {
            Some(geometry) => self.key_of(alloc, geometry)?,
            None => None,
        };
        Ok(Single { number, key })
    }

    /// The compact text of a feature's key, where features pair by a property that it has.
    fn key_of(&self, alloc: Global, geometry: &Geom) -> Result<Option<String>, OutOfMemory> {
        match self.key {
            Some(name) => geometry.props.value_text(alloc, name),
            None => Ok(None),
        }
    }

    /// What differs between two features.
    fn change(&self, alloc: Global, pair: Changed) -> Result<FeatureChange, OutOfMemory>
        ensures { IfOk result (λ c. changed_numbers c ≡ pair) }
    {
        let mut change = FeatureChange {
            old: pair.old,
            new: pair.new,
            key: None,
            members: Vec::new(alloc),
            geometry: None,
        };
        let olds = geometries_at(self.old.layers(), self.pair.old);
        let news = geometries_at(self.new.layers(), self.pair.new);
        let Some(old) = olds.get(pair.old) else {
            return Ok(change);
        };
        let Some(new) = news.get(pair.new) else {
            return Ok(change);
        };
        change.key = self.key_of(alloc, old)?;
        change.members = member_changes(alloc, &old.props, &new.props)?;
        change.geometry = self.geometry(alloc, pair)?;
        Ok(change)
    }

    /// What differs between the geometries of two features, by the arcs of both topologies.
    fn geometry(&self, alloc: Global, pair: Changed) -> Result<Option<GeometryChange>, AllocError> {
        let olds = geometries_at(self.comparison.old_layers(), self.pair.old);
        let news = geometries_at(self.comparison.new_layers(), self.pair.new);
        let Some(old) = olds.get(pair.old) else {
            return Ok(None);
        };
        let Some(new) = news.get(pair.new) else {
            return Ok(None);
        };
        if old.body == new.body {
            return Ok(None);
        }
        if is_turned(&old.body, &new.body) {
            return Ok(Some(GeometryChange::Direction));
        }
        let arcs = self.comparison.arcs();
        Ok(Some(self.passed.change(alloc, arcs, &old.body, &new.body)?))
    }
}

/// The geometries of the layer of a number, none where there is no such layer.
pub(crate) fn geometries_at(layers: &[Layer], number: Option<usize>) -> &[Geom]
    ensures { result.now ≡ geometries_from layers.now number }
{
    match number {
        Some(number) => match layers.get(number) {
            Some(layer) => layer.geometries(),
            None => &[],
        },
        None => &[],
    }
}

/// The layer of a number.
pub(crate) fn layer_at(layers: &[Layer], number: Option<usize>) -> Option<&Layer>
    ensures { option_copied result ≡ layer_in layers.now number }
{
    match number {
        Some(number) => layers.get(number),
        None => None,
    }
}
