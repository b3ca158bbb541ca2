//! Two topologies by the same arcs, to be compared layer by layer.
ghost use Rattle.compare.specs.Compared.{AreInOrder, IsComparisonOf, IsDifferenceByProperty, IsNumberOf, IsPairOf, feature_id, geometries_from};
ghost use Rattle.compare.specs.Differences.{IsDifference};
ghost use Rattle.compare.specs.Keyed.{AreKeys, id_of};
ghost use Rattle.compare.specs.Pairing.{IsPairing};
ghost use Rattle.compare.specs.Placed.{IsDifferenceAt};
ghost use Rattle.compare.specs.declared.fault.CompareFault.TheVariants.{OtherGrid};
ghost use Rattle.topo.specs.LayerLaws.CutLayers.{layer_recut};
ghost use Rattle.split_heal.specs.SplitParts.{of_side};
ghost use Rattle.shapes.specs.Maps.{Layers, features_at};
ghost use Rattle.shapes.specs.Sets as set;
ghost use Rattle.shapes.specs.declared.shape.Id.{Id};
ghost use Rattle.std.specs.Prelude.{◌≡◌, ◌↔◌, IfOk, IsErrOf, List, true, map as map_list, ℕ};
ghost use Rattle.topo.specs.OfMap.{IsOf};

use crate::difference::{LayerDifference, difference_of};
use crate::fault::CompareFault;
use crate::keys::Keys;
use crate::pairs::{LayerPair, pairs_of};
use crate::property::keys_of;
use chains::table::ArcTable;
use faults::OutOfMemory;
use split_heal::{Recut, Side, recut_owned};
use std::alloc::{AllocError, Global};
use topo::{Geom, Layer, Topology, layers_rewritten};

/// The layers of a side by the new arcs.
fn layers_by(
    alloc: Global,
    recut: &Recut,
    side: Side,
    layers: Vec<Layer>,
) -> Result<Vec<Layer>, OutOfMemory>
    ensures { IfOk result (λ v. v.items ≡ map_list (layer_recut recut.now.arcs.arcs (of_side side recut.now)) layers.items) }
{
    layers_rewritten(alloc, &recut.lists(side), layers)
}

/// The arcs of two topologies together, and the layers of both by these arcs. Their geometries keep their order.
#[derive(Drop)]
pub struct Comparison {
    arcs: ArcTable,
    old: Vec<Layer>,
    new: Vec<Layer>,
}

/// The number of the layer of a name, of layers in the order of their names.
fn number_named(layers: &[Layer], name: &str) -> Option<usize>
    ensures { AreInOrder layers.now → IsNumberOf layers.now name.now result }
{
    layers
        .binary_search_by(|layer| layer.name().text().cmp(name))
        .ok()
}

/// The geometries of the layer of a number, none where there is no such layer.
fn geometries_at<'a>(layers: &'a [Layer], number: Option<usize>) -> &'a [Geom]
    ensures { result.now ≡ geometries_from layers.now number }
{
    match number {
        Some(number) => match layers.get(number) {
            Some(layer) => layer.geometries(),
            None => &[],
        },
        None => &[],
    }
}

/// The new arcs, and the layers of both sides by them.
fn comparison_by(
    alloc: Global,
    recut: Recut,
    old: Vec<Layer>,
    new: Vec<Layer>,
) -> Result<Comparison, OutOfMemory>
    ensures arcs { IfOk result (λ c. c.arcs ≡ recut.arcs) }
    ensures old { IfOk result (λ c. c.old.items ≡ map_list (layer_recut recut.arcs.arcs recut.left) old.items) }
    ensures new { IfOk result (λ c. c.new.items ≡ map_list (layer_recut recut.arcs.arcs recut.right) new.items) }
{
    let old = layers_by(alloc, &recut, Side::Left, old)?;
    let new = layers_by(alloc, &recut, Side::Right, new)?;
    Ok(Comparison {
        arcs: recut.into_arcs(),
        old,
        new,
    })
}

/// Two topologies by the same arcs. They are passed by value: their layers are moved.
fn recut_layers(alloc: Global, old: Topology, new: Topology) -> Result<Comparison, OutOfMemory>
    ensures { IfOk result (λ c. (m n : Layers) → IsOf m old → IsOf n new → IsComparisonOf m n c) }
{
    let (old_arcs, old_layers) = old.into_parts();
    let (new_arcs, new_layers) = new.into_parts();
    let both = recut_owned(alloc, old_arcs, new_arcs)?;
    let made = comparison_by(alloc, both, old_layers, new_layers)?;
    Ok(made)
}

/// Prepares two topologies to be compared: the arcs of both are split at the junctions of both, once. Then two features
/// are equal exactly where their ids, properties and lists of arcs are, so no feature is stitched.
///
/// # Errors
/// `OtherGrid` exactly where the grids differ; `OutOfMemory`.
pub fn compare(alloc: Global, old: &Topology, new: &Topology) -> Result<Comparison, CompareFault>
    ensures compared { IfOk result (λ c. (m n : Layers) → IsOf m old.now → IsOf n new.now → IsComparisonOf m n c) }
    ensures other_grid { IsErrOf result OtherGrid ↔ ¬ (old.now.grid ≡ new.now.grid) }
{
    if !old.is_on_grid_of(new) {
        return Err(CompareFault::OtherGrid);
    }
    let comparison = recut_layers(alloc, old.share(alloc)?, new.share(alloc)?)?;
    Ok(comparison)
}

impl Comparison {
    /// The difference of the layers of a name. A topology without such a layer has no features there.
    pub fn layer(&self, alloc: Global, name: &str) -> Result<LayerDifference, AllocError>
        ensures { IfOk result (λ d. (m n : Layers) → IsComparisonOf m n self.now → IsDifference feature_id (set.items (features_at m name.now)) (set.items (features_at n name.now)) d) }
    {
        self.difference(alloc, self.pair(name))
    }

    /// The arcs of both topologies together, whose numbers the lists of both have.
    pub fn arcs(&self) -> &ArcTable
        ensures { result.now ≡ self.now.arcs }
    {
        &self.arcs
    }

    /// The layers of the old topology by the arcs of both, in the order of their names. Their geometries keep their
    /// numbers.
    pub fn old_layers(&self) -> &[Layer]
        ensures { result.now ≡ self.now.old.items }
    {
        &self.old
    }

    /// The layers of the new topology by the arcs of both, in the order of their names. Their geometries keep their
    /// numbers.
    pub fn new_layers(&self) -> &[Layer]
        ensures { result.now ≡ self.now.new.items }
    {
        &self.new
    }

    /// The layers of a name.
    pub fn pair(&self, name: &str) -> LayerPair
        ensures { (m n : Layers) → IsComparisonOf m n self.now → IsPairOf self.now name.now result }
    {
        LayerPair {
            old: number_named(&self.old, name),
            new: number_named(&self.new, name),
        }
    }

    /// The layers of each name that either topology has, in the order of the names.
    pub fn pairs(&self, alloc: Global) -> Result<Vec<LayerPair>, AllocError>
        ensures { IfOk result (λ v. (m n : Layers) → IsComparisonOf m n self.now → IsPairing self.now.old.items self.now.new.items v.items) }
    {
        pairs_of(alloc, &self.old, &self.new)
    }

    /// The difference of two layers of one name, whose features pair by their ids.
    pub fn difference(&self, alloc: Global, pair: LayerPair) -> Result<LayerDifference, AllocError>
        ensures { IfOk result (λ d. (m n : Layers) (q : List ℕ) → IsComparisonOf m n self.now → IsPairOf self.now q pair → IsDifference feature_id (set.items (features_at m q)) (set.items (features_at n q)) d) }
    {
        let old = geometries_at(&self.old, pair.old);
        let new = geometries_at(&self.new, pair.new);
        difference_by_ids(alloc, old, new)
    }

    /// The difference of two layers of one name, whose features pair by the values of a property. Those without
    /// it, or where it is null, have no partner.
    pub fn difference_by(
        &self,
        alloc: Global,
        pair: LayerPair,
        property: &str,
    ) -> Result<LayerDifference, OutOfMemory>
        ensures { IfOk result (λ d. (m n : Layers) (q : List ℕ) → IsComparisonOf m n self.now → IsPairOf self.now q pair → IsDifferenceByProperty property.now (set.items (features_at m q)) (set.items (features_at n q)) d) }
    {
        let old = geometries_at(&self.old, pair.old);
        let new = geometries_at(&self.new, pair.new);
        difference_by_values(alloc, old, new, property)
    }
}

/// The difference of two lists of geometries, which pair by their ids.
fn difference_by_ids(
    alloc: Global,
    old: &[Geom],
    new: &[Geom],
) -> Result<LayerDifference, AllocError>
    ensures { IfOk result (λ d. IsDifferenceAt old.now new.now (map_list id_of old.now) (map_list id_of new.now) d) }
{
    difference_of(alloc, old, Keys::Ids(old), new, Keys::Ids(new))
}

/// The difference of two lists of geometries, which pair by the values of a property.
fn difference_by_values(
    alloc: Global,
    old: &[Geom],
    new: &[Geom],
    property: &str,
) -> Result<LayerDifference, OutOfMemory>
    ensures { IfOk result (λ d. (ks : List Id) × (ls : List Id) × AreKeys property.now old.now ks × AreKeys property.now new.now ls × IsDifferenceAt old.now new.now ks ls d) }
{
    let old_keys = keys_of(alloc, old, property)?;
    let new_keys = keys_of(alloc, new, property)?;
    let old_values = Keys::Values(old_keys.as_slice());
    let new_values = Keys::Values(new_keys.as_slice());
    Ok(difference_of(alloc, old, old_values, new, new_values)?)
}
