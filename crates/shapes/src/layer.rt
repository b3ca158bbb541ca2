//! A layer of a feature map: its name and its set of features.
ghost use Rattle.shapes.specs.Fitting.{ShapeFits};
ghost use Rattle.shapes.specs.Inside.{features_if};
ghost use Rattle.shapes.specs.Maps.{set_of};
ghost use Rattle.shapes.specs.Sets as set;
ghost use Rattle.shapes.specs.declared.insert_fault.InsertFault.TheVariants.{OutOfMemory as WantOfMemory};
ghost use Rattle.std.specs.List.{AllByRecursion};
ghost use Rattle.std.specs.Prelude.{◌≡◌, OnOk, IfOk, OnErr, IsOkUnless, not, option_map, ◌↔◌, IsTrue};

use crate::feature::Feature;
use crate::insert_fault::InsertFault;
use crate::spelled::Spelled;
use faults::OutOfMemory;
use grid::transform::Grid;
use std::alloc::Global;
use std::collections::BTreeSet;

/// A layer of a feature map: its name, and its features in their order.
#[derive(Drop)]
pub struct FeatureLayer {
    pub name: Spelled,
    pub features: BTreeSet<Feature>,
}

impl FeatureLayer {
    pub(crate) fn put(&mut self, feature: Feature) -> Result<bool, InsertFault>
        ensures name { self.new.name ≡ self.old.name }
        ensures ok { OnOk result (set_of self.new.features ≡ set.insert (set_of self.old.features) feature) }
        ensures added { IfOk result (λ added. added ≡ not (set.contains (set_of self.old.features) feature)) }
        ensures err { OnErr result (set_of self.new.features ≡ set_of self.old.features) }
        ensures memory { IsOkUnless result WantOfMemory }
    {
        let added = self.features.insert(feature)?;
        Ok(added)
    }

    // The layer with the features of another one beside its own, copied.
    pub(crate) fn union_with(
        &self,
        alloc: Global,
        other: Option<&FeatureLayer>,
    ) -> Result<FeatureLayer, OutOfMemory>
        ensures name { IfOk result (λ l. l.name ≡ self.now.name) }
        ensures features { IfOk result (λ l. set_of l.features ≡ set.union (set_of self.now.features) (features_if (option_map (λ o. o.now) other.entry))) }
    {
        let name = self.name.copy(alloc)?;
        let features = match other {
            Some(other) => union_of(alloc, &self.features, &other.features)?,
            None => union_of(alloc, &self.features, &BTreeSet::new(alloc))?,
        };
        Ok(FeatureLayer { name, features })
    }

    // The layer with the features of another one beside its own, moved.
    pub(crate) fn join(self, other: FeatureLayer) -> Result<FeatureLayer, OutOfMemory>
        ensures name { IfOk result (λ l. l.name ≡ self.name) }
        ensures features { IfOk result (λ l. set_of l.features ≡ set.union (set_of self.features) (set_of other.features)) }
    {
        let features = merge_sets(self.features, other.features)?;
        Ok(FeatureLayer {
            name: self.name,
            features,
        })
    }

    // Whether each position of each feature fits the grid.
    pub(crate) fn fits(&self, grid: &Grid) -> bool
        ensures { IsTrue result ↔ AllByRecursion (λ f. ShapeFits grid.now f.shape) self.now.features.keys }
    {
        for feature in self.features.iter() {
            if !feature.fits(grid) {
                return false;
            }
        }
        true
    }
}

// The features of both sets: the fewer are moved to the others.
fn merge_sets(
    these: BTreeSet<Feature>,
    those: BTreeSet<Feature>,
) -> Result<BTreeSet<Feature>, OutOfMemory>
    ensures { IfOk result (λ s. set_of s ≡ set.union (set_of these) (set_of those)) }
{
    if these.len() < those.len() {
        append_few(those, these)
    } else {
        append_few(these, those)
    }
}

fn append_few(
    mut many: BTreeSet<Feature>,
    mut few: BTreeSet<Feature>,
) -> Result<BTreeSet<Feature>, OutOfMemory>
    ensures { IfOk result (λ s. set_of s ≡ set.union (set_of many) (set_of few)) }
{
    many.append(&mut few)?;
    Ok(many)
}

// Copies of the features of both sets, by one pass over the two.
fn union_of(
    alloc: Global,
    these: &BTreeSet<Feature>,
    those: &BTreeSet<Feature>,
) -> Result<BTreeSet<Feature>, OutOfMemory>
    ensures { IfOk result (λ s. set_of s ≡ set.union (set_of these.now) (set_of those.now)) }
{
    let mut copies = Vec::new(alloc);
    for feature in these.union(those) {
        copies.push(feature.copy(alloc)?)?;
    }
    feature_set(alloc, copies)
}

/// The set of these features.
pub fn feature_set(alloc: Global, features: Vec<Feature>) -> Result<BTreeSet<Feature>, OutOfMemory>
    ensures { IfOk result (λ s. set_of s ≡ set.from_list features.items) }
{
    let set: BTreeSet<Feature> = features.into_iter().collect(alloc)?;
    Ok(set)
}
