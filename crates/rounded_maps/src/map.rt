//! A map of fixed features.
ghost use Rattle.decimal_maps.specs.Tally.{nothing_counted};
ghost use Rattle.fixing.specs.Counts.{no_fixes, sum_of_counts as sum};
ghost use Rattle.fixing.specs.Forms.{plain_shape, seen_geometry};
ghost use Rattle.fixing.specs.Geometries.{geometry_counted, geometry_left};
ghost use Rattle.rounded_maps.specs.Fixed.{numbered, sum_of_tallies};
ghost use Rattle.shapes.specs.Ids.{HasI64};
ghost use Rattle.std.specs.Prelude.{◌≡◌, ◌+◌, ◌++◌, ◌∷◌, [], IfOk, OnOk, Some, length, map};

use attributes::Attributes;
use decimal_maps::{RawFeature, Tally};
use fixing::{Broken, FixedFeature, Fixes, FixingRules, RawGeometry, fix_geometry};
use shapes::Id;
use std::alloc::Global;

/// A fixed feature, and how much was fixed of it.
#[derive(Drop)]
pub struct RoundedFeature {
    pub feature: FixedFeature,
    pub fixes: Fixes,
}

/// A map of which each feature is fixed.
#[derive(Drop)]
pub struct RoundedMap {
    /// The features, in the order of the map.
    pub features: Vec<RoundedFeature>,
    /// What was met where the positions of all features were read.
    pub tally: Tally,
    /// How many numbers became texts.
    pub reals: u64,
}

/// Nothing is fixed.
pub(crate) fn nothing_fixed() -> Fixes
    ensures { result ≡ no_fixes }
{
    Fixes {
        closed: 0,
        collapsed: 0,
        folded: 0,
        collections: 0,
        lost: 0,
    }
}

/// A sum of counts, up to the greatest.
fn sum_of_counts(one: u64, other: u64) -> u64
    ensures { result ≡ sum one other }
{
    one.saturating_add(other)
}

/// What is counted of both.
fn sum_of(one: Tally, other: Tally) -> Tally
    ensures { result ≡ sum_of_tallies one other }
{
    Tally {
        positions: sum_of_counts(one.positions, other.positions),
        heights: sum_of_counts(one.heights, other.heights),
        moved: sum_of_counts(one.moved, other.moved),
        furthest: one.furthest.max(other.furthest),
    }
}

/// The id of a feature, which is its number where it has none and is to have one.
fn number_id(id: Id, numbers: bool, number: usize) -> Result<Id, Broken>
    ensures id { IfOk result (λ i. i ≡ numbered numbers number id) }
    ensures bits { HasI64 id → IfOk result HasI64 }
{
    match id {
        Id::None if numbers => match i64::try_from(number) {
            Ok(number) => Ok(Id::Number(number)),
            Err(_) => Err(Broken::OutOfMemory),
        },
        id => Ok(id),
    }
}

/// The attributes of a feature with its number for an id, where it has none and is to have one.
fn number_attributes(
    attributes: Attributes,
    numbers: bool,
    number: usize,
) -> Result<Attributes, Broken>
    ensures id { IfOk result (λ a. a.id ≡ numbered numbers number attributes.id) }
    ensures props { IfOk result (λ a. a.props ≡ attributes.props) }
{
    let Attributes { id, props, reals } = attributes;
    match number_id(id, numbers, number) {
        Ok(id) => Ok(Attributes { id, props, reals }),
        Err(broken) => Err(broken),
    }
}

/// The feature of these attributes and what the rules leave of this geometry.
fn fix_feature(
    alloc: Global,
    attributes: Attributes,
    geometry: RawGeometry,
    rules: &FixingRules,
) -> Result<RoundedFeature, Broken>
    ensures id { IfOk result (λ f. f.feature.id ≡ attributes.id) }
    ensures props { IfOk result (λ f. f.feature.props ≡ attributes.props) }
    ensures left { IfOk result (λ f. geometry_left rules.now (seen_geometry geometry) ≡ Some (map plain_shape f.feature.shapes.items)) }
    ensures fixes { IfOk result (λ f. f.fixes ≡ geometry_counted rules.now (seen_geometry geometry) no_fixes) }
{
    let Attributes { id, props, .. } = attributes;
    let mut fixes = nothing_fixed();
    let shapes = fix_geometry(alloc, geometry, rules, &mut fixes)?;
    let feature = FixedFeature { id, props, shapes };
    Ok(RoundedFeature { feature, fixes })
}

impl RoundedMap {
    ghost use Rattle.rounded_maps.specs.Fixed.{HasMore, IsFixed};
    ghost use Rattle.rounded_maps.specs.declared.map.RoundedFeature.{RoundedFeature as Fixed};

    /// A map without features.
    pub(crate) fn new(alloc: Global) -> RoundedMap
        ensures features { result.features.items ≡ [] }
        ensures tally { result.tally ≡ nothing_counted }
        ensures reals { result.reals ≡ 0 }
    {
        RoundedMap {
            features: Vec::new(alloc),
            tally: Tally::new(),
            reals: 0,
        }
    }

    /// Adds a feature, fixed, and numbered behind those before where that is asked.
    fn add(
        &mut self,
        alloc: Global,
        feature: RawFeature,
        rules: &FixingRules,
        numbers: bool,
    ) -> Result<(), Broken>
        ensures fixed { OnOk result ((f : Fixed) × (self.new.features.items ≡ self.old.features.items ++ f ∷ []) × IsFixed rules.now numbers (length self.old.features.items + 1) feature f) }
        ensures tally { OnOk result (self.new.tally ≡ sum_of_tallies self.old.tally feature.tally) }
        ensures reals { OnOk result (self.new.reals ≡ sum self.old.reals feature.attributes.reals) }
    {
        let RawFeature {
            attributes,
            geometry,
            tally,
        } = feature;
        let reals = attributes.reals;
        let number = self.features.len() + 1;
        let attributes = number_attributes(attributes, numbers, number)?;
        self.features
            .push(fix_feature(alloc, attributes, geometry, rules)?)?;
        self.tally = sum_of(self.tally, tally);
        self.reals = sum_of_counts(self.reals, reals);
        Ok(())
    }

    /// Adds features, each fixed.
    ///
    /// # Errors
    /// `Refused` where one of them has a fault that the rules don't fix; `OutOfMemory`.
    pub(crate) fn add_all(
        &mut self,
        alloc: Global,
        features: Vec<RawFeature>,
        rules: &FixingRules,
        numbers: bool,
    ) -> Result<(), Broken>
        ensures { OnOk result (HasMore rules.now numbers features.items self.old self.new) }
    {
        for feature in features {
            self.add(alloc, feature, rules, numbers)?;
        }
        Ok(())
    }
}
