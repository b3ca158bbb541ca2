//! Features that equal an earlier one of their layer.
ghost use Rattle.rounded_maps.specs.Equal.{AreEqual, FindsRepeats, IsSeen, features_from, features_of, printed};
ghost use Rattle.std.specs.Prelude.{[], IfOk, OnOk, map as map_list, string_bytes};

use crate::map::{RoundedFeature, RoundedMap};
use faults::OutOfMemory;
use shapes::{Id, Props, Shape};
use std::alloc::Global;
use std::collections::BTreeSet;

/// The features of a map that equal an earlier one of their layer, of this map or of one before. Each shape that is left of a
/// feature is a feature here, with that one's number.
#[derive(Drop)]
pub struct EqualFeatures {
    /// Their numbers in the map, from 0.
    pub features: Vec<usize>,
}

/// A feature of a layer, as it is compared.
#[derive(Clone, Copy, PartialEq, Eq, PartialOrd, Ord)]
struct LayerFeature<'a> {
    layer: &'a str,
    id: &'a Id,
    props: &'a Props,
    shape: &'a Shape,
}

/// Adds the number of a feature if it equals one that was seen.
fn find_one<'a>(
    seen: &mut BTreeSet<LayerFeature<'a>>,
    found: LayerFeature<'a>,
    number: usize,
    equal: &mut Vec<usize>,
) -> Result<(), OutOfMemory>
    ensures { OnOk result (IsSeen (number, printed found.entry) seen.old seen.new equal.old.items equal.new.items) }
{
    if seen.insert(found)? {
        return Ok(());
    }
    equal.push(number)?;
    Ok(())
}

/// Adds the number of a feature for each of its shapes by which it equals an earlier one.
fn find_in_feature<'a>(
    seen: &mut BTreeSet<LayerFeature<'a>>,
    layer: &'a str,
    feature: &'a RoundedFeature,
    number: usize,
    equal: &mut Vec<usize>,
) -> Result<(), OutOfMemory>
    ensures { OnOk result (FindsRepeats (features_of layer.now number feature.now) seen.old seen.new equal.old.items equal.new.items) }
{
    for shape in &feature.feature.shapes {
        let found = LayerFeature {
            layer,
            id: &feature.feature.id,
            props: &feature.feature.props,
            shape,
        };
        find_one(seen, found, number, equal)?;
    }
    Ok(())
}

/// The features of a map that equal an earlier one.
fn find_in_map<'a>(
    alloc: Global,
    seen: &mut BTreeSet<LayerFeature<'a>>,
    layer: &'a str,
    map: &'a RoundedMap,
) -> Result<EqualFeatures, OutOfMemory>
    ensures { IfOk result (λ equal. FindsRepeats (features_from layer.now 0 map.now.features.items) seen.old seen.new [] equal.features.items) }
{
    let mut features = Vec::new(alloc);
    for (number, feature) in map.features.iter().enumerate() {
        find_in_feature(seen, layer, feature, number, &mut features)?;
    }
    Ok(EqualFeatures { features })
}

/// The features of maps that equal an earlier one of their layer, for each map. Maps of one name are one layer.
pub(crate) fn find_equal_features<'a>(
    alloc: Global,
    layers: &'a [String],
    maps: &'a [RoundedMap],
) -> Result<Vec<EqualFeatures>, OutOfMemory>
    ensures { IfOk result (λ equal. AreEqual [] (map_list string_bytes layers.now) maps.now equal.items) }
{
    let mut seen = BTreeSet::new(alloc);
    let mut equal = Vec::new(alloc);
    for (place, layer) in layers.iter().enumerate() {
        let Some(map) = maps.get(place) else {
            return Ok(equal);
        };
        equal.push(find_in_map(alloc, &mut seen, layer.as_str(), map)?)?;
    }
    Ok(equal)
}
