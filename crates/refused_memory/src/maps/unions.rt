//! Maps that take features and layers: where memory is refused they are as they were.

use faults::OutOfMemory;
use refused_calls::calls;
use refused_calls::calls::{Borrowed, change};
use refused_calls::comparing::same_map;
use refused_calls::inputs::read;
use refused_calls::outcome::{Answer, Outcome, Tally};
use refused_calls::tables::both;
use refused_calls::texts::{FIRST, SECOND, SHARED_EDGE};
use shapes::{Feature, FeatureMap, InsertFault};
use std::alloc::Global;
use std::collections::BTreeSet;

/// A map of one square, the same with an empty layer `b` beside it, the map of another square and a copy
/// of that, and the map of both squares.
#[derive(Drop)]
struct Maps {
    one: FeatureMap,
    with_layer: FeatureMap,
    other: FeatureMap,
    other_copy: FeatureMap,
    both: FeatureMap,
}

fn with_layer(one: &FeatureMap) -> Option<FeatureMap> {
    let mut map = one.copy().ok()?;
    map.add_layer("b").ok()?;
    Some(map)
}

impl Maps {
    fn of(alloc: Global) -> Option<Maps> {
        let one = read(alloc, FIRST)?;
        let with_layer = with_layer(&one);
        let others = both(read(alloc, SECOND), read(alloc, SECOND));
        let rest = both(others, read(alloc, SHARED_EDGE));
        let (ones, ((other, other_copy), squares)) = both(both(Some(one), with_layer), rest)?;
        let (one, with_layer) = ones;
        Some(Maps {
            one,
            with_layer,
            other,
            other_copy,
            both: squares,
        })
    }

    /// The other square as a feature.
    fn feature(&self, alloc: Global) -> Option<Feature> {
        self.other.layer("a")?.first()?.copy(alloc).ok()
    }

    /// The other square as a set of features.
    fn features(&self, alloc: Global) -> Option<BTreeSet<Feature>> {
        let mut features = BTreeSet::new(alloc);
        features.insert(self.feature(alloc)?).ok()?;
        Some(features)
    }
}

impl Borrowed for Maps {
    fn is_as_before(&self) -> bool {
        has(&self.with_layer, self, 0) && same_map(&self.other, &self.other_copy)
    }
}

/// Whether a map has the one square in the layer `a`, and so many features in the layer `b`.
fn has(map: &FeatureMap, maps: &Maps, count: usize) -> bool {
    match (map.layer("a"), maps.one.layer("a"), map.layer("b")) {
        (Some(a), Some(one), Some(b)) => a == one && b.len() == count,
        _ => false,
    }
}

fn add_layer(map: &mut FeatureMap, maps: &Maps) -> Answer {
    match map.add_layer("b") {
        Ok(is_new) => Answer::of(is_new && has(map, maps, 0)),
        Err(OutOfMemory) => Answer::Wanting,
    }
}

fn test_add_layer(_: Global, maps: &Maps) -> Outcome {
    change(
        maps,
        maps.one.copy().ok(),
        |map| add_layer(map, maps),
        |map| same_map(map, &maps.one),
    )
}

fn insert(alloc: Global, map: &mut FeatureMap, maps: &Maps) -> Answer {
    let Some(feature) = maps.feature(alloc) else {
        return Answer::Unasked;
    };
    match map.insert("b", feature) {
        Ok(is_new) => Answer::of(is_new && has(map, maps, 1)),
        Err(InsertFault::OutOfMemory) => Answer::Wanting,
        Err(InsertFault::NoLayer) => Answer::Wrong,
    }
}

fn test_insert(alloc: Global, maps: &Maps) -> Outcome {
    change(
        maps,
        with_layer(&maps.one),
        |map| insert(alloc, map, maps),
        |map| same_map(map, &maps.with_layer),
    )
}

fn judge(made: Result<FeatureMap, OutOfMemory>, maps: &Maps) -> Answer {
    match made {
        Ok(map) => Answer::of(same_map(&map, &maps.both)),
        Err(OutOfMemory) => Answer::Wanting,
    }
}

fn with_features(alloc: Global, maps: &Maps) -> Answer {
    let Some(features) = maps.features(alloc) else {
        return Answer::Unasked;
    };
    match maps.one.copy() {
        Ok(map) => judge(map.with_features("a", features), maps),
        Err(OutOfMemory) => Answer::Unasked,
    }
}

fn union(_: Global, maps: &Maps) -> Answer {
    judge(maps.one.union(&maps.other), maps)
}

/// Makes each call of maps.
pub(crate) fn test(rt: &HostRuntime, tally: &mut Tally) {
    if let Some(maps) = tally.borrowed(rt, "maps of squares", "its maps", Maps::of) {
        calls!(tally.test(rt, "maps of squares", &maps);
            "FeatureMap::add_layer" => test_add_layer,
            "FeatureMap::insert" => test_insert,
        );
        calls!(tally.ask(rt, "maps of squares", &maps);
            "FeatureMap::with_features" => with_features,
            "FeatureMap::union" => union,
        );
    }
}
