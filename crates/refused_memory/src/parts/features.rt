//! Features, copies of their parts, and sets of them.
ghost use Rattle.lines.specs.declared.line.Line as the_line;
ghost use Rattle.lines.specs.declared.ring.Ring as the_ring;

use faults::OutOfMemory;
use refused_calls::calls::Borrowed;
use refused_calls::inputs::read;
use refused_calls::layer;
use refused_calls::outcome::Tally;
use refused_calls::tables::{Lends, Row};
use shapes::form_map::Become;
use shapes::{Feature, FeatureMap, Line, Ring, Shape, feature_set};
use std::alloc::Global;

/// A square with an id and properties.
const NAMED: &str = layer!(
    r#"{"arcs":[[[0,0],[0,1],[1,0],[0,-1],[-1,0]]],"bbox":[0,0,1,1],"objects":{"a":{"geometries":[{"arcs":[[-1]],"id":"x","properties":{"n":1},"type":"Polygon"}"#
);

const PROPERTIES: &str = r#"{"n":1}"#;

/// The features of the square.
#[derive(Drop)]
struct Features {
    map: FeatureMap,
}

impl Features {
    /// The square.
    fn feature(&self) -> Option<&Feature> {
        self.map.layer("a")?.first()
    }
}

fn has_properties(feature: Option<&Feature>) -> bool {
    match feature {
        Some(feature) => feature.props.text() == PROPERTIES,
        None => false,
    }
}

impl Borrowed for Features {
    fn is_as_before(&self) -> bool {
        has_properties(self.feature())
    }
}

fn copy_props(alloc: Global, features: &Features) -> Result<bool, OutOfMemory> {
    match features.feature() {
        Some(feature) => Ok(feature.props.copy(alloc)? == feature.props),
        None => Ok(false),
    }
}

fn value_text(alloc: Global, features: &Features) -> Result<bool, OutOfMemory> {
    let Some(feature) = features.feature() else {
        return Ok(false);
    };
    match feature.props.value_text(alloc, "n")? {
        Some(text) => Ok(text.as_str() == "1"),
        None => Ok(false),
    }
}

fn copy_id(alloc: Global, features: &Features) -> Result<bool, OutOfMemory> {
    match features.feature() {
        Some(feature) => Ok(feature.id.copy(alloc)? == feature.id),
        None => Ok(false),
    }
}

fn copy_shape(alloc: Global, features: &Features) -> Result<bool, OutOfMemory> {
    match features.feature() {
        Some(feature) => Ok(feature.shape.copy(alloc)? == feature.shape),
        None => Ok(false),
    }
}

/// Lines and rings as they are.
#[derive(Drop)]
struct AsTheyAre;

impl Become<Line> for AsTheyAre {
    type Made = Line;

    ghost Seen = { the_line.Line };

    ghost seen = { λ line. line };

    ghost becomes = { λ by line. line };

    fn make(&self, alloc: Global, old: &Line) -> Result<Line, OutOfMemory> {
        old.copy(alloc)
    }
}

impl Become<Ring> for AsTheyAre {
    type Made = Ring;

    ghost Seen = { the_ring.Ring };

    ghost seen = { λ ring. ring };

    ghost becomes = { λ by ring. ring };

    fn make(&self, alloc: Global, old: &Ring) -> Result<Ring, OutOfMemory> {
        old.copy(alloc)
    }
}

fn map_shape(alloc: Global, features: &Features) -> Result<bool, OutOfMemory> {
    match features.feature() {
        Some(feature) => {
            let made: Shape = feature.shape.try_map(alloc, &AsTheyAre, &AsTheyAre)?;
            Ok(made == feature.shape)
        }
        None => Ok(false),
    }
}

fn copy_feature(alloc: Global, features: &Features) -> Result<bool, OutOfMemory> {
    match features.feature() {
        Some(feature) => Ok(feature.copy(alloc)? == *feature),
        None => Ok(false),
    }
}

fn names(features: &Features) -> Result<bool, OutOfMemory> {
    let names = features.map.names()?;
    match names.as_slice() {
        [name] => Ok(name.text() == "a"),
        _ => Ok(false),
    }
}

/// A feature twice.
fn two(alloc: Global, feature: &Feature) -> Result<Vec<Feature>, OutOfMemory> {
    let mut features = Vec::new(alloc);
    features.push(feature.copy(alloc)?)?;
    features.push(feature.copy(alloc)?)?;
    Ok(features)
}

fn is_set(alloc: Global, feature: &Feature) -> Result<bool, OutOfMemory> {
    let set = feature_set(alloc, two(alloc, feature)?)?;
    Ok(set.len() == 1 && set.contains(feature))
}

fn set(alloc: Global, features: &Features) -> Result<bool, OutOfMemory> {
    match features.feature() {
        Some(feature) => is_set(alloc, feature),
        None => Ok(false),
    }
}

/// Tells the calls apart.
#[derive(Clone, Copy)]
enum Call {
    CopyProps,
    ValueText,
    CopyId,
    CopyShape,
    MapShape,
    CopyFeature,
    Names,
    Set,
}

const ROWS: &[Row<Call>] = &[
    ("Props::copy", Call::CopyProps),
    ("Props::value_text", Call::ValueText),
    ("Id::copy", Call::CopyId),
    ("Form::copy, of a shape", Call::CopyShape),
    ("Form::try_map", Call::MapShape),
    ("Feature::copy", Call::CopyFeature),
    ("FeatureMap::names", Call::Names),
    ("shapes::feature_set", Call::Set),
];

impl Lends for Features {
    type Call = Call;

    fn make(alloc: Global) -> Option<Features> {
        Some(Features {
            map: read(alloc, NAMED)?,
        })
    }

    fn answer(&self, alloc: Global, call: Call) -> Result<bool, OutOfMemory> {
        match call {
            Call::CopyProps => copy_props(alloc, self),
            Call::ValueText => value_text(alloc, self),
            Call::CopyId => copy_id(alloc, self),
            Call::CopyShape => copy_shape(alloc, self),
            Call::MapShape => map_shape(alloc, self),
            Call::CopyFeature => copy_feature(alloc, self),
            Call::Names => names(self),
            Call::Set => set(alloc, self),
        }
    }
}

/// Makes each call of features.
pub(crate) fn test(rt: &HostRuntime, tally: &mut Tally) {
    tally.attempt_each::<Features>(rt, "features", ROWS);
}
