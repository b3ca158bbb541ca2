//! Writing fixed features as a GeoJSON FeatureCollection (RFC 7946, section 3.3), piece by piece and with no memory.
ghost use Rattle.rounded_maps.specs.Written.{feature_text, feature_texts, is_after, map_text, text_behind, texts_behind};
ghost use Rattle.sinks.specs.Writes.{TookAll, TookPart};
ghost use Rattle.std.specs.Prelude.{◌≡◌, IfOk, OnErr, OnOk, false, map};
ghost use Rattle.theory.specs.Lists.{gathered};

use crate::map::RoundedFeature;
use faults::OutOfMemory;
use fixing::FixedFeature;
use geojson_io::writer::{FeatureOf, ShapesOn};
use grid::Grid;
use shapes::Shape;
use sinks::written::{Noted, Text, Then, Written};
use sinks::{Kept, Sink, WriteFault};
use std::alloc::Global;

/// Writes a feature of a shape, behind a comma where others are before it.
fn write_feature<W: Sink>(
    feature: &FixedFeature,
    shape: &Shape,
    grid: &Grid,
    is_behind: bool,
    sink: &mut W,
) -> Result<(), WriteFault>
    ensures whole { OnOk result (TookAll (W.seen sink.old) (W.seen sink.new) (text_behind is_behind (feature_text grid.now feature.now shape.now))) }
    ensures part { OnErr result (TookPart (W.seen sink.old) (W.seen sink.new) (text_behind is_behind (feature_text grid.now feature.now shape.now))) }
{
    let written = FeatureOf {
        id: &feature.id,
        props: &feature.props,
        geometry: Noted(shape, &ShapesOn(grid)),
    };
    if is_behind {
        Then(Text(b","), written).write(sink)
    } else {
        written.write(sink)
    }
}

/// Writes a feature for each shape that is left of one, and answers whether any is before what comes next.
fn write_shapes<W: Sink>(
    feature: &FixedFeature,
    grid: &Grid,
    is_behind: bool,
    sink: &mut W,
) -> Result<bool, WriteFault>
    ensures next { IfOk result (λ next. next ≡ is_after is_behind (map (feature_text grid.now feature.now) feature.now.shapes.items)) }
    ensures whole { OnOk result (TookAll (W.seen sink.old) (W.seen sink.new) (texts_behind is_behind (map (feature_text grid.now feature.now) feature.now.shapes.items))) }
    ensures part { OnErr result (TookPart (W.seen sink.old) (W.seen sink.new) (texts_behind is_behind (map (feature_text grid.now feature.now) feature.now.shapes.items))) }
{
    let mut is_behind = is_behind;
    let mut left = feature.shapes.as_slice();
    while let Some((shape, after)) = left.split_first() {
        match write_feature(feature, shape, grid, is_behind, sink) {
            Ok(()) => left = after,
            Err(fault) => return Err(fault),
        }
        is_behind = true;
    }
    Ok(is_behind)
}

/// Writes the features, with commas between them.
fn write_features<W: Sink>(
    features: &[RoundedFeature],
    grid: &Grid,
    sink: &mut W,
) -> Result<(), WriteFault>
    ensures whole { OnOk result (TookAll (W.seen sink.old) (W.seen sink.new) (texts_behind false (gathered (feature_texts grid.now) features.now))) }
    ensures part { OnErr result (TookPart (W.seen sink.old) (W.seen sink.new) (texts_behind false (gathered (feature_texts grid.now) features.now))) }
{
    let mut is_behind = false;
    let mut left = features;
    while let Some((feature, after)) = left.split_first() {
        match write_shapes(&feature.feature, grid, is_behind, sink) {
            Ok(next) => is_behind = next,
            Err(fault) => return Err(fault),
        }
        left = after;
    }
    Ok(())
}

/// The features of a map, with commas between them.
#[derive(Clone, Copy)]
struct MapFeatures<'a>(&'a [RoundedFeature], &'a Grid);

impl<'a> Written for MapFeatures<'a> {
    ghost text = { λ m. texts_behind false (gathered (feature_texts m.1.now) m.0.now) };

    fn write<W: Sink>(&self, sink: &mut W) -> Result<(), WriteFault> {
        write_features(self.0, self.1, sink)
    }
}

/// Writes the features of a map as a FeatureCollection, in their order: one for each shape that is left of a feature. Positions
/// are the absolute numbers that the grid gives them.
///
/// # Errors
/// `Write` where the sink failed; it then took a beginning of the text.
pub fn write_collection<W: Sink>(
    features: &[RoundedFeature],
    grid: &Grid,
    sink: &mut W,
) -> Result<(), WriteFault>
    ensures whole { OnOk result (TookAll (W.seen sink.old) (W.seen sink.new) (map_text grid.now features.now)) }
    ensures part { OnErr result (TookPart (W.seen sink.old) (W.seen sink.new) (map_text grid.now features.now)) }
{
    let written = MapFeatures(features, grid);
    let tail = Then(written, Text(b"],\"type\":\"FeatureCollection\"}"));
    Then(Text(b"{\"features\":["), tail).write(sink)
}

/// The text of the features of a map as a FeatureCollection. Positions are the absolute numbers that the grid gives them.
pub fn collection_text(
    alloc: Global,
    features: &[RoundedFeature],
    grid: &Grid,
) -> Result<Vec<u8>, OutOfMemory>
    ensures { IfOk result (λ t. t.items ≡ map_text grid.now features.now) }
{
    let mut kept = Kept::new(alloc);
    match write_collection(features, grid, &mut kept) {
        Ok(()) => Ok(kept.into_bytes()),
        Err(_) => Err(OutOfMemory),
    }
}
