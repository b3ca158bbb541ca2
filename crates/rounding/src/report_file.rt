//! The report as JSON.
use crate::back_words::back_words;
use crate::layers::MapLayer;
use crate::next::next_command;
use crate::report::{Report, at_most_u64, in_steps, in_units};
use fixing::{FeatureFixes, Fixes};
use grid::Pos;
use json::Writer;
use rounded_maps::{EqualFeatures, Outcome};
use snapping::nearly_shared::{Clusters, VertexCounts};
use std::alloc::{AllocError, Global};
use std::collections::BTreeMap;

fn write_count(writer: &mut Writer, name: &str, count: u64) -> Result<(), AllocError> {
    writer.key(name)?;
    writer.u64(count)
}

fn write_text(writer: &mut Writer, name: &str, text: &str) -> Result<(), AllocError> {
    writer.key(name)?;
    writer.string(text)
}

/// A position in units of the output.
fn write_position(
    writer: &mut Writer,
    report: &Report<'_, '_>,
    position: Pos,
) -> Result<(), AllocError> {
    let (x, y) = report.in_units_of_output(position);
    writer.begin_array()?;
    writer.i64(x)?;
    writer.i64(y)?;
    writer.end_array()
}

/// How much was fixed, as members.
fn write_fixes(writer: &mut Writer, fixes: Fixes) -> Result<(), AllocError> {
    write_count(writer, "closed", fixes.closed)?;
    write_count(writer, "collapsed", fixes.collapsed)?;
    write_count(writer, "folded", fixes.folded)?;
    write_count(writer, "collections", fixes.collections)?;
    write_count(writer, "lost", fixes.lost)
}

/// The features of which anything was fixed.
fn write_features(writer: &mut Writer, features: &[FeatureFixes]) -> Result<(), AllocError> {
    writer.key("fixed")?;
    writer.begin_array()?;
    for feature in features {
        writer.begin_object()?;
        write_count(writer, "feature", feature.feature as u64)?;
        write_fixes(writer, feature.fixes)?;
        writer.end_object()?;
    }
    writer.end_array()
}

/// The features that equal others.
fn write_equal(writer: &mut Writer, equal: &EqualFeatures) -> Result<(), AllocError> {
    write_count(writer, "equal", equal.features.len() as u64)?;
    writer.key("first_equal")?;
    match equal.features.first() {
        Some(first) => writer.u64(*first as u64),
        None => writer.null(),
    }
}

/// What became of a map's numbers.
fn write_moves(
    alloc: Global,
    writer: &mut Writer,
    outcome: &Outcome,
    report: &Report<'_, '_>,
) -> Result<(), AllocError> {
    write_count(writer, "features", outcome.features as u64)?;
    write_count(writer, "positions", outcome.tally.positions)?;
    write_count(writer, "moved", outcome.tally.moved)?;
    let steps = in_steps(alloc, outcome)?;
    write_text(writer, "furthest_steps", steps.as_str())?;
    let units = in_units(alloc, outcome, report.options)?;
    write_text(writer, "furthest", units.as_str())?;
    write_count(writer, "heights", outcome.tally.heights)?;
    write_count(writer, "reals", outcome.reals)
}

/// The columns of numbers, each with how many texts it has.
fn write_columns(
    writer: &mut Writer,
    numbers: Option<&BTreeMap<String, u64>>,
) -> Result<(), AllocError> {
    writer.key("columns")?;
    writer.begin_object()?;
    let Some(numbers) = numbers else {
        return writer.end_object();
    };
    for (name, count) in numbers {
        write_count(writer, name.as_str(), *count)?;
    }
    writer.end_object()
}

/// What became of a map.
fn write_outcome(
    alloc: Global,
    writer: &mut Writer,
    layer: &MapLayer<'_>,
    outcome: &Outcome,
    equal: Option<&EqualFeatures>,
    report: &Report<'_, '_>,
) -> Result<(), AllocError> {
    writer.begin_object()?;
    write_text(writer, "file", layer.file)?;
    write_text(writer, "name", layer.name)?;
    write_moves(alloc, writer, outcome, report)?;
    write_columns(writer, report.columns.of_map(layer, outcome))?;
    write_fixes(writer, outcome.fixes)?;
    if let Some(equal) = equal {
        write_equal(writer, equal)?;
    }
    write_features(writer, outcome.fixed.as_slice())?;
    writer.end_object()
}

fn write_pairs(
    writer: &mut Writer,
    report: &Report<'_, '_>,
    counts: &VertexCounts,
) -> Result<(), AllocError> {
    write_count(writer, "nearly_shared", at_most_u64(counts.near))?;
    writer.key("first_nearly_shared")?;
    let Some((first, second)) = counts.first else {
        return writer.null();
    };
    writer.begin_array()?;
    write_position(writer, report, first)?;
    write_position(writer, report, second)?;
    writer.end_array()
}

fn write_clusters(
    writer: &mut Writer,
    report: &Report<'_, '_>,
    clusters: &Clusters,
) -> Result<(), AllocError> {
    write_count(writer, "joined", clusters.len() as u64)?;
    write_count(writer, "too_wide", clusters.wide() as u64)?;
    writer.key("first_too_wide")?;
    match clusters.first_wide() {
        Some(first) => write_position(writer, report, first),
        None => writer.null(),
    }
}

/// The vertices of all files.
fn write_vertices(writer: &mut Writer, report: &Report<'_, '_>) -> Result<(), AllocError> {
    let rounded = report.rounded;
    if let Some(counts) = &rounded.counts {
        write_count(writer, "shared", counts.shared as u64)?;
    }
    if let Some(clusters) = &rounded.clusters {
        write_clusters(writer, report, clusters)?;
    }
    match &rounded.counts {
        Some(counts) => write_pairs(writer, report, counts),
        None => Ok(()),
    }
}

/// The command to go on with, where files were written.
fn write_next(
    alloc: Global,
    writer: &mut Writer,
    report: &Report<'_, '_>,
) -> Result<(), AllocError> {
    let Some(next) = next_command(alloc, report)? else {
        return Ok(());
    };
    match simdutf8::compat::from_utf8(next.as_slice()) {
        Ok(text) => write_text(writer, "next", text),
        Err(_) => Ok(()),
    }
}

fn write_files(
    alloc: Global,
    writer: &mut Writer,
    report: &Report<'_, '_>,
) -> Result<(), AllocError> {
    writer.key("files")?;
    writer.begin_array()?;
    let outcomes = report.rounded.outcomes.iter().enumerate();
    for (layer, (map, outcome)) in report.layers.iter().zip(outcomes) {
        write_outcome(alloc, writer, layer, outcome, report.equal(map), report)?;
    }
    writer.end_array()
}

fn write_texts(writer: &mut Writer, name: &str, texts: &[&str]) -> Result<(), AllocError> {
    writer.key(name)?;
    writer.begin_array()?;
    for text in texts {
        writer.string(*text)?;
    }
    writer.end_array()
}

/// The files without a map, where there are any.
fn write_without_maps(writer: &mut Writer, report: &Report<'_, '_>) -> Result<(), AllocError> {
    if report.without_maps.is_empty() {
        return Ok(());
    }
    write_texts(writer, "without_objects", report.without_maps)
}

/// The properties that the words scale and no feature has, where they scale any.
fn write_absent(writer: &mut Writer, report: &Report<'_, '_>) -> Result<(), AllocError> {
    if report.options.scales.is_empty() {
        return Ok(());
    }
    write_texts(writer, "absent", report.absent)
}

/// The words of the way back.
fn write_back(
    alloc: Global,
    writer: &mut Writer,
    report: &Report<'_, '_>,
) -> Result<(), AllocError> {
    let Ok(words) = back_words(alloc, report) else {
        return Err(AllocError);
    };
    writer.key("back")?;
    writer.begin_array()?;
    for word in &words {
        writer.string(word.as_str())?;
    }
    writer.end_array()
}

/// The report as a JSON text, with a line's end.
pub fn report_text(alloc: Global, report: &Report<'_, '_>) -> Result<Vec<u8>, AllocError> {
    let mut writer = Writer::new(Vec::new(alloc));
    writer.begin_object()?;
    write_text(&mut writer, "step", report.options.step_word)?;
    write_files(alloc, &mut writer, report)?;
    write_without_maps(&mut writer, report)?;
    write_absent(&mut writer, report)?;
    write_vertices(&mut writer, report)?;
    write_next(alloc, &mut writer, report)?;
    write_back(alloc, &mut writer, report)?;
    writer.end_object()?;
    let mut text = writer.into_inner();
    if text.push(b'\n').is_err() {
        return Err(AllocError);
    }
    Ok(text)
}
