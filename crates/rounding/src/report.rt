//! The report on standard error.
use crate::back_words::put_back;
use crate::columns::PrintedColumns;
use crate::layers::MapLayer;
use crate::next::next_command;
use crate::options::GridOptions;
use command_line::refusal::put_words;
use faults::OutOfMemory;
use fixing::Fixes;
use grid::Pos;
use itoa::Buffer;
use numerals::Decimal;
use rounded_maps::{EqualFeatures, Outcome, Rounded};
use sinks::{Kept, Sink, WriteFault, put};
use snapping::nearly_shared::{Clusters, VertexCounts};
use std::alloc::{AllocError, AllocFailed, Global};
use std::collections::BTreeMap;

/// What is reported.
#[derive(Clone, Copy)]
pub struct Report<'r, 'a> {
    pub options: &'r GridOptions<'a>,
    /// The layer and the file of each map.
    pub layers: &'r [MapLayer<'r>],
    pub rounded: &'r Rounded,
    /// The files that no map is from.
    pub without_maps: &'r [&'r str],
    /// The columns of numbers that are printed.
    pub columns: &'r PrintedColumns,
    /// The properties that the words scale and no feature has.
    pub absent: &'r [&'a str],
}

impl<'r, 'a> Report<'r, 'a> {
    /// The features of a map that equal others, where that was asked.
    pub(crate) fn equal(&self, map: usize) -> Option<&'r EqualFeatures> {
        match &self.rounded.equal {
            Some(equal) => equal.get(map),
            None => None,
        }
    }

    /// A position in units of the output.
    pub(crate) fn in_units_of_output(&self, position: Pos) -> (i64, i64) {
        let units = i64::try_from(self.options.units).unwrap_or(1);
        let x = position.x().saturating_mul(units);
        (x, position.y().saturating_mul(units))
    }
}

/// There is no memory for a line: those are kept in memory, where nothing else fails.
#[derive(Drop)]
pub(crate) struct LineFault;

impl From<OutOfMemory> for LineFault {
    fn from(_fault: OutOfMemory) -> LineFault {
        LineFault
    }
}

impl<T: Drop> From<AllocFailed<T>> for LineFault {
    fn from(_failed: AllocFailed<T>) -> LineFault {
        LineFault
    }
}

impl From<AllocError> for LineFault {
    fn from(_fault: AllocError) -> LineFault {
        LineFault
    }
}

impl From<WriteFault> for LineFault {
    fn from(_fault: WriteFault) -> LineFault {
        LineFault
    }
}

/// A count, or the greatest of 64 bits where it is more.
pub(crate) fn at_most_u64(count: u128) -> u64 {
    u64::try_from(count).unwrap_or(u64::MAX)
}

fn put_count<E: Sink>(err: &mut E, count: u64, of: &str) -> Result<(), WriteFault> {
    put(err, Buffer::new().format(count).as_bytes())?;
    put_words(err, " ", of)
}

/// A count that is not 0, on a line of its own.
fn put_some<E: Sink>(err: &mut E, count: u64, of: &str) -> Result<(), WriteFault> {
    if count == 0 {
        return Ok(());
    }
    put(err, b"  ")?;
    put_count(err, count, of)?;
    put(err, b"\n")
}

/// The text of a distance, empty where it has too many digits.
fn text_of(alloc: Global, distance: Option<Decimal>) -> Result<String, AllocError> {
    match distance {
        Some(distance) => distance.to_text(alloc),
        None => Ok(String::new(alloc)),
    }
}

/// How far positions were moved at most, in steps: `0.4999`. It is measured in ten-thousandths of a step.
pub(crate) fn in_steps(alloc: Global, outcome: &Outcome) -> Result<String, AllocError> {
    text_of(alloc, Decimal::new(i128::from(outcome.tally.furthest), 4))
}

/// How far positions were moved at most, in the unit of the map; empty where it has too many digits.
pub(crate) fn in_units(
    alloc: Global,
    outcome: &Outcome,
    options: &GridOptions<'_>,
) -> Result<String, AllocError> {
    let steps = i64::try_from(outcome.tally.furthest).unwrap_or(i64::MAX);
    let distance = match Decimal::of_steps(steps, &options.step) {
        Some(distance) => distance.over_power(4),
        None => None,
    };
    text_of(alloc, distance)
}

/// How many positions were moved, and how far: `7446 positions moved, by at most 0.4999 steps (0.0000004999)`.
fn put_moves(
    alloc: Global,
    lines: &mut Kept,
    outcome: &Outcome,
    options: &GridOptions<'_>,
) -> Result<(), LineFault> {
    if outcome.tally.moved == 0 {
        return Ok(());
    }
    let steps = in_steps(alloc, outcome)?;
    let units = in_units(alloc, outcome, options)?;
    put(lines, b"  ")?;
    put_count(lines, outcome.tally.moved, "positions moved, by at most ")?;
    put_words(lines, steps.as_str(), " steps")?;
    if !units.as_str().is_empty() {
        put_words(lines, " (", units.as_str())?;
        put(lines, b")")?;
    }
    Ok(put(lines, b"\n")?)
}

/// A kind of what is fixed.
#[derive(Clone, Copy)]
enum FixKind {
    Closed,
    Collapsed,
    Folded,
    Collections,
    Lost,
}

impl FixKind {
    fn count_of(self, fixes: Fixes) -> u64 {
        match self {
            FixKind::Closed => fixes.closed,
            FixKind::Collapsed => fixes.collapsed,
            FixKind::Folded => fixes.folded,
            FixKind::Collections => fixes.collections,
            FixKind::Lost => fixes.lost,
        }
    }

    fn words(self) -> &'static str {
        match self {
            FixKind::Closed => "rings closed",
            FixKind::Collapsed => "lines or rings collapsed",
            FixKind::Folded => "lines or rings folded, and split",
            FixKind::Collections => "collections split",
            FixKind::Lost => "features without a shape left",
        }
    }
}

/// How much of a kind was fixed, with the first feature of which it was.
fn put_fixed<E: Sink>(err: &mut E, outcome: &Outcome, kind: FixKind) -> Result<(), WriteFault> {
    let count = kind.count_of(outcome.fixes);
    if count == 0 {
        return Ok(());
    }
    put(err, b"  ")?;
    put_count(err, count, kind.words())?;
    for feature in outcome.fixed.as_slice() {
        if kind.count_of(feature.fixes) > 0 {
            put(err, b", the first in feature ")?;
            put(err, Buffer::new().format(feature.feature as u64).as_bytes())?;
            break;
        }
    }
    put(err, b"\n")
}

/// How many features equal others, and the first that does.
fn put_equal<E: Sink>(err: &mut E, equal: &EqualFeatures) -> Result<(), WriteFault> {
    let Some(first) = equal.features.first() else {
        return Ok(());
    };
    put(err, b"  ")?;
    put_count(
        err,
        equal.features.len() as u64,
        "features equal to others, the first is feature ",
    )?;
    put(err, Buffer::new().format(*first as u64).as_bytes())?;
    put(err, b"\n")
}

/// The file of a map, and the layer where the text names it.
fn put_origin<E: Sink>(err: &mut E, layer: &MapLayer<'_>) -> Result<(), WriteFault> {
    put(err, layer.file.as_bytes())?;
    if layer.is_named_by_text {
        put_words(err, ", layer ", layer.name)?;
    }
    put(err, b": ")
}

/// The columns of numbers, each with how many texts it has.
fn put_columns<E: Sink>(err: &mut E, numbers: &BTreeMap<String, u64>) -> Result<(), WriteFault> {
    for (name, count) in numbers {
        put(err, b"  ")?;
        put_count(err, *count, "texts in column ")?;
        put_words(err, name.as_str(), "\n")?;
    }
    Ok(())
}

/// What became of a map: `provinces.geojson: 13 features, 7458 positions, step 0.000001`, how far positions were moved,
/// and what was closed, lost or split.
fn put_outcome(
    alloc: Global,
    lines: &mut Kept,
    layer: &MapLayer<'_>,
    outcome: &Outcome,
    report: &Report<'_, '_>,
) -> Result<(), LineFault> {
    let options = report.options;
    put_origin(lines, layer)?;
    put_count(lines, outcome.features as u64, "features, ")?;
    put_count(lines, outcome.tally.positions, "positions, step ")?;
    put_words(lines, options.step_word, "\n")?;
    put_moves(alloc, lines, outcome, options)?;
    put_some(lines, outcome.tally.heights, "heights dropped")?;
    put_some(lines, outcome.reals, "numbers made texts")?;
    if let Some(numbers) = report.columns.of_map(layer, outcome) {
        put_columns(lines, numbers)?;
    }
    for kind in [
        FixKind::Closed,
        FixKind::Collapsed,
        FixKind::Folded,
        FixKind::Collections,
        FixKind::Lost,
    ] {
        put_fixed(lines, outcome, kind)?;
    }
    Ok(())
}

fn put_number<E: Sink>(err: &mut E, number: i64) -> Result<(), WriteFault> {
    put(err, Buffer::new().format(number).as_bytes())
}

/// A position in units of the output.
fn put_position<E: Sink>(
    err: &mut E,
    report: &Report<'_, '_>,
    position: Pos,
) -> Result<(), WriteFault> {
    let (x, y) = report.in_units_of_output(position);
    put_number(err, x)?;
    put(err, b",")?;
    put_number(err, y)
}

/// What was joined, and what was not.
fn put_clusters<E: Sink>(
    err: &mut E,
    report: &Report<'_, '_>,
    clusters: &Clusters,
) -> Result<(), WriteFault> {
    put_count(err, clusters.len() as u64, "vertices joined to others\n")?;
    let Some(first) = clusters.first_wide() else {
        return Ok(());
    };
    put_count(
        err,
        clusters.wide() as u64,
        "clusters too wide to be joined, the first at ",
    )?;
    put_position(err, report, first)?;
    put(err, b"\n")
}

/// The pairs of nearly shared vertices of all files, with the first: `279 nearly shared vertices, the first at
/// 7413821,46998713 and 7413822,46998713`.
fn put_pairs<E: Sink>(
    err: &mut E,
    report: &Report<'_, '_>,
    counts: &VertexCounts,
) -> Result<(), WriteFault> {
    let Some((first, second)) = counts.first else {
        return Ok(());
    };
    put_count(
        err,
        at_most_u64(counts.near),
        "nearly shared vertices, the first at ",
    )?;
    put_position(err, report, first)?;
    put(err, b" and ")?;
    put_position(err, report, second)?;
    put(err, b"\n")
}

/// The vertices of all files.
fn put_vertices<E: Sink>(err: &mut E, report: &Report<'_, '_>) -> Result<(), WriteFault> {
    let rounded = report.rounded;
    if let Some(counts) = &rounded.counts {
        if counts.shared > 0 {
            put_count(err, counts.shared as u64, "vertices shared\n")?;
        }
    }
    if let Some(clusters) = &rounded.clusters {
        put_clusters(err, report, clusters)?;
    }
    match &rounded.counts {
        Some(counts) => put_pairs(err, report, counts),
        None => Ok(()),
    }
}

/// What became of each map.
fn put_outcomes(alloc: Global, report: &Report<'_, '_>, lines: &mut Kept) -> Result<(), LineFault> {
    let outcomes = report.rounded.outcomes.iter().enumerate();
    for (layer, (map, outcome)) in report.layers.iter().zip(outcomes) {
        put_outcome(alloc, lines, layer, outcome, report)?;
        if let Some(equal) = report.equal(map) {
            put_equal(lines, equal)?;
        }
    }
    Ok(())
}

/// The files without a map, of which a folder gets none.
fn put_without_maps<E: Sink>(err: &mut E, report: &Report<'_, '_>) -> Result<(), WriteFault> {
    let end = if report.options.target.is_folder() {
        ": no objects, so no file is written\n"
    } else {
        ": no objects\n"
    };
    for file in report.without_maps {
        put_words(err, *file, end)?;
    }
    Ok(())
}

/// The properties that the words scale and no feature has.
fn put_absent<E: Sink>(err: &mut E, report: &Report<'_, '_>) -> Result<(), WriteFault> {
    for property in report.absent {
        put_words(
            err,
            "no feature has the property of --reals scale:",
            *property,
        )?;
        put(err, b"\n")?;
    }
    Ok(())
}

fn put_lines(alloc: Global, report: &Report<'_, '_>, lines: &mut Kept) -> Result<(), LineFault> {
    put_outcomes(alloc, report, lines)?;
    put_without_maps(lines, report)?;
    put_absent(lines, report)?;
    put_vertices(lines, report)?;
    if let Some(next) = next_command(alloc, report)? {
        put(lines, b"next: ")?;
        put(lines, next.as_slice())?;
        put(lines, b"\n")?;
    }
    put_back(alloc, lines, report)
}

/// The lines of the report.
pub fn report_lines(alloc: Global, report: &Report<'_, '_>) -> Result<Vec<u8>, AllocError> {
    let mut lines = Kept::new(alloc);
    match put_lines(alloc, report, &mut lines) {
        Ok(()) => Ok(lines.into_bytes()),
        Err(LineFault) => Err(AllocError),
    }
}
