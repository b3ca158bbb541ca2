//! All errors of files, with their lines and columns.
use crate::printing::Printed;
use crate::remedies::without_mark;
use command_line::files::{Files, read_all};
use command_line::refusal::Refusal;
use command_line::status::Status;
use decimal_topologies::{is_topology, topology_faults};
use fault_reports::{FaultReport, Format, LineColumn, reports};
use faults::{Fault, FaultKind, OutOfMemory};
use itoa::Buffer;
use json::{Error, Scratch, Value};
use rounded_maps::{RoundingRules, text_faults, texts_of};
use rounding::naming::is_sequence;
use rounding::options::GridOptions;
use sinks::Sink;
use std::alloc::{AllocError, Global};

/// The errors of a text of a sequence that the rules don't fix, and what is reported of each.
fn text_reports(
    alloc: Global,
    rules: &RoundingRules<'_>,
    text: &[u8],
) -> Result<Vec<FaultReport>, OutOfMemory> {
    let faults = text_faults(alloc, text, rules)?;
    reports(alloc, Format::GeoJson, text, faults)
}

/// The errors of a text that is a topology, if it is one.
fn faults_of_topology(
    alloc: Global,
    rules: &RoundingRules<'_>,
    text: &[u8],
) -> Result<Option<Vec<Fault>>, OutOfMemory> {
    let mut scratch = Scratch::new(alloc);
    match Value::from_slice(alloc, text, &mut scratch) {
        Ok(value) => if is_topology(&value) {
            let topology = rules.topology();
            // Kit 13f proves a function that owns rules only where it names a place inside each of them.
            let _attributes = &topology.map.attributes;
            Ok(Some(topology_faults(alloc, &topology, &rules.fixing, &value)?))
        } else {
            Ok(None)
        },
        Err(Error::Invalid) => Ok(None),
        Err(_) => Err(OutOfMemory),
    }
}

/// What is reported of the errors of a file that is one text, GeoJSON or a topology.
fn file_reports(
    alloc: Global,
    rules: &RoundingRules<'_>,
    text: &[u8],
) -> Result<Vec<FaultReport>, OutOfMemory> {
    let faults = text_faults(alloc, text, rules)?;
    if faults.is_empty() {
        return Ok(Vec::new(alloc));
    }
    match faults_of_topology(alloc, rules, text)? {
        Some(faults) => reports(alloc, Format::Topology, text, faults),
        None => reports(alloc, Format::GeoJson, text, faults),
    }
}

/// What is left of a file, and the place where that begins.
#[derive(Drop)]
struct Rest<'t> {
    bytes: &'t [u8],
    place: LineColumn,
}

/// Whether a byte may be before a text of a sequence: a blank, or a record separator.
fn is_between(byte: u8) -> bool {
    matches!(byte, b' ' | b'\t' | b'\n' | b'\r' | 30)
}

/// How many bytes are before a text of a sequence.
fn count_between(bytes: &[u8]) -> usize {
    bytes
        .iter()
        .position(|byte| !is_between(*byte))
        .unwrap_or(bytes.len())
}

impl<'t> Rest<'t> {
    /// Passes some bytes.
    fn pass(&mut self, count: usize) {
        let (passed, rest) = self.bytes.split_at(count.min(self.bytes.len()));
        for byte in passed {
            match *byte {
                b'\n' => {
                    self.place.line = self.place.line.saturating_add(1);
                    self.place.column = 1;
                }
                0x80..=0xbf => {}
                _ => self.place.column = self.place.column.saturating_add(1),
            }
        }
        self.bytes = rest;
    }
}

/// A place of a text that begins at `start`, as a place of its file.
fn place_in_file(place: LineColumn, start: LineColumn) -> LineColumn {
    let column = if place.line == 1 {
        place.column.saturating_add(start.column.saturating_sub(1))
    } else {
        place.column
    };
    let line = place.line.saturating_add(start.line.saturating_sub(1));
    LineColumn { line, column }
}

/// A path as JSON below the index of a text.
fn path_below(alloc: Global, path: &str, number: usize) -> Result<String, AllocError> {
    let mut below = String::from_str(alloc, "\"$/")?;
    below.push_str(Buffer::new().format(number))?;
    below.push_str(path.strip_prefix("\"$").unwrap_or(path))?;
    Ok(below)
}

/// What is reported of an error of the text of this number that begins at `start`.
fn report_in_file(
    alloc: Global,
    report: FaultReport,
    number: usize,
    start: LineColumn,
) -> Result<FaultReport, OutOfMemory> {
    let path = path_below(alloc, report.path.as_str(), number)?;
    let fault = report.fault.under_index(number);
    if fault.kind == FaultKind::OutOfMemory {
        return Err(OutOfMemory);
    }
    Ok(FaultReport {
        fault,
        place: place_in_file(report.place, start),
        path,
        id: report.id,
        member: report.member,
    })
}

/// Adds what is reported of the errors of the text of this number that begins at `start`.
fn add_reports(
    alloc: Global,
    all: &mut Vec<FaultReport>,
    reports: Vec<FaultReport>,
    number: usize,
    start: LineColumn,
) -> Result<(), OutOfMemory> {
    for report in reports {
        all.push(report_in_file(alloc, report, number, start)?)?;
    }
    Ok(())
}

/// What is reported of the errors of a sequence.
fn sequence_reports(
    alloc: Global,
    rules: &RoundingRules<'_>,
    bytes: &[u8],
) -> Result<Vec<FaultReport>, OutOfMemory> {
    let mut all = Vec::new(alloc);
    let mut rest = Rest {
        bytes,
        place: LineColumn::first(),
    };
    for (number, text) in texts_of(alloc, bytes, true)?.iter().enumerate() {
        let text = text.get(count_between(*text)..).unwrap_or(*text);
        let between = count_between(rest.bytes);
        rest.pass(between);
        add_reports(
            alloc,
            &mut all,
            text_reports(alloc, rules, text)?,
            number,
            rest.place,
        )?;
        rest.pass(text.len());
    }
    Ok(all)
}

/// The errors of a file that the options don't fix, and what is reported of each.
fn reports_of(
    alloc: Global,
    options: &GridOptions<'_>,
    file: &str,
    bytes: &[u8],
) -> Result<Vec<FaultReport>, OutOfMemory> {
    let rules = options.rounding();
    // Kit 13f proves a function that owns rules only where it names a place inside each of them.
    let (_attributes, _layer) = (&rules.map.attributes, &rules.layer);
    let text = without_mark(alloc, bytes)?;
    if options.is_sequence || is_sequence(file) {
        sequence_reports(alloc, &rules, text)
    } else {
        file_reports(alloc, &rules, text)
    }
}

/// The errors of all files.
fn all_reports<'a, F: Files>(
    alloc: Global,
    options: &GridOptions<'a>,
    names: &[&'a str],
    files: &mut F,
) -> Result<Vec<Vec<FaultReport>>, Refusal<'a>> {
    let texts = read_all(alloc, files, names)?;
    let mut all = Vec::with_capacity(alloc, texts.len())?;
    for (text, name) in texts.iter().zip(names) {
        all.push(reports_of(alloc, options, *name, text.as_slice())?)?;
    }
    Ok(all)
}

/// Prints all errors of files that the options don't fix, a line each. The status says whether there are any.
pub(crate) fn print_faults<'a, F: Files, O: Sink>(
    alloc: Global,
    options: &GridOptions<'a>,
    names: &[&'a str],
    files: &mut F,
    out: &mut O,
) -> Result<Status, Refusal<'a>> {
    let all = all_reports(alloc, options, names, files)?;
    Printed::Faults(names, all.as_slice()).print(alloc, options.output, files, out)?;
    if all.iter().any(|reports| !reports.is_empty()) {
        Ok(Status::Refused)
    } else {
        Ok(Status::Done)
    }
}
