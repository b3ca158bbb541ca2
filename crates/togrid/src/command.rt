//! The whole command, over files and sinks that are passed in.
use crate::all_faults::print_faults;
use crate::back::write_back;
use crate::back_options::back_options_of;
use crate::remedies::{refuse_text, remedies_of};
use crate::rounding_result::RoundingResult;
use clap::ArgMatches;
use command_line::ending::{explain, refuse};
use command_line::files::{Files, input_once, read_all};
use command_line::output::write_output;
use command_line::refusal::{Refusal, Remedy};
use command_line::status::Status;
use command_line::togrid::parse;
use rounded_maps::{MapsFault, Rounded, Source};
use rounding::checks::{check_layers, check_outputs};
use rounding::layers::{MapLayer, files_without_maps, layers_of};
use rounding::naming::{NamedFile, files_of, is_sequence, names_of, sources_of};
use rounding::options::{GridOptions, options_of};
use rounding::report::{Report, report_lines};
use rounding::report_file::report_text;
use sinks::{Sink, put};
use std::alloc::{AllocError, Global};

/// How lines on standard error begin.
const PROGRAM: &str = "togrid";

/// Runs the command that the words ask for, of which the first is the program's name, and answers the exit
/// status. From 2 on `err` is given a line that says why. Where an input is refused nothing is written but that
/// line.
pub fn run<F: Files, O: Sink, E: Sink>(
    alloc: Global,
    words: &[String],
    files: &mut F,
    out: &mut O,
    err: &mut E,
) -> u8 {
    let status = match parse(alloc, words) {
        Ok(matches) => match perform(alloc, &matches, files, out, err) {
            Ok(status) => status,
            Err(refusal) => refuse(PROGRAM, &refusal, err),
        },
        Err(error) => explain(alloc, PROGRAM, &error, out, err),
    };
    status.number()
}

fn perform<'a, F: Files, O: Sink, E: Sink>(
    alloc: Global,
    found: &ArgMatches<'a>,
    files: &mut F,
    out: &mut O,
    err: &mut E,
) -> Result<Status, Refusal<'a>> {
    let sources = sources_of(alloc, found.get_strs("[NAME=]FILE").unwrap_or(&[]))?;
    let read = files_of(alloc, sources.as_slice())?;
    input_once(read.as_slice())?;
    if found.get_flag("back") {
        let options = back_options_of(alloc, found)?;
        return write_back(alloc, &options, read.as_slice(), files, out);
    }
    let options = options_of(alloc, found, sources.len())?;
    if found.get_flag("faults") {
        return print_faults(alloc, &options, read.as_slice(), files, out);
    }
    check_outputs(alloc, &options, sources.as_slice())?;
    round(alloc, &options, sources.as_slice(), files, out, err)
}

/// Rounds the files, writes what becomes of them, and reports.
fn round<'a, F: Files, O: Sink, E: Sink>(
    alloc: Global,
    options: &GridOptions<'a>,
    sources: &[NamedFile<'a>],
    files: &mut F,
    out: &mut O,
    err: &mut E,
) -> Result<Status, Refusal<'a>> {
    let texts = read_all(alloc, files, files_of(alloc, sources)?.as_slice())?;
    let (made, rounded) = make(alloc, options, sources, texts)?;
    // A refusal may name a layer of a text, so it is written while that name is there.
    match finish(alloc, options, sources, &made, &rounded, files, out, err) {
        Ok(status) => Ok(status),
        Err(refusal) => Ok(refuse(PROGRAM, &refusal, err)),
    }
}

/// Writes what was made, and reports.
fn finish<'m, F: Files, O: Sink, E: Sink>(
    alloc: Global,
    options: &GridOptions<'m>,
    sources: &[NamedFile<'m>],
    made: &RoundingResult,
    rounded: &'m Rounded,
    files: &mut F,
    out: &mut O,
    err: &mut E,
) -> Result<Status, Refusal<'m>> {
    let layers = layers_of(alloc, sources, rounded)?;
    check_layers(alloc, options, layers.as_slice())?;
    let reports = Reports::of(alloc, options, sources, made, layers.as_slice(), rounded)?;
    if !options.target.is_standard() {
        made.print(alloc, options, layers.as_slice(), files, out)?;
    }
    if let Some(file) = options.report {
        write_output(alloc, files, out, Some(file), reports.json.as_slice())?;
    }
    let _ = put(err, reports.lines.as_slice());
    if options.target.is_standard() {
        made.print(alloc, options, layers.as_slice(), files, out)?;
    }
    Ok(status_of(options, rounded))
}

/// What is reported. It is made before anything is written.
#[derive(Drop)]
struct Reports {
    /// The lines on standard error.
    lines: Vec<u8>,
    json: Vec<u8>,
}

impl Reports {
    /// What is reported, as the options ask for it.
    fn write(alloc: Global, report: &Report<'_, '_>) -> Result<Reports, AllocError> {
        let options = report.options;
        let lines = if options.is_quiet {
            Vec::new(alloc)
        } else {
            report_lines(alloc, report)?
        };
        let json = if options.report.is_some() {
            report_text(alloc, report)?
        } else {
            Vec::new(alloc)
        };
        Ok(Reports { lines, json })
    }

    /// What is reported of what was made of files.
    fn of<'m>(
        alloc: Global,
        options: &GridOptions<'m>,
        sources: &[NamedFile<'m>],
        made: &RoundingResult,
        layers: &[MapLayer<'m>],
        rounded: &'m Rounded,
    ) -> Result<Reports, Refusal<'m>> {
        let absent = made.absent(alloc, options)?;
        let columns = made.columns(alloc, options, layers, rounded)?;
        let without_maps = files_without_maps(alloc, sources, rounded)?;
        let report = Report {
            options,
            layers,
            rounded,
            without_maps: without_maps.as_slice(),
            columns: &columns,
            absent: absent.as_slice(),
        };
        Ok(Reports::write(alloc, &report)?)
    }
}

/// The texts of files, each one text or a sequence.
fn with_kinds(
    alloc: Global,
    options: &GridOptions<'_>,
    sources: &[NamedFile<'_>],
    texts: Vec<Vec<u8>>,
) -> Result<Vec<Source<Vec<u8>>>, AllocError> {
    let mut files = Vec::with_capacity(alloc, texts.len())?;
    for (bytes, source) in texts.into_iter().zip(sources) {
        files.push(Source {
            bytes,
            is_sequence: options.is_sequence || is_sequence(source.file),
            is_named: source.is_named,
        })?;
    }
    Ok(files)
}

/// What the options ask for, made of the texts of files.
fn make<'a>(
    alloc: Global,
    options: &GridOptions<'a>,
    sources: &[NamedFile<'a>],
    texts: Vec<Vec<u8>>,
) -> Result<(RoundingResult, Rounded), Refusal<'a>> {
    let remedies = remedies_of(alloc, texts.as_slice())?;
    let names = names_of(alloc, sources)?;
    let files = with_kinds(alloc, options, sources, texts)?;
    match made_of(alloc, options, names.as_slice(), files) {
        Ok(made) => Ok(made),
        Err(fault) => Err(refusal(options, sources, remedies.as_slice(), fault)),
    }
}

/// What is printed, or why the files are refused.
fn made_of(
    alloc: Global,
    options: &GridOptions<'_>,
    names: &[&str],
    files: Vec<Source<Vec<u8>>>,
) -> Result<(RoundingResult, Rounded), MapsFault> {
    if options.is_build {
        let (topology, rounded) = options.build(alloc, names, files)?;
        return Ok((RoundingResult::Topology(topology), rounded));
    }
    let (maps, rounded) = options.round(alloc, names, files)?;
    Ok((RoundingResult::Maps(maps), rounded))
}

/// The refusal of the files.
fn refusal<'a>(
    options: &GridOptions<'a>,
    sources: &[NamedFile<'a>],
    remedies: &[Option<Remedy>],
    fault: MapsFault,
) -> Refusal<'a> {
    match fault {
        MapsFault::Text(place, fault) => {
            let file = match sources.get(place) {
                Some(source) => source.file,
                None => "",
            };
            let remedy = remedies.get(place).copied().unwrap_or(None);
            refuse_text(file, fault, remedy, options.is_step_given)
        }
        MapsFault::OutOfMemory => Refusal::OutOfMemory,
    }
}

/// Whether something was lost, split or nearly shared, where that is asked.
fn status_of(options: &GridOptions<'_>, rounded: &Rounded) -> Status {
    if options.is_strict && is_lossy(rounded) {
        Status::Lost
    } else {
        Status::Done
    }
}

/// Whether anything was lost, closed or split, or is nearly shared or there twice.
fn is_lossy(rounded: &Rounded) -> bool {
    let is_near = match &rounded.counts {
        Some(counts) => counts.near > 0,
        None => false,
    };
    let is_double = match &rounded.equal {
        Some(equal) => equal.iter().any(|equal| !equal.features.is_empty()),
        None => false,
    };
    is_near || is_double || rounded.outcomes.iter().any(|outcome| outcome.is_lossy())
}
