//! The command `diff`.
use crate::topologies::{topology_of, word};
use clap::ArgMatches;
use command_line::files::{Files, input_once, read_named};
use command_line::refusal::Refusal;
use command_line::status::Status;
use difference_text::{
    Difference, DifferenceFault, DifferenceOptions, find_difference, write_json, write_lines,
};
use sinks::Sink;
use std::alloc::Global;
use topo::Topology;

/// Two topologies, and what differs between them.
#[derive(Drop)]
pub(crate) struct Compared {
    old: Topology,
    new: Topology,
    pub(crate) difference: Difference,
}

/// What differs between the topologies of two files.
pub(crate) fn topologies_compared<'a, F: Files>(
    alloc: Global,
    found: &ArgMatches<'a>,
    files: &mut F,
) -> Result<Compared, Refusal<'a>> {
    let (old, new) = (word(found, "OLD"), word(found, "NEW"));
    input_once(&[old, new])?;
    let old_text = read_named(alloc, files, old)?;
    let new_text = read_named(alloc, files, new)?;
    let old = topology_of(alloc, old, old_text)?;
    compare_texts(alloc, found, old, new, new_text)
}

/// What differs between a topology and that of another file's text. The text is dropped.
fn compare_texts<'a>(
    alloc: Global,
    found: &ArgMatches<'a>,
    old: Topology,
    file: &'a str,
    text: Vec<u8>,
) -> Result<Compared, Refusal<'a>> {
    let new = topology_of(alloc, file, text)?;
    match find_difference(alloc, &old, &new, &options_of(found)) {
        Ok(difference) => Ok(Compared {
            old,
            new,
            difference,
        }),
        Err(fault) => Err(refusal_of(found, file, fault)),
    }
}

/// Why nothing is said of the difference from a file.
fn refusal_of<'a>(found: &ArgMatches<'a>, file: &'a str, fault: DifferenceFault) -> Refusal<'a> {
    match fault {
        DifferenceFault::OtherGrid => Refusal::OtherGrid(file),
        DifferenceFault::NoLayer => Refusal::NoLayer(word(found, "layer")),
        DifferenceFault::OutOfMemory => Refusal::OutOfMemory,
        DifferenceFault::Write => Refusal::Write,
    }
}

/// What the words ask of the difference.
fn options_of<'a>(found: &ArgMatches<'a>) -> DifferenceOptions<'a> {
    DifferenceOptions {
        layer: found.get_str("layer"),
        key: found.get_str("key"),
        json: found.get_flag("json"),
    }
}

/// Prints what differs, as lines or as a JSON object, and answers whether anything does.
pub(crate) fn print_difference<'a, O: Sink>(
    compared: &Compared,
    is_json: bool,
    out: &mut O,
) -> Result<Status, Refusal<'a>> {
    let difference = &compared.difference;
    if is_json {
        write_json(difference, &compared.old, &compared.new, out)?;
    } else {
        write_lines(difference, &compared.old, &compared.new, out)?;
    }
    if difference.is_empty() {
        Ok(Status::Done)
    } else {
        Ok(Status::Different)
    }
}
