//! A topology in the unit of the map again.
use crate::back_options::BackOptions;
use crate::remedies::{refuse_text, remedy_of, without_mark};
use command_line::files::{Files, input_once, read_named};
use command_line::output::write_output;
use command_line::refusal::{Refusal, Usage};
use command_line::status::Status;
use decimals::topology::{DecimalFault, DecimalTransform, TransformFault, text_of, text_on};
use faults::{Fault, FaultKind};
use sinks::Sink;
use std::alloc::Global;
use topo::topology::Topology;
use topo_io::read_topology;

/// The topology of a file.
fn read_file<'a, F: Files>(
    alloc: Global,
    file: &'a str,
    files: &mut F,
) -> Result<Topology, Refusal<'a>> {
    let bytes = read_named(alloc, files, file)?;
    let text = without_mark(alloc, bytes.as_slice())?;
    match read_topology(alloc, text) {
        Ok(topology) => Ok(topology),
        Err(fault) => Err(refuse_text(file, fault, remedy_of(alloc, text)?, true)),
    }
}

/// The refusal of a topology of which no transform is taken.
fn refuse_like<'a>(alloc: Global, file: &'a str, fault: TransformFault) -> Refusal<'a> {
    let (kind, member) = match fault {
        TransformFault::NotJson => return Refusal::of_text(
            file,
            Fault::here(alloc, FaultKind::NotJson),
        ),
        TransformFault::OutOfMemory => return Refusal::OutOfMemory,
        TransformFault::NotTopology => (FaultKind::UnknownType, "type"),
        TransformFault::NoTransform => (FaultKind::NoTransform, "transform"),
        TransformFault::NotTwoNumbers => (FaultKind::NotTwo, "transform"),
        TransformFault::TooManyDigits | TransformFault::ZeroScale => {
            (FaultKind::OutOfRange, "transform")
        }
    };
    Refusal::of_text(file, Fault::here(alloc, kind).under_name(alloc, member))
}

/// The transform of another topology.
fn transform_of_file<'a, F: Files>(
    alloc: Global,
    options: &BackOptions<'a>,
    file: &'a str,
    files: &mut F,
) -> Result<DecimalTransform, Refusal<'a>> {
    let bytes = read_named(alloc, files, file)?;
    match DecimalTransform::read(alloc, without_mark(alloc, bytes.as_slice())?, &options.unit) {
        Ok(transform) => Ok(transform),
        Err(fault) => Err(refuse_like(alloc, file, fault)),
    }
}

/// The refusal of a topology that gets no text in the unit of the map.
fn refuse_back<'a>(
    alloc: Global,
    options: &BackOptions<'a>,
    file: &'a str,
    fault: DecimalFault,
) -> Refusal<'a> {
    match fault {
        DecimalFault::TooManyDigits => Refusal::Usage(Usage::BadUnit(options.unit_word)),
        DecimalFault::OutOfMemory => Refusal::OutOfMemory,
    }
}

/// The text of a topology on the transform that the options ask for.
fn back_text(
    alloc: Global,
    options: &BackOptions<'_>,
    topology: &Topology,
    like: Option<DecimalTransform>,
) -> Result<Vec<u8>, DecimalFault> {
    // `steps_of` gives one step at least.
    let other = match (like, options.steps) {
        (Some(like), _) => Some(like),
        (None, Some(steps)) => Some(DecimalTransform::of_box(
            alloc,
            topology,
            &options.unit,
            steps.max(1),
        )?),
        (None, None) => None,
    };
    let rules = options.rules();
    match other {
        Some(other) => text_on(alloc, topology, &other, &rules),
        None => text_of(alloc, topology, &options.unit, &rules),
    }
}

/// Writes the topology of the only file in the unit of the map.
pub(crate) fn write_back<'a, F: Files, O: Sink>(
    alloc: Global,
    options: &BackOptions<'a>,
    names: &[&'a str],
    files: &mut F,
    out: &mut O,
) -> Result<Status, Refusal<'a>> {
    let [file] = names else {
        return Err(Refusal::Usage(Usage::BadBack));
    };
    let like = match options.like {
        Some(like) => {
            input_once(&[*file, like])?;
            Some(transform_of_file(alloc, options, like, files)?)
        }
        None => None,
    };
    let topology = read_file(alloc, *file, files)?;
    match back_text(alloc, options, &topology, like) {
        Ok(text) => {
            write_output(alloc, files, out, options.output, text.as_slice())?;
            Ok(Status::Done)
        }
        Err(fault) => Err(refuse_back(alloc, options, *file, fault)),
    }
}
