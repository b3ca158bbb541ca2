//! The topologies that a command is given, each by the word of its file.
use clap::ArgMatches;
use command_line::files::{Files, read_named};
use command_line::refusal::Refusal;
use faults::Fault;
use std::alloc::Global;
use topo::Topology;

/// The value of an argument, empty where it has none.
pub(crate) fn word<'a>(found: &ArgMatches<'a>, name: &str) -> &'a str {
    found.get_str(name).unwrap_or("")
}

/// The topology of the one file that a question is asked about.
pub(crate) fn read_topology<'a, F: Files>(
    alloc: Global,
    found: &ArgMatches<'a>,
    files: &mut F,
) -> Result<Topology, Refusal<'a>> {
    let file = word(found, "FILE");
    topology_of(alloc, file, read_named(alloc, files, file)?)
}

/// The topology of what a file's text means. The text is dropped.
pub(crate) fn topology_of<'a>(
    alloc: Global,
    file: &'a str,
    text: Vec<u8>,
) -> Result<Topology, Refusal<'a>> {
    of_file(file, topo_io::read_topology(alloc, text.as_slice()))
}

/// What was read of a file's text, or the refusal that names the file.
pub(crate) fn of_file<'a, T>(file: &'a str, read: Result<T, Fault>) -> Result<T, Refusal<'a>> {
    match read {
        Ok(made) => Ok(made),
        Err(fault) => Err(Refusal::of_text(file, fault)),
    }
}
