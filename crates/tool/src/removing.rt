//! The command `remove`.
use crate::topologies::{topology_of, word};
use clap::ArgMatches;
use command_line::files::{Files, input_once, read_named};
use command_line::refusal::Refusal;
use refine::{JoinFault, remove_topology};
use std::alloc::Global;
use topo::Topology;

/// The topology of a file without the features of another one.
pub(crate) fn topology_left<'a, F: Files>(
    alloc: Global,
    found: &ArgMatches<'a>,
    files: &mut F,
) -> Result<Topology, Refusal<'a>> {
    let (file, removed) = (word(found, "FILE"), word(found, "REMOVED"));
    input_once(&[file, removed])?;
    let text = read_named(alloc, files, file)?;
    let removed_text = read_named(alloc, files, removed)?;
    text_left(alloc, file, text, removed, removed_text)
}

/// The topology of a file's text without the features of another file's text. Both are dropped.
fn text_left<'a>(
    alloc: Global,
    file: &'a str,
    text: Vec<u8>,
    removed: &'a str,
    removed_text: Vec<u8>,
) -> Result<Topology, Refusal<'a>> {
    let topology = topology_of(alloc, file, text)?;
    without(alloc, &topology, removed, removed_text)
}

/// A topology without the features of another file's text. The text is dropped once it is read.
fn without<'a>(
    alloc: Global,
    topology: &Topology,
    removed: &'a str,
    text: Vec<u8>,
) -> Result<Topology, Refusal<'a>> {
    let others = topology_of(alloc, removed, text)?;
    match remove_topology(alloc, topology, &others) {
        Ok(removal) => Ok(removal.into_topology()),
        Err(JoinFault::OtherGrid) => Err(Refusal::OtherGrid(removed)),
        Err(JoinFault::OutOfMemory) => Err(Refusal::OutOfMemory),
    }
}
