//! The command `build`.
use crate::grid_word::grid_of;
use clap::ArgMatches;
use command_line::files::{Files, input_once, name_at, read_named};
use command_line::refusal::{Refusal, Usage};
use grid::Grid;
use outputs::built_text::{BuildFault, build_topology};
use std::alloc::Global;
use topo::Topology;

/// The topology of GeoJSON files.
pub(crate) fn topology_built<'a, F: Files>(
    alloc: Global,
    found: &ArgMatches<'a>,
    files: &mut F,
) -> Result<Topology, Refusal<'a>> {
    let grid = grid_of(found.get_str("grid").unwrap_or(""))?;
    topology_of_words(
        alloc,
        &grid,
        files,
        found.get_strs("NAME=FILE").unwrap_or(&[]),
    )
}

/// The topology of the files that words `NAME=FILE` name, each in its layer.
fn topology_of_words<'a, F: Files>(
    alloc: Global,
    grid: &Grid,
    files: &mut F,
    words: &[&'a str],
) -> Result<Topology, Refusal<'a>> {
    let names = file_names(alloc, words)?;
    input_once(names.as_slice())?;
    let texts = read_texts(alloc, files, words)?;
    topology_of_texts(alloc, grid, names.as_slice(), texts.as_slice())
}

/// The topology of texts, each after its layer's name, which were read from the files of these names.
fn topology_of_texts<'a>(
    alloc: Global,
    grid: &Grid,
    names: &[&'a str],
    texts: &[(String, Vec<u8>)],
) -> Result<Topology, Refusal<'a>> {
    match build_topology(alloc, grid, texts) {
        Ok(topology) => Ok(topology),
        Err(BuildFault::Text(place, fault)) => Err(Refusal::of_text(name_at(names, place), fault)),
        Err(BuildFault::OutOfMemory) => Err(Refusal::OutOfMemory),
    }
}

/// The names of a layer and of a file in a word `NAME=FILE`, split at the first `=`.
fn split_word<'a>(word: &'a str) -> Result<(&'a str, &'a str), Refusal<'a>> {
    match word.split_once('=') {
        Some(names) => Ok(names),
        None => Err(Refusal::Usage(Usage::BadLayer(word))),
    }
}

fn file_names<'a>(alloc: Global, words: &[&'a str]) -> Result<Vec<&'a str>, Refusal<'a>> {
    let mut names = Vec::new(alloc);
    for word in words {
        let (_, name) = split_word(*word)?;
        names.push(name)?;
    }
    Ok(names)
}

/// Reads the files in order, each after its layer's name.
fn read_texts<'a, F: Files>(
    alloc: Global,
    files: &mut F,
    words: &[&'a str],
) -> Result<Vec<(String, Vec<u8>)>, Refusal<'a>> {
    let mut texts = Vec::new(alloc);
    for word in words {
        texts.push(read_text(alloc, files, *word)?)?;
    }
    Ok(texts)
}

/// Reads a file, after its layer's name.
fn read_text<'a, F: Files>(
    alloc: Global,
    files: &mut F,
    word: &'a str,
) -> Result<(String, Vec<u8>), Refusal<'a>> {
    let (layer, name) = split_word(word)?;
    let layer = String::from_str(alloc, layer)?;
    Ok((layer, read_named(alloc, files, name)?))
}
