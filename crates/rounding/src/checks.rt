//! Where outputs may go.
use crate::layers::MapLayer;
use crate::naming::{NamedFile, find_doubled, is_file_name, names_of};
use crate::options::GridOptions;
use command_line::output::is_standard;
use command_line::refusal::{Refusal, Usage};
use std::alloc::Global;

/// More than one file needs a folder, and a folder a name for each. A report replaces no input and no other output.
pub fn check_outputs<'a>(
    alloc: Global,
    options: &GridOptions<'a>,
    sources: &[NamedFile<'a>],
) -> Result<(), Refusal<'a>> {
    let names = names_of(alloc, sources)?;
    check_names(alloc, options, names.as_slice())?;
    let Some(report) = options.report else {
        return Ok(());
    };
    let is_twice = if is_standard(Some(report)) {
        options.target.is_standard()
    } else {
        options.output == Some(report) || sources.iter().any(|source| source.file == report)
    };
    if is_twice {
        return Err(Refusal::Usage(Usage::BadReport(report)));
    }
    check_report(alloc, options, names.as_slice())
}

/// A layer that a text names: the words name its file only where that has one object, and a folder has a file for it.
fn check_layer<'m>(options: &GridOptions<'m>, layer: &MapLayer<'m>) -> Result<(), Refusal<'m>> {
    if let Some(name) = layer.name_in_words {
        return Err(Refusal::Usage(Usage::NameForMany(name)));
    }
    if options.target.is_folder() && !is_file_name(layer.name) {
        return Err(Refusal::Usage(Usage::BadName(layer.name)));
    }
    Ok(())
}

/// The layers that texts name, each checked so.
pub fn check_layers<'m>(
    alloc: Global,
    options: &GridOptions<'m>,
    layers: &[MapLayer<'m>],
) -> Result<(), Refusal<'m>> {
    let mut names = Vec::with_capacity(alloc, layers.len())?;
    for layer in layers {
        if layer.is_named_by_text {
            check_layer(options, layer)?;
        }
        names.push(layer.name)?;
    }
    check_names(alloc, options, names.as_slice())?;
    check_report(alloc, options, names.as_slice())
}

/// Maps of these names that are not built go into files of their own, or there is one.
fn check_names<'a>(
    alloc: Global,
    options: &GridOptions<'a>,
    names: &[&'a str],
) -> Result<(), Refusal<'a>> {
    if options.target.is_folder() {
        return match find_doubled(alloc, names)? {
            Some(name) => Err(Refusal::Usage(Usage::NameTwice(name))),
            None => Ok(()),
        };
    }
    if !options.is_build && names.len() > 1 {
        return Err(Refusal::Usage(Usage::NoFolder));
    }
    Ok(())
}

/// A report goes into no file of a map.
fn check_report<'a>(
    alloc: Global,
    options: &GridOptions<'a>,
    names: &[&'a str],
) -> Result<(), Refusal<'a>> {
    let Some(report) = options.report else {
        return Ok(());
    };
    for name in names {
        if let Some(file) = options.target.file(alloc, *name)? {
            if file.as_str() == report {
                return Err(Refusal::Usage(Usage::BadReport(report)));
            }
        }
    }
    Ok(())
}
