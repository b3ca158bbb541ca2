//! The command to go on with.
use crate::report::{LineFault, Report};
use crate::shell::put_shell_word;
use crate::target::Target;
use command_line::refusal::put_words;
use itoa::Buffer;
use sinks::{Kept, put};
use std::alloc::{AllocError, Global};

/// A layer and its file, as a word for a shell.
fn put_layer(
    alloc: Global,
    lines: &mut Kept,
    target: &Target<'_>,
    name: &str,
) -> Result<(), LineFault> {
    let Ok(Some(file)) = target.file(alloc, name) else {
        return Err(LineFault);
    };
    let mut word = Kept::new(alloc);
    put_words(&mut word, name, "=")?;
    put(&mut word, file.as_bytes())?;
    put(lines, b" ")?;
    Ok(put_shell_word(lines, word.into_bytes().as_slice())?)
}

/// The command to go on with: `topotool build --grid 1,1,0,0 provinces=out/provinces.json`.
fn put_next(alloc: Global, lines: &mut Kept, report: &Report<'_, '_>) -> Result<(), LineFault> {
    let mut units = Buffer::new();
    let units = units.format(report.options.units);
    put(lines, b"topotool build --grid ")?;
    put_words(lines, units, ",")?;
    put_words(lines, units, ",0,0")?;
    for layer in report.layers {
        put_layer(alloc, lines, &report.options.target, layer.name)?;
    }
    Ok(())
}

/// The command to go on with, where maps were written into files.
pub(crate) fn next_command(
    alloc: Global,
    report: &Report<'_, '_>,
) -> Result<Option<Vec<u8>>, AllocError> {
    let options = report.options;
    if options.is_build || options.target.is_standard() || report.layers.is_empty() {
        return Ok(None);
    }
    let mut next = Kept::new(alloc);
    match put_next(alloc, &mut next, report) {
        Ok(()) => Ok(Some(next.into_bytes())),
        Err(LineFault) => Err(AllocError),
    }
}
