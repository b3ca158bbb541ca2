//! The words of the way back: a topology in the unit of the map, with its numbers.
use crate::options::{GridOptions, power_of};
use crate::report::{LineFault, Report};
use crate::shell::put_shell_word;
use crate::target::Target;
use attributes::Scale;
use sinks::{Kept, put};
use std::alloc::{AllocError, Global};
use std::collections::BTreeSet;

/// Whether words can say which columns become numbers.
fn are_words(names: &BTreeSet<&str>) -> bool {
    names
        .iter()
        .all(|name| !name.is_empty() && !name.contains(','))
}

/// The names of columns, behind `--numbers`. Where words can't say them it has none: then all columns are found again.
fn numbers_word(alloc: Global, names: &BTreeSet<&str>) -> Result<String, AllocError> {
    let mut word = String::from_str(alloc, "--numbers")?;
    if !are_words(names) {
        return Ok(word);
    }
    word.push_str("=")?;
    let mut later = false;
    for name in names {
        if later {
            word.push_str(",")?;
        }
        word.push_str(*name)?;
        later = true;
    }
    Ok(word)
}

/// The word of a scale: `scale:area=100`.
fn scale_word(alloc: Global, scale: &Scale<'_>) -> Result<String, AllocError> {
    let mut word = String::from_str(alloc, "scale:")?;
    word.push_str(scale.property)?;
    word.push_str("=")?;
    word.push_str(power_of(scale))?;
    Ok(word)
}

/// Adds the words of scales.
fn add_scales(
    alloc: Global,
    words: &mut Vec<String>,
    scales: &[Scale<'_>],
) -> Result<(), AllocError> {
    for scale in scales {
        words.push(String::from_str(alloc, "--reals")?)?;
        words.push(scale_word(alloc, scale)?)?;
    }
    Ok(())
}

/// The word of the topology: its file, or standard input. A `=` in front lets a word be a file that would be none.
fn file_word(alloc: Global, options: &GridOptions<'_>) -> Result<String, AllocError> {
    let file = match options.target {
        Target::File(file) if options.is_build => file,
        _ => "-",
    };
    let mut word = String::new(alloc);
    if file.contains('=') || (file.starts_with('-') && file != "-") {
        word.push_str("=")?;
    }
    word.push_str(file)?;
    Ok(word)
}

/// The words of the way back.
pub(crate) fn back_words(alloc: Global, report: &Report<'_, '_>) -> Result<Vec<String>, LineFault> {
    let options = report.options;
    let mut words = Vec::new(alloc);
    words.push(String::from_str(alloc, "togrid")?)?;
    words.push(String::from_str(alloc, "--back")?)?;
    if let Some(unit) = options.unit_word {
        words.push(String::from_str(alloc, "--unit")?)?;
        words.push(String::from_str(alloc, unit)?)?;
    }
    let names = report.columns.names(alloc)?;
    if !names.is_empty() {
        words.push(numbers_word(alloc, &names)?)?;
    }
    add_scales(alloc, &mut words, options.scales.as_slice())?;
    words.push(file_word(alloc, options)?)?;
    Ok(words)
}

/// The line of the way back, where numbers became texts of columns or were scaled.
pub(crate) fn put_back(
    alloc: Global,
    lines: &mut Kept,
    report: &Report<'_, '_>,
) -> Result<(), LineFault> {
    if report.options.scales.is_empty() && report.columns.names(alloc)?.is_empty() {
        return Ok(());
    }
    put(lines, b"back:")?;
    for word in back_words(alloc, report)? {
        put(lines, b" ")?;
        put_shell_word(lines, word.as_bytes())?;
    }
    Ok(put(lines, b"\n")?)
}
