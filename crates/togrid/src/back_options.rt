//! What the words ask for on the way back, as values.
use attributes::Scale;
use clap::ArgMatches;
use command_line::refusal::{Refusal, Usage};
use decimals::topology::{BackRules, NumbersBack};
use fixing::Rewind;
use grid::limits::GREATEST_GRID_NUMBER;
use numerals::DecimalStep;
use rounding::options::{decimal_word, rewind_of, scale_of, unit_of};
use std::alloc::Global;

/// What the words ask for on the way back.
#[derive(Drop)]
pub(crate) struct BackOptions<'a> {
    pub(crate) unit: DecimalStep,
    /// The unit as it is written.
    pub(crate) unit_word: &'a str,
    rewind: Rewind,
    /// Whether decimal texts become numbers.
    has_numbers: bool,
    /// The properties of which they do; columns of numbers where there are none.
    names: Vec<&'a str>,
    scales: Vec<Scale<'a>>,
    /// The topology whose transform is taken.
    pub(crate) like: Option<&'a str>,
    /// How many steps a side of the bounding box has.
    pub(crate) steps: Option<u64>,
    pub(crate) output: Option<&'a str>,
}

impl<'a> BackOptions<'a> {
    fn numbers(&self) -> NumbersBack<'_> {
        if !self.has_numbers {
            NumbersBack::None
        } else if self.names.is_empty() {
            NumbersBack::Columns
        } else {
            NumbersBack::Named(self.names.as_slice())
        }
    }

    /// What becomes of rings and properties.
    pub(crate) fn rules(&self) -> BackRules<'_> {
        BackRules {
            rewind: self.rewind,
            numbers: self.numbers(),
            scales: self.scales.as_slice(),
        }
    }
}

/// How many steps a side of the bounding box has: one less than there are numbers along it, which are 2 to 2^40.
fn steps_of<'a>(word: Option<&'a str>) -> Result<Option<u64>, Refusal<'a>> {
    let Some(word) = word else {
        return Ok(None);
    };
    match word.parse::<u64>() {
        Ok(count) => if count >= 2 && count <= GREATEST_GRID_NUMBER as u64 {
            Ok(Some(count - 1))
        } else {
            Err(Refusal::Usage(Usage::BadQuantize(word)))
        },
        Err(_) => Err(Refusal::Usage(Usage::BadQuantize(word))),
    }
}

/// Adds the names of a word, with commas between.
fn add_names<'a>(names: &mut Vec<&'a str>, word: &'a str) -> Result<(), Refusal<'a>> {
    for name in word.split(',') {
        if name.is_empty() {
            return Err(Refusal::Usage(Usage::BadNumbers(word)));
        }
        names.push(name)?;
    }
    Ok(())
}

/// The properties that words name. An empty word stands for all columns of numbers, and goes with no other.
fn numbers_of<'a>(alloc: Global, words: &[&'a str]) -> Result<Vec<&'a str>, Refusal<'a>> {
    let mut names = Vec::new(alloc);
    let is_all = words.iter().any(|word| word.is_empty());
    for word in words {
        if is_all && !word.is_empty() {
            return Err(Refusal::Usage(Usage::BadNumbers(*word)));
        }
        if !is_all {
            add_names(&mut names, *word)?;
        }
    }
    Ok(names)
}

/// The properties that words scale.
fn scales_of<'a>(alloc: Global, words: &[&'a str]) -> Result<Vec<Scale<'a>>, Refusal<'a>> {
    let mut scales = Vec::new(alloc);
    for word in words {
        match scale_of(*word) {
            Some(scale) => scales.push(scale)?,
            None => return Err(Refusal::Usage(Usage::BadScale(*word))),
        }
    }
    Ok(scales)
}

/// The options of the way back that the words give, or why they are none.
pub(crate) fn back_options_of<'a>(
    alloc: Global,
    found: &ArgMatches<'a>,
) -> Result<BackOptions<'a>, Refusal<'a>> {
    let numbers = found.get_strs("numbers").unwrap_or(&[]);
    Ok(BackOptions {
        unit: unit_of(found)?,
        unit_word: decimal_word(found, "unit"),
        rewind: rewind_of(found, Rewind::D3),
        has_numbers: !numbers.is_empty(),
        names: numbers_of(alloc, numbers)?,
        scales: scales_of(alloc, found.get_strs("reals").unwrap_or(&[]))?,
        like: found.get_str("like"),
        steps: steps_of(found.get_str("quantize"))?,
        output: found.get_str("output"),
    })
}
