//! The word after `--grid`.
use command_line::refusal::{Refusal, Usage};
use grid::Grid;
use std::str::Split;

/// The transform that a word names.
pub(crate) fn grid_of<'a>(word: &'a str) -> Result<Grid, Refusal<'a>> {
    match parse_grid(word) {
        Some(grid) => Ok(grid),
        None => Err(Refusal::Usage(Usage::BadGrid(word))),
    }
}

/// The transform that a word such as `10,10,-500,0` names: the scales of x and y, then their
/// translations. None where it is not four decimal numbers (an optional minus, then digits) within
/// the limits of a transform.
fn parse_grid(word: &str) -> Option<Grid> {
    let mut numbers = word.split(',');
    let scales = parse_pair(&mut numbers)?;
    let translations = parse_pair(&mut numbers)?;
    match numbers.next() {
        None => Grid::new(scales.0, scales.1, translations.0, translations.1),
        Some(_) => None,
    }
}

/// The next two of the numbers.
fn parse_pair(numbers: &mut Split<'_, char>) -> Option<(i64, i64)> {
    let first = parse_number(numbers.next()?)?;
    Some((first, parse_number(numbers.next()?)?))
}

/// An optional minus, then decimal digits. Rust's own parser would also take a plus.
fn parse_number(text: &str) -> Option<i64> {
    for byte in text.strip_prefix('-').unwrap_or(text).as_bytes() {
        if !byte.is_ascii_digit() {
            return None;
        }
    }
    text.parse::<i64>().ok()
}
