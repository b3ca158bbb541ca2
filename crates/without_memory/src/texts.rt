//! What the two ways to read a text make of files: along its tokens alone, or by its JSON value alone.

mod along_tokens;
mod by_value;
mod refusal;

use grid::Grid;

/// What the files are.
#[derive(Clone, Copy)]
pub(crate) enum Format {
    Topology,
    Geojson(Grid),
}

/// Four numbers parted by commas are a grid.
fn format_of(word: &str) -> Option<Format> {
    if word == "topology" {
        return Some(Format::Topology);
    }
    let mut numbers = word.split(',');
    let sx = numbers.next()?.parse::<i64>().ok()?;
    let sy = numbers.next()?.parse::<i64>().ok()?;
    let tx = numbers.next()?.parse::<i64>().ok()?;
    let ty = numbers.next()?.parse::<i64>().ok()?;
    Some(Format::Geojson(Grid::new(sx, sy, tx, ty)?))
}

/// Answers the exit status, none where a word is wanting or wrong, a file can't be read, or memory is refused.
pub(crate) fn read(rt: &HostRuntime, way: &str, words: &[String]) -> Option<u8> {
    let (format, files) = words.split_first()?;
    let format = format_of(format.as_str())?;
    match way {
        "tokens" => along_tokens::print_each(rt, &format, files),
        "values" => by_value::print_text(rt, format, files.first()?.as_str()),
        _ => None,
    }
}
