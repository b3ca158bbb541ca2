//! The words of togrid's command line, read with clap.
use crate::arguments::rows::TOGRID;
use crate::arguments::{with_arguments, with_title};
use clap::{ArgMatches, Command, Error};
use std::alloc::{AllocError, Global};

const ABOUT: &str = "Rounds the coordinates of GeoJSON and TopoJSON to a grid of whole numbers

Each coordinate becomes the nearest whole number of steps, ties away from zero,
exactly: no floating-point number is used. topotool builds what comes out.
With --back a topology in whole numbers gets degrees again, for the web.";

const AFTER: &str = "Example: togrid --build districts=east.geojson districts=west.geojson

docs/TOGRID.md says what becomes of coordinates, properties and shapes,
docs/FAULTS.md what to do about each fault that a text is refused for, and
the manual page docs/togrid.1 has all of this: man docs/togrid.1
Status: 0 done, 1 something was lost (--strict), 2 wrong usage, 3 a file can't
be read, 4 an input is refused, 5 out of memory, 6 an output failed";

/// What `--version` prints behind the program's name.
const VERSION: &str = "0.1.0";

fn togrid<'a>(alloc: Global) -> Result<Command<'a>, AllocError> {
    let program = with_title(alloc, "togrid", ABOUT, AFTER)
        .version(VERSION)
        .arg_required_else_help(true);
    with_arguments(alloc, program, TOGRID)
}

/// What the words ask for. The first word is the program's name.
pub fn parse<'a>(alloc: Global, words: &'a [String]) -> Result<ArgMatches<'a>, Error> {
    togrid(alloc)?.try_get_matches_from(words)
}
