//! Examples of programs that use the libraries, and what the measurements of `bench` run. The first word says what
//! is done:
//!
//!     examples border-walk LEFT RIGHT LAYER   joins the topologies of two files, prints which features of a
//!                                             layer share a border, and walks the rings of its first polygon
//!     examples district-day                   edits a map in a session, from the files of this crate's `data`
//!     examples values FILE ..                 reads files as JSON values, and holds them all
//!     examples features FILE ..               reads the features of GeoJSON files, one file after the other
//!     examples build COUNT FILE ..            builds the topology of GeoJSON files, and prints its text
//!     examples recut COUNT LEFT RIGHT         cuts the arcs of two GeoJSON files' topologies again, and
//!                                             prints how many they are cut into
//!     examples remove COUNT WHOLE REMOVED     takes the features of one GeoJSON file out of the topology
//!                                             of another, and prints the text of what is left
//!     examples merge whole|cut left|right|halves FILE ..
//!                                             joins the shards of topology texts, of one kind, in one
//!                                             grouping, and prints the text
//!
//! GeoJSON is read on the grid of scale 1 and translation 0. What has a count is done once, and then so
//! many times again. Several runs are parted by `--`.
#![tactic(auto)]

mod border_walk;
mod borders;
mod district_day;
mod inputs;
mod merges;
mod topologies;

use std::env;
use std::process::ExitCode;

/// The text that a measurement prints; `None` as in `run`.
fn text_of(rt: &HostRuntime, what: &str, words: &[String]) -> Option<Vec<u8>> {
    match what {
        "build" => topologies::build(rt, words),
        "recut" => topologies::cut_again(rt, words),
        "remove" => topologies::take_out(rt, words),
        "merge" => merges::merge(rt, words),
        _ => None,
    }
}

/// Does what the words say; `None` where a word is wanting or wrong, a file can't be read, or memory is
/// refused.
fn run(rt: &HostRuntime, words: &[String]) -> Option<()> {
    let (what, others) = words.split_first()?;
    match what.as_str() {
        "border-walk" => border_walk::walk_borders(rt, others),
        "district-day" => district_day::edit_map(rt),
        "values" => inputs::read_values(rt, others),
        "features" => inputs::read_features(rt, others),
        what => {
            let text = text_of(rt, what, others)?;
            rt.stdout().write_all(text.as_slice()).ok()
        }
    }
}

fn run_each(rt: &HostRuntime) -> Option<()> {
    let words: Vec<String> = env::args(rt).ok()?.skip(1).collect(rt.alloc()).ok()?;
    for each in words.as_slice().split(|word| word.as_str() == "--") {
        run(rt, each)?;
    }
    Some(())
}

fn main(rt: HostRuntime) -> ExitCode {
    match run_each(&rt) {
        Some(()) => ExitCode::SUCCESS,
        None => ExitCode::FAILURE,
    }
}
