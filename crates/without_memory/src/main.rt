//! Makes the calls of the libraries that take no memory. What they are handed is made first; then a request is made
//! that can be refused with all behind it, and behind that each call has to give its answer. The script
//! tests/growths.py runs it so:
//!
//!     without_memory parts                         makes the calls of numbers, values and sinks
//!     without_memory maps                          makes the calls of arcs and topologies
//!
//! It also reads files as no other program does: along their tokens alone, or by their JSON values alone. The
//! script tests/token_readers.py compares the two ways with each other and with topotool:
//!
//!     without_memory tokens topology FILE ..       prints of each file `read` where it is read along its tokens,
//!     without_memory tokens SX,SY,TX,TY FILE ..    and else `left`; of topologies, or of GeoJSON on that grid
//!     without_memory values topology FILE          prints what `topotool merge FILE` prints, by the value alone
//!     without_memory values SX,SY,TX,TY FILE       and what `topotool build --grid SX,SY,TX,TY a=FILE` prints
//!
//! A text that is refused is told on standard error as topotool tells it, with status 4. Several runs are parted by
//! `--`; it ends with the first status that is not 0.
#![tactic(auto)]

mod maps;
mod parts;
mod square;
mod texts;

use refused_calls::outcome::{Outcome, Tally};
use std::env;
use std::process::ExitCode;

/// Makes the calls of a group; none where there is no such group.
fn tally_of(rt: &HostRuntime, group: &str) -> Option<Tally> {
    let mut tally = Tally::new();
    match group {
        "parts" => parts::test(rt, &mut tally),
        "maps" => maps::test(rt, &mut tally),
        _ => return None,
    }
    Some(tally)
}

fn run(rt: &HostRuntime, words: &[String]) -> ExitCode {
    let Some((what, others)) = words.split_first() else {
        return ExitCode::FAILURE;
    };
    if let Some(tally) = tally_of(rt, what.as_str()) {
        return tally.report(rt);
    }
    match texts::read(rt, what.as_str(), others) {
        Some(status) => ExitCode::from(status),
        None => ExitCode::FAILURE,
    }
}

fn run_each(rt: &HostRuntime, words: &[String]) -> ExitCode {
    for each in words.split(|word| word.as_str() == "--") {
        let status = run(rt, each);
        if status != ExitCode::SUCCESS {
            return status;
        }
    }
    ExitCode::SUCCESS
}

fn command_words(rt: &HostRuntime) -> Option<Vec<String>> {
    env::args(rt).ok()?.skip(1).collect(rt.alloc()).ok()
}

/// The words are asked for again where memory is refused, and where it is refused again that is what is counted.
fn main(rt: HostRuntime) -> ExitCode {
    let words = match command_words(&rt) {
        Some(words) => Some(words),
        None => command_words(&rt),
    };
    match words {
        Some(words) => run_each(&rt, words.as_slice()),
        None => {
            let mut tally = Tally::new();
            tally.count_call(&rt, "without memory", "the words", Outcome::Unprepared);
            tally.report(&rt)
        }
    }
}
