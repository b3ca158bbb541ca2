//! Makes calls of the libraries that take memory, on worked values, texts and maps, and asks again where a call
//! answers want of memory. It goes wrong where a call gives another answer than the right one or want of memory,
//! where what was lent to it is not as before, or where the second answer is not right.
//!
//!     refused_memory [parts|arcs|maps|edits]
//!
//! makes the calls of one group, or of all. The script tests/growths.py runs each group with each of its requests
//! for memory refused in turn.
#![tactic(auto)]

mod arc_calls;
mod edits;
mod maps;
mod parts;

use refused_calls::outcome::Tally;
use std::env;
use std::process::ExitCode;

const GROUPS: [&str; 4] = ["parts", "arcs", "maps", "edits"];

/// The first word, asked for again where memory is refused.
fn first_word(rt: &HostRuntime) -> Option<String> {
    match env::args(rt) {
        Ok(words) => words.skip(1).next(),
        Err(_) => env::args(rt).ok()?.skip(1).next(),
    }
}

fn test(rt: &HostRuntime, tally: &mut Tally, group: &str) {
    match group {
        "parts" => parts::test(rt, tally),
        "arcs" => arc_calls::test(rt, tally),
        "maps" => maps::test(rt, tally),
        "edits" => edits::test(rt, tally),
        _ => {}
    }
}

fn main(rt: HostRuntime) -> ExitCode {
    let mut tally = Tally::new();
    match first_word(&rt) {
        Some(group) => test(&rt, &mut tally, group.as_str()),
        None => {
            for group in GROUPS {
                test(&rt, &mut tally, group);
            }
        }
    }
    tally.report(&rt)
}
