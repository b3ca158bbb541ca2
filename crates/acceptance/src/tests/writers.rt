//! Writers that fail, and writers that take little.
use crate::inputs::{LARGEST_AND_LEAST, LONGEST_LINE, SHARED_EDGE, SQUARES};
use crate::rows;
use crate::runs::Run;
use crate::scripts::{script, took};
use crate::tables::{Texts, Words};
use sinks::{Answer, Kept, Script, Tap};
use std::alloc::{AllocError, Global};
use std::io;
use std::process::Abort;
use std::test::Fail;

const FILES: Texts = &[
    ("squares.json", SQUARES),
    ("shared.json", SHARED_EDGE),
    ("longest.json", LONGEST_LINE),
];

const BUILD: Words = &["build", "--grid", "1,1,0,0", "a=squares.json"];

/// A run of these words on the files.
fn run_of(alloc: Global, words: Words) -> Result<Run, AllocError> {
    Run::on_files(alloc, words, FILES)
}

#[test]
fn a_writer_that_fails_at_each_call(rt: HostRuntime) -> Result<(), Fail> {
    let run = run_of(rt.alloc(), BUILD)?;
    run.assert_all_fail("a build", SHARED_EDGE.as_bytes())
}

/// A sink that took all that a run printed, a byte in the first calls and the rest as it came.
fn taken_whole(alloc: Global, run: &Run, calls: usize) -> Result<Script, Fail> {
    let mut sink = script(alloc, calls, Answer::Take(1))?;
    if run.over(&mut sink, &mut Kept::new(alloc)) != 0 {
        return Err("a run that failed".into());
    }
    Ok(sink)
}

const BUILD_LONGEST: Words = &["build", "--grid", "10,10,-500,0", "a=longest.json"];

/// A title, words, and what they print.
const BUILDS: &[(&str, Words, &str)] = rows![
    "shared edge", BUILD, SHARED_EDGE;
    "largest and least", BUILD_LONGEST, LARGEST_AND_LEAST;
];

/// Whether a build writes this text to a sink that takes one byte a call.
fn is_built_by_bytes(alloc: Global, words: Words, text: &str) -> Result<bool, Fail> {
    let run = run_of(alloc, words)?;
    let sink = taken_whole(alloc, &run, text.len())?;
    Ok(took(&sink, text.as_bytes(), text.len(), 0))
}

#[test]
fn a_writer_that_takes_one_byte_a_call(rt: HostRuntime) -> Result<(), Fail> {
    for (title, words, text) in BUILDS {
        assert!(rt; is_built_by_bytes(rt.alloc(), *words, *text)?, "{title}");
    }
    Ok(())
}

/// A writer that takes everything and can't be flushed.
#[derive(Drop)]
struct Stuck;

impl io::Write for Stuck {
    fn write(&mut self, piece: &[u8]) -> io::Result<usize> {
        Ok(piece.len())
    }

    fn flush(&mut self) -> io::Result<()> {
        Err(io::Error::from(io::ErrorKind::Other))
    }
}

const COMMANDS: &[Words] = &[
    BUILD,
    &["check", "shared.json"],
    &["faults", "shared.json"],
    &["merge", "shared.json", "shared.json"],
    &["remove", "shared.json", "shared.json"],
    &["feature", "--layer", "a", "shared.json"],
    &["mesh", "shared.json"],
    &["neighbors", "--layer", "a", "shared.json"],
    &["info", "shared.json"],
    &["info", "--json", "shared.json"],
    &["--version"],
    &["--help"],
    &["build", "--help"],
];

/// Whether a run whose output fails at once prints nothing, one whose output fails after two bytes takes
/// the first two of its text, and both tell so.
fn fails_early(alloc: Global, run: &Run) -> Result<bool, Fail> {
    let whole = taken_whole(alloc, run, 0)?;
    let fails_at_once = run.fails(b"", 0, Answer::Fail)?;
    Ok(fails_at_once && run.fails(whole.taken(), 1, Answer::FailAfter(1))?)
}

/// The command fails at once, after two bytes, and at the flush.
fn assert_fails<R: Abort + AllocGlobal>(rt: &R, words: Words) -> Result<(), Fail> {
    let run = run_of(rt.alloc(), words)?;
    assert!(rt; fails_early(rt.alloc(), &run)?, "{words:?}");
    assert!(rt; run.tells_failure(&mut Tap::new(Stuck)), "{words:?}: flush");
    Ok(())
}

#[test]
fn writers_that_fail_early_and_at_the_flush(rt: HostRuntime) -> Result<(), Fail> {
    for words in COMMANDS {
        assert_fails(&rt, *words)?;
    }
    Ok(())
}

const FROM_NOWHERE: Words = &["build", "--grid", "1,1,0,0", "a=nowhere.json"];

#[test]
fn a_failure_of_standard_error_changes_no_status(rt: HostRuntime) -> Result<(), Fail> {
    let mut out = Kept::new(rt.alloc());
    let mut err = script(rt.alloc(), 4, Answer::Fail)?;
    let run = run_of(rt.alloc(), FROM_NOWHERE)?;
    assert!(rt; run.over(&mut out, &mut err) == 3);
    let printed = out.into_bytes();
    assert!(rt; printed.is_empty() && err.taken() == b"topo".as_slice());
    Ok(())
}
