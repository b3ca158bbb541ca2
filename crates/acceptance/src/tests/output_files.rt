//! Files that a run replaces as a whole, or leaves as they were, where any call for them fails.
use crate::disk::{Call, Disk};
use crate::inputs::{SHARED_EDGE, SQUARES};
use crate::runs::Run;
use crate::tables::Words;
use sinks::Kept;
use std::alloc::Global;
use std::test::Fail;

const OLD: &[u8] = b"what was there";

const BUILD: Words = &[
    "build",
    "--grid",
    "1,1,0,0",
    "a=squares.json",
    "-o",
    "out.json",
];

/// A disk with the squares and an old file, after a run, and the run's status and line.
#[derive(Drop)]
struct Ended {
    disk: Disk,
    status: u8,
    line: Vec<u8>,
}

impl Ended {
    /// Whether the run failed, the old file stands, and so many files are left.
    fn kept_the_old(&self, count: usize) -> bool {
        self.status == 6
            && self.line.as_slice() == b"topotool: 21 Write\n".as_slice()
            && self.disk.file("out.json") == Some(OLD)
            && self.disk.count() == count
    }

    /// Whether the run printed its text into the file, and nothing else is left.
    fn wrote(&self, text: &[u8]) -> bool {
        self.status == 0
            && self.line.is_empty()
            && self.disk.file("out.json") == Some(text)
            && self.disk.count() == 2
    }
}

/// What a run of these words ends with, where a call fails after so many of its kind.
fn end_run(alloc: Global, words: Words, fails: Option<Call>, after: usize) -> Result<Ended, Fail> {
    let mut disk = Disk::failing(alloc, fails, after);
    disk.add("squares.json", SQUARES.as_bytes())?;
    disk.add("out.json", OLD)?;
    let (mut out, mut err) = (Kept::new(alloc), Kept::new(alloc));
    let run = Run::on_files(alloc, words, &[])?;
    let status = run.over_files(&mut disk, &mut out, &mut err);
    if !out.into_bytes().is_empty() {
        return Err("something was printed".into());
    }
    Ok(Ended {
        disk,
        status,
        line: err.into_bytes(),
    })
}

#[test]
fn a_file_is_replaced(rt: HostRuntime) -> Result<(), Fail> {
    let ended = end_run(rt.alloc(), BUILD, None, 0)?;
    assert!(rt; ended.wrote(SHARED_EDGE.as_bytes()));
    Ok(())
}

/// Calls that are made once: a short text is written in one piece.
const ONCE: &[Call] = &[
    Call::Find,
    Call::Create,
    Call::Write,
    Call::Sync,
    Call::Rename,
];

#[test]
fn the_old_file_stays_where_a_call_fails(rt: HostRuntime) -> Result<(), Fail> {
    for call in ONCE {
        let ended = end_run(rt.alloc(), BUILD, Some(*call), 0)?;
        assert!(rt; ended.kept_the_old(2), "{call:?}");
    }
    Ok(())
}

const NO_LAYER: Words = &["feature", "--layer", "q", "out.json", "-o", "squares.json"];

/// Where the layer is not there the file is made, and taken away again; where that fails too it is left, and the
/// other stands all the same.
#[test]
fn the_old_file_stays_where_the_answer_is_refused(rt: HostRuntime) -> Result<(), Fail> {
    for (fails, count) in [(None, 2), (Some(Call::Remove), 3)] {
        let mut disk = Disk::failing(rt.alloc(), fails, 0);
        disk.add("squares.json", OLD)?;
        disk.add("out.json", SHARED_EDGE.as_bytes())?;
        let (mut out, mut err) = (Kept::new(rt.alloc()), Kept::new(rt.alloc()));
        let run = Run::on_files(rt.alloc(), NO_LAYER, &[])?;
        assert!(rt; run.over_files(&mut disk, &mut out, &mut err) == 4);
        assert!(rt; disk.file("squares.json") == Some(OLD) && disk.count() == count);
    }
    Ok(())
}
