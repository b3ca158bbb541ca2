//! What a run tells of its progress, by a clock that goes on by 1045 milliseconds between two looks, and without one.
use crate::disk::Disk;
use crate::inputs::SHARED_EDGE;
use crate::runs::Run;
use crate::tables::Words;
use sinks::Kept;
use std::alloc::Global;
use std::test::Fail;

const MERGE: Words = &["merge", "--progress", "shared.json", "-o", "out.json"];

const TIMED: &str = "topotool: read shared.json: 290 bytes, 1.045 s\n\
    topotool: topology: 2 features, 10 positions, 1.045 s\n\
    topotool: output: 290 bytes, 1.045 s\n";

/// What a run of these words tells.
fn progress_of(alloc: Global, words: Words) -> Result<String, Fail> {
    let mut disk = Disk::failing(alloc, None, 0);
    disk.add("shared.json", SHARED_EDGE.as_bytes())?;
    let (mut out, mut err) = (Kept::new(alloc), Kept::new(alloc));
    let run = Run::on_files(alloc, words, &[])?;
    if run.over_files(&mut disk, &mut out, &mut err) != 0 {
        return Err("a run that failed".into());
    }
    Ok(String::from_utf8(err.into_bytes())?)
}

#[test]
fn seconds_by_the_clock(rt: HostRuntime) -> Result<(), Fail> {
    let line = progress_of(rt.alloc(), MERGE)?;
    assert!(rt; line.as_str() == TIMED);
    Ok(())
}

const QUIET: Words = &["merge", "shared.json", "-o", "out.json"];

#[test]
fn nothing_without_the_word(rt: HostRuntime) -> Result<(), Fail> {
    let line = progress_of(rt.alloc(), QUIET)?;
    assert!(rt; line.is_empty());
    Ok(())
}

const CHECK: Words = &["check", "--progress", "shared.json"];

const UNTIMED: &[u8] = b"topotool: read shared.json: 290 bytes\n\
    topotool: check: 290 bytes\n\
    topotool: output: 10 bytes\n";

#[test]
fn no_seconds_without_a_clock(rt: HostRuntime) -> Result<(), Fail> {
    let run = Run::on_files(rt.alloc(), CHECK, &[("shared.json", SHARED_EDGE)])?;
    let (mut out, mut err) = (Kept::new(rt.alloc()), Kept::new(rt.alloc()));
    assert!(rt; run.over(&mut out, &mut err) == 0);
    let line = err.into_bytes();
    assert!(rt; line.as_slice() == UNTIMED);
    Ok(())
}
