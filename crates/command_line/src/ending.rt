//! How a program ends: with help, or with a line on standard error.
use crate::refusal::Refusal;
use crate::status::Status;
use clap::Error;
use clap::error::ErrorKind;
use sinks::{Sink, WriteFault, put};
use std::alloc::Global;

/// Says why, and returns the status. A failure of standard error changes nothing.
pub fn refuse<E: Sink>(program: &str, refusal: &Refusal<'_>, err: &mut E) -> Status {
    let _ = refusal.write_line(program, err);
    refusal.status()
}

/// Flushes the output, which may fail until then, and returns the status.
fn finish<O: Sink, E: Sink>(program: &str, status: Status, out: &mut O, err: &mut E) -> Status {
    match out.flush() {
        Ok(()) => status,
        Err(_) => refuse(program, &Refusal::Write, err),
    }
}

/// Prints the help that was asked for, or what is wrong with the words.
pub fn explain<O: Sink, E: Sink>(
    alloc: Global,
    program: &str,
    error: &Error,
    out: &mut O,
    err: &mut E,
) -> Status {
    if matches!(error.kind(), ErrorKind::OutOfMemory) {
        return refuse(program, &Refusal::OutOfMemory, err);
    }
    let Ok(text) = error.to_string(alloc) else {
        return refuse(program, &Refusal::OutOfMemory, err);
    };
    if error.use_stderr() {
        let _ = put(err, text.as_bytes());
        return Status::Usage;
    }
    match put(out, text.as_bytes()) {
        Ok(()) => finish(program, Status::Done, out, err),
        Err(WriteFault::Write) => refuse(program, &Refusal::Write, err),
    }
}
