//! The program: the command over the machine's words, files and outputs.
#![tactic(auto)]

mod all_faults;
mod back;
mod back_options;
mod command;
mod printing;
mod remedies;
mod rounding_result;

use crate::command::run;
use command_line::host::{HostFiles, refuse_words};
use sinks::Tap;
use std::process::ExitCode;
use std::{env, io};

/// Runs the command, and returns its exit status.
fn run_command(rt: &HostRuntime) -> io::Result<u8> {
    let words: Vec<String> = env::args(rt)?.collect(rt.alloc())?;
    let mut files = HostFiles::of(rt);
    let mut out = Tap::new(rt.stdout());
    let mut err = Tap::new(rt.stderr());
    Ok(run(rt.alloc(), words.as_slice(), &mut files, &mut out, &mut err))
}

fn main(rt: HostRuntime) -> ExitCode {
    match run_command(&rt) {
        Ok(status) => ExitCode::from(status),
        Err(error) => ExitCode::from(refuse_words(&rt, "togrid", error.kind())),
    }
}
