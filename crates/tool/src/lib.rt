//! The command `topotool` as a library: its words, its statuses and lines, and the way from GeoJSON
//! texts to the text of a topology. Files and outputs are passed in, so that a test can run the
//! whole command.
#![tactic(auto)]

mod build_command;
mod check_command;
mod command;
mod diff_command;
mod faults_command;
mod grid_word;
mod merge_command;
mod progress;
mod queries;
mod removing;
mod topologies;

pub use command::run;
pub use command_line::files::{FileFault, Files, OutputFault, Place};
pub use outputs::built_text::{BuildFault, build_text, laws};
