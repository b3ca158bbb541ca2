//! What both programs share of a command line: options and help, by clap; files, an output that is replaced as a whole,
//! statuses, and lines about errors.
#![tactic(auto)]

pub mod arguments;
pub mod ending;
pub mod files;
pub mod host;
pub mod output;
pub mod refusal;
pub mod status;
pub mod togrid;
