//! What the words of `togrid` ask for, and what it reports of files that it rounds: as lines, and as JSON.
#![tactic(auto)]

mod back_words;
pub mod checks;
pub mod columns;
pub mod layers;
pub mod naming;
mod next;
pub mod options;
pub mod report;
pub mod report_file;
mod shell;
pub mod target;
