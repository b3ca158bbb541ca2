//! Tests across crates of what no run of the program shows: calls of the libraries, and writers that fail. They run
//! the whole command over files in memory. Expected texts are worked out by hand from the formats.
#![tactic(auto)]

#[cfg(test)]
mod disk;
#[cfg(test)]
mod inputs;
#[cfg(test)]
mod runs;
#[cfg(test)]
mod scripts;
#[cfg(test)]
mod tables;
#[cfg(test)]
mod tests;
