//! Tests of the libraries of values: `grid`, `faults`, `sinks`, `lines` and `shapes`.
#![tactic(auto)]

#[cfg(test)]
mod faults_tests;
#[cfg(test)]
mod grid_tests;
#[cfg(test)]
mod lines_tests;
#[cfg(test)]
mod shapes_tests;
#[cfg(test)]
mod sinks_tests;
