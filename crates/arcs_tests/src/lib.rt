//! Tests of the libraries of arcs: `chains`, `split_heal`.
#![tactic(auto)]

#[cfg(test)]
mod chains_tests;
#[cfg(test)]
mod heal_arcs_tests;
#[cfg(test)]
mod split_arcs_tests;
