//! Tests of the libraries of topologies: `topo`, `validate` and `normalize`.
#![tactic(auto)]

#[cfg(test)]
mod normalize_tests;
#[cfg(test)]
mod places;
#[cfg(test)]
mod renumbering_tests;
#[cfg(test)]
mod topo_tests;
#[cfg(test)]
mod validate_tests;
