//! Tests of the libraries that compare, merge and edit topologies: `compare`, `merging` and `refine`.
#![tactic(auto)]

#[cfg(test)]
mod tests;
