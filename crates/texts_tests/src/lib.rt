//! Tests of the libraries of texts: `reading`, `geojson_io` and `topo_io`.
#![tactic(auto)]

#[cfg(test)]
mod geojson_io_tests;
#[cfg(test)]
mod printed;
#[cfg(test)]
mod topo_io_tests;
