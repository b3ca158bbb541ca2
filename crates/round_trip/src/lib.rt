//! What is written is read back: laws, promised by functions that do nothing.
#![tactic(auto)]

pub mod compact;
pub mod geojson;

ghost use Rattle.round_trip.specs.Laws.{WrittenTopologiesAreRead, OneMapOfAText};

/// The text that `topo_io::write` writes of a topology that `Topology::build` made of a map that fits its grid
/// is accepted by `topo_io::read`, and means that grid and that map.
#[tactic(auto, using(crate::proofs::OfMap::written_topologies_are_read))]
pub fn written_topologies_are_read()
    ensures { WrittenTopologiesAreRead }
{}

/// Maps that fit their grids and have one canonical text are one map, on one grid.
#[tactic(auto, using(crate::proofs::OfMap::one_map_of_a_text))]
pub fn one_map_of_a_text()
    ensures { OneMapOfAText }
{}
