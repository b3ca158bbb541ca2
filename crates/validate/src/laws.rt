//! Laws of valid arcs and lists, each promised by a function that does nothing.
ghost use Rattle.validate.specs.Noding.{ApartArcsAreTheirMaps};
ghost use Rattle.validate.specs.Validity as law;

/// Arcs that are apart are those of the map that has the free loops as its rings and the other arcs as
/// its lines.
pub fn apart_arcs_are_their_maps()
    ensures { ApartArcsAreTheirMaps }
{}

/// Valid lists over arcs that are apart stitch to the lines and rings of a map.
#[tactic(auto, using(crate::proofs::Together::lists_make_a_map))]
pub fn lists_make_a_map()
    ensures { law.ListsMakeAMap }
{}

/// The arcs are those of that map, with its free loops, and the list of each ring is the one that the
/// map's topology has.
pub fn lists_are_the_maps()
    ensures { law.ListsAreTheMaps }
{}

/// Each list is read as it is.
pub fn lists_are_read()
    ensures { law.ListsAreRead }
{}
