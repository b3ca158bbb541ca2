//! Laws of valid layers, each promised by a function that does nothing.
ghost use Rattle.validate.specs.Accept.Laws as law;

/// Where layers are valid over arcs that are apart, each geometry stitches to a feature.
#[tactic(auto, using(crate::proofs::AcceptLemmas::StitchedFeatures::geometries_have_features))]
pub fn geometries_have_features()
    ensures { law.GeometriesHaveFeatures }
{}

/// Where they are in order too, they stitch to the layers of a map.
pub fn layers_make_a_map()
    ensures { law.LayersMakeAMap }
{}

/// The table of arcs and the layers are the parts of that map's topology.
#[tactic(auto, using(crate::proofs::AcceptLemmas::PartsOfMaps::layers_are_the_maps))]
pub fn layers_are_the_maps()
    ensures { law.LayersAreTheMaps }
{}
