//! The law by which a join compares lists of arcs, as the contract of a function that does nothing.
ghost use Rattle.topo.specs.LayerLaws.CutLaws.{EqualFeaturesEqualLists};

/// By the arcs of one map, features are equal exactly where the ids, the properties and the lists of
/// arcs of their geometries are: so a join, which has both sides by the arcs of both together, finds
/// the features that both have by their lists alone.
pub fn equal_features_equal_lists()
    ensures { EqualFeaturesEqualLists }
{}
