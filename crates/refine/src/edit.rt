//! Edits of a topology.

use shapes::feature_map::FeatureMap;
use topo::topology::Topology;

/// An edit of a topology.
#[derive(Drop)]
pub enum Edit {
    /// The features of this topology, on the same grid, are added.
    Join(Topology),
    /// The features that this map has under a layer's name are taken out of that layer, where they
    /// are in it. Layers stay, also when nothing is left of them.
    Remove(FeatureMap),
}
