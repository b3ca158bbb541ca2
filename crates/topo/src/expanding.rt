//! The map that a topology holds: its features, stitched from the arcs.
ghost use Rattle.shapes.specs.Maps.{Layers, with_features};
ghost use Rattle.shapes.specs.Parts.{spelled_text};
ghost use Rattle.shapes.specs.Sets.{from_list};
ghost use Rattle.shapes.specs.declared.feature.Feature as features;
ghost use Rattle.std.specs.Prelude.{◌≡◌, IfOk, List};
ghost use Rattle.topo.specs.Features.{AreFeaturesOf, IsFeatureOf};
ghost use Rattle.topo.specs.OfMap.{IsOf};

use crate::geom::Geom;
use crate::stitching::feature;
use crate::topology::{Layer, Topology};
use faults::OutOfMemory;
use shapes::feature::Feature;
use shapes::feature_map::FeatureMap;
use shapes::layer::feature_set;
use std::alloc::Global;

impl Topology {
    /// The feature that a geometry of this topology stitches to: the geometry's id and properties, and
    /// its lines and rings put together from the arcs (TopoJSON section 2.1.4).
    ///
    /// # Errors
    /// Where memory is refused.
    pub fn feature(&self, alloc: Global, geometry: &Geom) -> Result<Feature, OutOfMemory>
        requires { (f : features.Feature) × IsFeatureOf self.now.arcs.arcs f geometry.now }
        ensures { IfOk result (λ made. (f : features.Feature) → IsFeatureOf self.now.arcs.arcs f geometry.now → made ≡ f) }
    {
        feature(alloc, self.arcs(), geometry)
    }

    /// The features that geometries of this topology stitch to, in order.
    ///
    /// # Errors
    /// Where memory is refused.
    pub fn features(&self, alloc: Global, geometries: &[Geom]) -> Result<Vec<Feature>, OutOfMemory>
        requires { (fs : List features.Feature) × AreFeaturesOf self.now.arcs.arcs fs geometries.now }
        ensures { IfOk result (λ made. (fs : List features.Feature) → AreFeaturesOf self.now.arcs.arcs fs geometries.now → made.items ≡ fs) }
    {
        let mut features = Vec::with_capacity(alloc, geometries.len())?;
        for geometry in geometries {
            features.push(self.feature(alloc, geometry)?)?;
        }
        Ok(features)
    }

    fn put_layer(
        &self,
        alloc: Global,
        map: FeatureMap,
        layer: &Layer,
    ) -> Result<FeatureMap, OutOfMemory>
        requires { (fs : List features.Feature) × AreFeaturesOf self.now.arcs.arcs fs layer.now.geometries }
        ensures { IfOk result (λ made. (fs : List features.Feature) → AreFeaturesOf self.now.arcs.arcs fs layer.now.geometries
            → made ≡ with_features map (spelled_text layer.now.name) (from_list fs)) }
    {
        let features = self.features(alloc, layer.geometries())?;
        let features = feature_set(alloc, features)?;
        map.with_features(layer.name().text(), features)
    }

    /// The map that the topology is of: under each layer's name the features that stitching its
    /// geometries gives (TopoJSON section 2.1.4). For a topology that was built it is the map it was
    /// built from.
    ///
    /// # Errors
    /// Where memory is refused.
    pub fn expand(&self, alloc: Global) -> Result<FeatureMap, OutOfMemory>
        ensures of_map { IfOk result (λ made. IsOf made self.now) }
        ensures only { IfOk result (λ made. (m : Layers) → IsOf m self.now → made ≡ m) }
    {
        let mut map = FeatureMap::new(alloc);
        for layer in self.layers() {
            map = self.put_layer(alloc, map, layer)?;
        }
        Ok(map)
    }
}
