//! The features of a layer.
ghost use Rattle.query.specs.declared.fault.QueryFault.TheVariants.{NoLayer as MissingLayer};
ghost use Rattle.shapes.specs.Maps.{features_at};
ghost use Rattle.shapes.specs.Sets as set;
ghost use Rattle.std.specs.FinMap as map;
ghost use Rattle.std.specs.Prelude.{◌≡◌, ◌↔◌, Err, IfOk, IsTrue};
ghost use Rattle.topo.specs.ItsMap.{ForItsMap};

use crate::fault::QueryFault;
use faults::OutOfMemory;
use shapes::feature::Feature;
use std::alloc::Global;
use topo::Topology;

/// The features of a layer, in their order, stitched from the arcs of the layer's geometries alone.
///
/// # Errors
/// `NoLayer` exactly where the topology has no layer of that name; `OutOfMemory`.
pub fn feature(alloc: Global, topology: &Topology, layer: &str) -> Result<Vec<Feature>, QueryFault>
    ensures layer { ForItsMap topology.now (λ m. (result ≡ Err MissingLayer) ↔ (¬ IsTrue (map.contains_key m layer.now))) }
    ensures features { IfOk result (λ made. ForItsMap topology.now (λ m. made.items ≡ set.items (features_at m layer.now))) }
{
    let Some(geometries) = topology.geometries(layer) else {
        return Err(QueryFault::NoLayer);
    };
    Ok(topology.features(alloc, geometries)?)
}
