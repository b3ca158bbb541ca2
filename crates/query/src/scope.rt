//! The layers that a question is about.
ghost use Rattle.query.specs.Members.{AreLayersIn};
ghost use Rattle.query.specs.Mesh.{IsMissing};
ghost use Rattle.query.specs.declared.fault.QueryFault.TheVariants.{NoLayer as MissingLayer};
ghost use Rattle.shapes.specs.Parts.{spelled_text};
ghost use Rattle.std.specs.Option.{option_map};
ghost use Rattle.std.specs.Prelude.{◌≡◌, ◌↔◌, IfNone, IfOk, IfSome, Err};
ghost use Rattle.theory.specs.Lists.{Has};
ghost use Rattle.topo.specs.ItsMap.{ForItsMap};
ghost use Rattle.topo.specs.Parts.{LayerParts};

use crate::fault::QueryFault;
use std::slice;
use topo::{Layer, Topology};

fn layer_named<'a>(topology: &'a Topology, name: &str) -> Option<&'a Layer>
    ensures found { IfSome result (λ l. Has l.now topology.now.layers × (spelled_text l.now.name ≡ name.now)) }
    ensures none { IfNone result ((l : LayerParts) → Has l topology.now.layers → ¬ (spelled_text l.name ≡ name.now)) }
{
    topology
        .layers()
        .iter()
        .find(|layer| layer.name().text() == name)
}

/// The layer of a name, or without a name all layers.
pub(crate) fn layers_in<'a>(
    topology: &'a Topology,
    name: Option<&str>,
) -> Result<&'a [Layer], QueryFault>
    ensures layer { ForItsMap topology.now (λ m. (result ≡ Err MissingLayer) ↔ IsMissing m (option_map (λ n. n.now) name.entry)) }
    ensures layers { IfOk result (λ ls. AreLayersIn topology.now (option_map (λ n. n.now) name.entry) ls.now) }
{
    match name {
        Some(name) => match layer_named(topology, name) {
            Some(layer) => Ok(slice::from_ref(layer)),
            None => Err(QueryFault::NoLayer),
        },
        None => Ok(topology.layers()),
    }
}
