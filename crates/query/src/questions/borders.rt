//! The borders that are asked for by how many features have them.
ghost use Rattle.query.specs.Mesh.{Answers, AreBorders, IsMissing};
ghost use Rattle.query.specs.declared.fault.QueryFault.TheVariants.{NoLayer as MissingLayer};
ghost use Rattle.std.specs.Option.{option_map};
ghost use Rattle.std.specs.Prelude.{◌≡◌, ◌↔◌, IfOk, Err};
ghost use Rattle.topo.specs.ItsMap.{ForItsMap};

use crate::distinct::distinct_geometries;
use crate::edges::Edges;
use crate::fault::QueryFault;
use crate::joined::lines_over;
use crate::scope::layers_in;
use crate::spans::spans_by;
use crate::users::{asked_arcs, uses_by};
use chains::ArcTable;
use std::alloc::Global;
use topo::Topology;

/// The borders of a layer's features, or without a layer of the features of all layers, as lines: those
/// of all segments, of the segments that two features or more have, or of those that one has alone. It
/// is `mesh` with a filter that says yes always, where its two features differ, or where they are one.
/// No feature is stitched: two features are one where their geometries are equal.
///
/// # Errors
/// `NoLayer` where the topology has no layer of that name; `OutOfMemory`.
pub fn borders(
    alloc: Global,
    topology: &Topology,
    layer: Option<&str>,
    edges: Edges,
) -> Result<ArcTable, QueryFault>
    ensures layer { ForItsMap topology.now (λ m. (result ≡ Err MissingLayer) ↔ IsMissing m (option_map (λ n. n.now) layer.entry)) }
    ensures lines { IfOk result (AreBorders topology.now (option_map (λ n. n.now) layer.entry) (Answers edges)) }
{
    let arcs = topology.arcs();
    let layers = layers_in(topology, layer)?;
    let geometries = distinct_geometries(alloc, layers)?;
    let uses = uses_by(alloc, &geometries)?;
    let spans = spans_by(alloc, arcs.len(), &uses)?;
    let asked = asked_arcs(alloc, &spans, edges)?;
    Ok(lines_over(alloc, topology, &asked)?)
}
