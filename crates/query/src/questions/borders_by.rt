//! The borders between features that differ in a property.
ghost use Rattle.query.specs.ByProperty.{AreBordersBy};
ghost use Rattle.query.specs.Mesh.{IsMissing};
ghost use Rattle.query.specs.declared.fault.QueryFault.TheVariants.{NoLayer as MissingLayer};
ghost use Rattle.std.specs.Option.{option_map};
ghost use Rattle.std.specs.Prelude.{◌≡◌, ◌↔◌, IfOk, Err};
ghost use Rattle.topo.specs.ItsMap.{ForItsMap};

use crate::distinct::distinct_geometries;
use crate::edges::Edges;
use crate::fault::QueryFault;
use crate::joined::lines_over;
use crate::properties::classes_of;
use crate::scope::layers_in;
use crate::spans::spans_by;
use crate::users::{asked_arcs, uses_by_class};
use chains::ArcTable;
use std::alloc::Global;
use topo::Topology;

/// The borders of a layer's features, or without a layer of the features of all layers, at which a property differs, as
/// lines: those of the segments that two features have whose values of the property differ. A feature without the
/// property, or where it is null, differs from every other feature. No feature is stitched.
///
/// # Errors
/// `NoLayer` where the topology has no layer of that name; `OutOfMemory`.
pub fn borders_by(
    alloc: Global,
    topology: &Topology,
    layer: Option<&str>,
    property: &str,
) -> Result<ArcTable, QueryFault>
    ensures layer { ForItsMap topology.now (λ m. (result ≡ Err MissingLayer) ↔ IsMissing m (option_map (λ n. n.now) layer.entry)) }
    ensures lines { IfOk result (AreBordersBy topology.now (option_map (λ n. n.now) layer.entry) property.now) }
{
    let arcs = topology.arcs();
    let layers = layers_in(topology, layer)?;
    let geometries = distinct_geometries(alloc, layers)?;
    let classes = classes_of(alloc, &geometries, property)?;
    let uses = uses_by_class(alloc, &geometries, &classes)?;
    let spans = spans_by(alloc, arcs.len(), &uses)?;
    let asked = asked_arcs(alloc, &spans, Edges::Interior)?;
    Ok(lines_over(alloc, topology, &asked)?)
}
