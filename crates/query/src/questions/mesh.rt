//! The borders between features: lines over the segments that a filter selects.
ghost use Rattle.query.specs.Mesh.{InScope, IsMissing, MayAskWithin, AreBorders};
ghost use Rattle.query.specs.declared.fault.QueryFault.TheVariants.{NoLayer as MissingLayer};
ghost use Rattle.shapes.specs.declared.feature.Feature.{Feature};
ghost use Rattle.std.specs.Fn.{FnReturnsAtPair};
ghost use Rattle.std.specs.Option.{option_map};
ghost use Rattle.std.specs.Prelude.{◌≡◌, ◌↔◌, IfOk, Err};
ghost use Rattle.topo.specs.ItsMap.{ForItsMap};

use crate::fault::QueryFault;
use crate::joined::lines_over;
use crate::members::members_of;
use crate::selecting::choose;
use crate::spans::spans_of;
use chains::ArcTable;
use grid::pos::Pos;
use shapes::feature::Feature;
use std::alloc::{AllocError, Global};
use topo::Topology;

/// The borders of a layer's features, or without a layer of the features of all layers: the maximal
/// lines over the segments for which the filter says yes to the least and the greatest feature that
/// have them, which are one where only one has the segment. Lines stop at the vertices that lie on a
/// number of selected segments other than two; each is in its least direction, and they are sorted.
///
/// The filter has to answer about any two of these features, and about each with itself; about others it
/// is not asked. How often it is asked is not promised.
///
/// The features in scope are stitched, so it costs what they cost: where many use one long arc, far more
/// than the topology. `borders` stitches none.
///
/// # Errors
/// `NoLayer` where the topology has no layer of that name; `OutOfMemory`.
pub fn mesh<F: Fn(&Feature, &Feature) -> bool>(
    alloc: Global,
    topology: &Topology,
    layer: Option<&str>,
    filter: F,
) -> Result<ArcTable, QueryFault>
    requires { ForItsMap topology.now (λ m. MayAskWithin F.Fn filter (InScope m (option_map (λ n. n.now) layer))) }
    ensures layer { ForItsMap topology.now (λ m. (result ≡ Err MissingLayer) ↔ IsMissing m (option_map (λ n. n.now) layer.entry)) }
    ensures lines { IfOk result (AreBorders topology.now (option_map (λ n. n.now) layer.entry) (FnReturnsAtPair F.Fn filter)) }
{
    let arcs = topology.arcs();
    let members = members_of(alloc, topology, layer)?;
    let spans = spans_of(alloc, arcs.len(), &members)?;
    let chosen = choose(alloc, &spans, &members, &filter)?;
    Ok(lines_over(alloc, topology, &chosen)?)
}
