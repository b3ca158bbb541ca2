//! Layers with their geometries sorted.
ghost use Rattle.std.specs.Prelude.{IfOk};
ghost use Rattle.topo.specs.GeometryOrder.Noted.{IsRecordedFor};
ghost use Rattle.validate.specs.Accept.Sorting.{AreSorted, IsSortedLayer};

use chains::table::ArcTable;
use faults::OutOfMemory;
use std::alloc::Global;
use topo::Layer;
use topo::geometry_order::GeometryOrder;

fn layer_sorted(
    alloc: Global,
    arcs: &ArcTable,
    order: &mut GeometryOrder,
    layer: Layer,
) -> Result<Layer, OutOfMemory>
    requires recorded { IsRecordedFor arcs.now.arcs order.old }
    ensures recorded { IsRecordedFor arcs.now.arcs order.new }
    ensures sorted { IfOk result (λ l. IsSortedLayer arcs.now.arcs layer l) }
{
    let (name, geometries) = layer.into_parts();
    let sorted = order.sort(alloc, arcs, geometries)?;
    Ok(Layer::new(name, sorted))
}

/// The layers, in each of which the geometries are sorted by the features that they stitch to over the
/// arcs of a table, which are noded. Geometries that are equal are there once.
///
/// # Errors
/// Where memory is refused.
pub fn layers_sorted(
    alloc: Global,
    arcs: &ArcTable,
    layers: Vec<Layer>,
) -> Result<Vec<Layer>, OutOfMemory>
    ensures { IfOk result (λ ls. AreSorted arcs.now.arcs layers.items ls.items) }
{
    let mut order = GeometryOrder::new();
    let mut sorted = Vec::with_capacity(alloc, layers.len())?;
    for layer in layers {
        sorted.push(layer_sorted(alloc, arcs, &mut order, layer)?)?;
    }
    Ok(sorted)
}
