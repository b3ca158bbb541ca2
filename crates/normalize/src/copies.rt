//! Copies of layers by new lists of used arcs.
ghost use Rattle.std.specs.Prelude.{◌≡◌, IfOk, map as map_list};
ghost use Rattle.topo.specs.Rewritten.{geometry_rewritten, layer_rewritten};

use arcs::NewLists;
use faults::OutOfMemory;
use std::alloc::Global;
use topo::{Geom, Layer, copy_rewritten};

fn geometries_copied<L: NewLists>(
    alloc: Global,
    lists: &L,
    geometries: &[Geom],
) -> Result<Vec<Geom>, OutOfMemory>
    ensures { IfOk result (λ v. v.items ≡ map_list (geometry_rewritten (L.line_of lists.now) (L.ring_of lists.now)) geometries.now) }
{
    let mut made = Vec::with_capacity(alloc, geometries.len())?;
    for geometry in geometries {
        made.push(copy_rewritten(alloc, lists, geometry)?)?;
    }
    Ok(made)
}

fn layer_copied<L: NewLists>(alloc: Global, lists: &L, layer: &Layer) -> Result<Layer, OutOfMemory>
    ensures { IfOk result (λ l. l ≡ layer_rewritten (L.line_of lists.now) (L.ring_of lists.now) layer.now) }
{
    let name = layer.name().copy(alloc)?;
    let geometries = geometries_copied(alloc, lists, layer.geometries())?;
    Ok(Layer::new(name, geometries))
}

/// The layers by their new lists; all else is copied.
pub(crate) fn layers_copied<L: NewLists>(
    alloc: Global,
    lists: &L,
    layers: &[Layer],
) -> Result<Vec<Layer>, OutOfMemory>
    ensures { IfOk result (λ v. v.items ≡ map_list (layer_rewritten (L.line_of lists.now) (L.ring_of lists.now)) layers.now) }
{
    let mut made = Vec::with_capacity(alloc, layers.len())?;
    for layer in layers {
        made.push(layer_copied(alloc, lists, layer)?)?;
    }
    Ok(made)
}
