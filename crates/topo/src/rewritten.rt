//! Geometries and layers by their new lists. Ids, properties, points, names and the order stay.
ghost use Rattle.std.specs.Prelude.{◌≡◌, IfOk, List, cond, map as map_list};
ghost use Rattle.theory.specs.ArcNumbers as numbers;
ghost use Rattle.topo.specs.Rewritten as rewritten;

use crate::{Body, Geom, Layer};
use arcs::NewLists;
use chains::table::ArcRef;
use faults::OutOfMemory;
use lines::items::Items;
use shapes::form_map::Become;
use std::alloc::Global;

/// The lists of lines, or those of rings, by their rule.
#[derive(Drop)]
struct NewList<'a, L> {
    lists: &'a L,
    ring: bool,
}

impl<'a, L: NewLists> Become<Items<ArcRef>> for NewList<'a, L> {
    type Made = Items<ArcRef>;

    ghost Seen = { List numbers.ArcRef };

    ghost seen = { λ used. used };

    ghost becomes = { λ n used. cond n.ring (L.ring_of n.lists.now used) (L.line_of n.lists.now used) };

    fn make(&self, alloc: Global, old: &Items<ArcRef>) -> Result<Items<ArcRef>, OutOfMemory> {
        if self.ring {
            return Ok(Items::from_vec(self.lists.ring(alloc, old.as_slice())?));
        }
        Ok(Items::from_vec(self.lists.line(alloc, old.as_slice())?))
    }
}

fn body_copied<L: NewLists>(alloc: Global, lists: &L, body: &Body) -> Result<Body, OutOfMemory>
    ensures { IfOk result (λ b. b ≡ rewritten.body_rewritten (L.line_of lists.now) (L.ring_of lists.now) body.now) }
{
    let line = NewList { lists, ring: false };
    let ring = NewList { lists, ring: true };
    let made = body.try_map(alloc, &line, &ring)?;
    Ok(made)
}

/// The body by its new lists; points, which have none, are moved.
fn body_rewritten<L: NewLists>(alloc: Global, lists: &L, body: Body) -> Result<Body, OutOfMemory>
    ensures { IfOk result (λ b. b ≡ rewritten.body_rewritten (L.line_of lists.now) (L.ring_of lists.now) body) }
{
    match body {
        Body::Null | Body::Point(_) | Body::MultiPoint(_) => Ok(body),
        _ => body_copied(alloc, lists, &body),
    }
}

/// A geometry by its new lists: id, properties and points are copied.
///
/// # Errors
/// Where memory is refused.
pub fn copy_rewritten<L: NewLists>(
    alloc: Global,
    lists: &L,
    geometry: &Geom,
) -> Result<Geom, OutOfMemory>
    ensures { IfOk result (λ g. g ≡ rewritten.geometry_rewritten (L.line_of lists.now) (L.ring_of lists.now) geometry.now) }
{
    let id = geometry.id.copy(alloc)?;
    let props = geometry.props.copy(alloc)?;
    let body = body_copied(alloc, lists, &geometry.body)?;
    Ok(Geom { id, props, body })
}

/// A geometry by its new lists: id, properties and points are moved.
///
/// # Errors
/// Where memory is refused.
pub fn geometry_rewritten<L: NewLists>(
    alloc: Global,
    lists: &L,
    geometry: Geom,
) -> Result<Geom, OutOfMemory>
    ensures { IfOk result (λ g. g ≡ rewritten.geometry_rewritten (L.line_of lists.now) (L.ring_of lists.now) geometry) }
{
    let Geom { id, props, body } = geometry;
    let body = body_rewritten(alloc, lists, body)?;
    Ok(Geom { id, props, body })
}

/// Geometries by their new lists, in their order.
///
/// # Errors
/// Where memory is refused.
pub fn geometries_rewritten<L: NewLists>(
    alloc: Global,
    lists: &L,
    geometries: Vec<Geom>,
) -> Result<Vec<Geom>, OutOfMemory>
    ensures { IfOk result (λ v. v.items ≡ map_list (rewritten.geometry_rewritten (L.line_of lists.now) (L.ring_of lists.now)) geometries.items) }
{
    let mut made = Vec::with_capacity(alloc, geometries.len())?;
    for geometry in geometries {
        made.push(geometry_rewritten(alloc, lists, geometry)?)?;
    }
    Ok(made)
}

/// A layer by the new lists of its geometries, which stay in their order.
///
/// # Errors
/// Where memory is refused.
pub fn layer_rewritten<L: NewLists>(
    alloc: Global,
    lists: &L,
    layer: Layer,
) -> Result<Layer, OutOfMemory>
    ensures { IfOk result (λ l. l ≡ rewritten.layer_rewritten (L.line_of lists.now) (L.ring_of lists.now) layer) }
{
    let (name, geometries) = layer.into_parts();
    let geometries = geometries_rewritten(alloc, lists, geometries)?;
    Ok(Layer::new(name, geometries))
}

/// Layers by the new lists of their geometries, in their order.
///
/// # Errors
/// Where memory is refused.
pub fn layers_rewritten<L: NewLists>(
    alloc: Global,
    lists: &L,
    layers: Vec<Layer>,
) -> Result<Vec<Layer>, OutOfMemory>
    ensures { IfOk result (λ v. v.items ≡ map_list (rewritten.layer_rewritten (L.line_of lists.now) (L.ring_of lists.now)) layers.items) }
{
    let mut made = Vec::with_capacity(alloc, layers.len())?;
    for layer in layers {
        made.push(layer_rewritten(alloc, lists, layer)?)?;
    }
    Ok(made)
}
