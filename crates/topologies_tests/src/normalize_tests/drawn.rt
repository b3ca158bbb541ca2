//! Arcs and layers of texts as tables of rows have them.
use crate::places::Arcs;
use chains::ArcRef;
use grid::Pos;
use lines::items::Items;
use normalize::{Normalized, WithoutRepeats, normalize, without_repeats};
use shapes::props::Props;
use shapes::shape::Id;
use shapes::spelled::Spelled;
use std::alloc::Global;
use std::test::Fail;
use topo::{Body, Geom, Layer};
use worked_maps::{boxed, boxed_some, lists, refs_of};

/// Lists of used arcs by their indexes.
pub(crate) type Lists = &'static [&'static [i64]];

/// A body by the indexes of its used arcs.
pub(crate) enum Listed {
    Null,
    Line(&'static [i64]),
    Lines(Lists),
    Polygon(Lists),
    /// Polygons, of which this is the only one.
    Polygons(Lists),
}

/// Layers of one geometry each, by their names and bodies.
pub(crate) type Layers = &'static [(&'static str, Listed)];

fn refs(alloc: Global, indexes: &[i64]) -> Result<Items<ArcRef>, Fail> {
    Ok(Items::from_vec(refs_of(alloc, indexes)?))
}

fn all_refs(alloc: Global, lists: Lists) -> Result<Items<Items<ArcRef>>, Fail> {
    let mut made = Vec::new(alloc);
    for indexes in lists {
        made.push(refs(alloc, *indexes)?)?;
    }
    Ok(Items::from_vec(made))
}

fn only_polygon(alloc: Global, lists: Lists) -> Result<Items<Items<Items<ArcRef>>>, Fail> {
    let mut polygons = Vec::new(alloc);
    polygons.push(all_refs(alloc, lists)?)?;
    Ok(Items::from_vec(polygons))
}

fn body(alloc: Global, listed: &Listed) -> Result<Body, Fail> {
    match listed {
        Listed::Null => Ok(Body::Null),
        Listed::Line(indexes) => Ok(Body::Line(refs(alloc, *indexes)?)),
        Listed::Lines(lists) => Ok(Body::MultiLine(all_refs(alloc, *lists)?)),
        Listed::Polygon(lists) => Ok(Body::Polygon(all_refs(alloc, *lists)?)),
        Listed::Polygons(lists) => Ok(Body::MultiPolygon(only_polygon(alloc, *lists)?)),
    }
}

fn geometry(alloc: Global, listed: &Listed) -> Result<Geom, Fail> {
    let props = Props::empty(alloc)?;
    let body = body(alloc, listed)?;
    Ok(Geom {
        id: Id::Number(7),
        props,
        body,
    })
}

/// A layer of one geometry.
fn layer(alloc: Global, name: &str, listed: &Listed) -> Result<Layer, Fail> {
    let mut geometries = Vec::new(alloc);
    geometries.push(geometry(alloc, listed)?)?;
    Ok(Layer::new(Spelled::new(alloc, name)?, geometries))
}

pub(crate) fn layers_of(alloc: Global, layers: Layers) -> Result<Vec<Layer>, Fail> {
    let mut made = Vec::new(alloc);
    for (name, listed) in layers {
        made.push(layer(alloc, name, listed)?)?;
    }
    Ok(made)
}

/// What comes of arcs and layers.
pub(crate) fn normalize_layers(
    alloc: Global,
    arcs: &[Items<Pos>],
    layers: Layers,
) -> Result<Option<Box<Normalized>>, Fail> {
    let layers = layers_of(alloc, layers)?;
    boxed_some(alloc, normalize(alloc, arcs, &layers))
}

fn is_body(alloc: Global, made: &Body, listed: &Listed) -> Result<bool, Fail> {
    let expected = Box::new(alloc, body(alloc, listed)?)?;
    Ok(*made == *expected)
}

/// Whether a layer has the one geometry of a body.
fn is_layer(alloc: Global, layer: &Layer, name: &str, listed: &Listed) -> Result<bool, Fail> {
    let Some(geometry) = layer.geometries().first() else {
        return Ok(false);
    };
    let is_named = layer.name().text() == name && geometry.id == Id::Number(7);
    Ok(is_named && is_body(alloc, &geometry.body, listed)?)
}

/// Whether these are the arcs.
fn are_arcs(alloc: Global, made: &[Items<Pos>], arcs: Arcs) -> Result<bool, Fail> {
    Ok(made == lists(alloc, arcs)?.as_slice())
}

/// What is left of arcs and layers without repeated positions.
pub(crate) fn left_without(
    alloc: Global,
    arcs: &[Items<Pos>],
    layers: Layers,
) -> Result<Option<Box<WithoutRepeats>>, Fail> {
    let layers = layers_of(alloc, layers)?;
    boxed_some(alloc, without_repeats(alloc, arcs, &layers))
}

/// Whether these arcs and layers are left.
pub(crate) fn is_left(
    alloc: Global,
    left: &WithoutRepeats,
    arcs: Arcs,
    layers: Layers,
) -> Result<bool, Fail> {
    Ok(are_arcs(alloc, &left.arcs, arcs)? && are_layers(alloc, &left.layers, layers)?)
}

fn are_layers(alloc: Global, made: &[Layer], layers: Layers) -> Result<bool, Fail> {
    for (layer, (name, listed)) in made.iter().zip(layers) {
        if !is_layer(alloc, layer, name, listed)? {
            return Ok(false);
        }
    }
    Ok(made.len() == layers.len())
}

/// Whether these arcs and layers were made.
pub(crate) fn is_made(
    alloc: Global,
    made: &Normalized,
    arcs: Arcs,
    layers: Layers,
) -> Result<bool, Fail> {
    let copy = boxed(alloc, made.arcs.copy(alloc))?;
    let made_arcs = Box::into_inner(copy).into_arcs(alloc)?;
    Ok(made_arcs == lists(alloc, arcs)? && are_layers(alloc, &made.layers, layers)?)
}
