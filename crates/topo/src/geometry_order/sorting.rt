//! Geometries sorted.
ghost use Rattle.topo.specs.GeometryOrder.Keys.{keyed, keyed_cmp};
ghost use Rattle.topo.specs.GeometryOrder.Sorting.{IsSortedByKey};
ghost use Rattle.std.specs.Prelude.{◌≡◌, IfOk, map};

use crate::Geom;
use crate::geometry_order::keys::{BodyKey, LineSteps, RingSteps};
use crate::geometry_order::lists::Ordered;
use crate::order::info_order;
use faults::OutOfMemory;
use std::alloc::Global;
use std::cmp::Ordering;

/// A geometry, and what it is sorted by among those of its id and properties.
#[derive(Drop)]
struct Keyed {
    geometry: Geom,
    key: BodyKey,
}

fn keyed_order(keyed: &Keyed, other: &Keyed) -> Ordering
    ensures { result ≡ keyed_cmp keyed.now other.now }
{
    let order = info_order(&keyed.geometry, &other.geometry);
    if order.is_ne() {
        return order;
    }
    keyed.key.cmp(&other.key)
}

fn with_keys(
    alloc: Global,
    view: &Ordered,
    geometries: Vec<Geom>,
) -> Result<Vec<Keyed>, OutOfMemory>
    ensures { IfOk result (λ v. v.items ≡ map (keyed view.now.arcs.now.arcs view.now.least.now) geometries.items) }
{
    let (line, ring) = (LineSteps(view.arcs), RingSteps(&*view));
    let mut made = Vec::with_capacity(alloc, geometries.len())?;
    for geometry in geometries {
        let key = geometry.body.try_map(alloc, &line, &ring)?;
        made.push(Keyed { geometry, key })?;
    }
    Ok(made)
}

fn without_keys(alloc: Global, sorted: Vec<Keyed>) -> Result<Vec<Geom>, OutOfMemory>
    ensures { IfOk result (λ v. v.items ≡ map (λ k. k.geometry) sorted.items) }
{
    let mut geometries = Vec::with_capacity(alloc, sorted.len())?;
    for keyed in sorted {
        geometries.push(keyed.geometry)?;
    }
    Ok(geometries)
}

/// The geometries in the order of ids, properties and keys.
pub(crate) fn sorted_by_keys(
    alloc: Global,
    view: &Ordered,
    geometries: Vec<Geom>,
) -> Result<Vec<Geom>, OutOfMemory>
    ensures { IfOk result (λ v. IsSortedByKey view.now.arcs.now.arcs view.now.least.now geometries.items v.items) }
{
    let mut keyed = with_keys(alloc, view, geometries)?;
    keyed.sort_by(|one, other| keyed_order(one, other))?;
    let geometries = without_keys(alloc, keyed)?;
    Ok(geometries)
}
