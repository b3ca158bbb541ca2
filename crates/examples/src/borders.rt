//! The borders of neighbours, as a map maker reads them.

use chains::table::ArcRef;
use query::neighbors;
use serde_json::Value;
use std::alloc::Global;
use std::collections::BTreeSet;
use topo::{Body, Geom, Topology};

fn add_arcs(used: &mut BTreeSet<usize>, ring: &[ArcRef]) -> Option<()> {
    for arc in ring {
        used.insert(arc.arc).ok()?;
    }
    Some(())
}

/// The arcs that a district's rings use, by their numbers in the table.
fn arcs_used(alloc: Global, district: &Geom) -> Option<BTreeSet<usize>> {
    let mut used = BTreeSet::new(alloc);
    if let Body::Polygon(rings) = &district.body {
        for ring in rings.as_slice() {
            add_arcs(&mut used, ring.as_slice())?;
        }
    }
    Some(used)
}

/// The arcs that two districts share, ascending.
fn border(alloc: Global, district: &Geom, other: &Geom) -> Option<Vec<usize>> {
    let used = arcs_used(alloc, district)?;
    let mut shared = Vec::new(alloc);
    for arc in arcs_used(alloc, other)?.iter() {
        if used.contains(arc) {
            shared.push(*arc).ok()?;
        }
    }
    Some(shared)
}

/// A district's name, which its properties have.
fn name_of(alloc: Global, district: &Geom) -> Option<String> {
    let properties = Value::from_str(alloc, district.props.text()).ok()?;
    String::from_str(alloc, properties.get("name")?.as_str()?).ok()
}

fn print_border(rt: &HostRuntime, district: &Geom, other: &Geom) -> Option<()> {
    let name = name_of(rt.alloc(), district)?;
    let other_name = name_of(rt.alloc(), other)?;
    let arcs = border(rt.alloc(), district, other)?;
    println!(rt; "{name} and {other_name} share the arcs {arcs:?}").ok()
}

/// Prints a line for each two neighbours of a layer: their names, and the arcs of their border.
pub fn print_borders(rt: &HostRuntime, topology: &Topology, layer: &str) -> Option<()> {
    let districts = topology.geometries(layer)?;
    let lists = neighbors(rt.alloc(), topology, layer).ok()?;
    for (place, others) in lists.iter().enumerate() {
        for other in others {
            if place < *other {
                print_border(rt, districts.get(place)?, districts.get(*other)?)?;
            }
        }
    }
    Some(())
}
