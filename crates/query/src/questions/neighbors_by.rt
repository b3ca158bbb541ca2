//! Which features of a layer are neighbours, and differ in a property.
ghost use Rattle.query.specs.ByProperty.{ListsNeighborsBy};
ghost use Rattle.query.specs.declared.fault.QueryFault.TheVariants.{NoLayer as MissingLayer};
ghost use Rattle.shapes.specs.Maps.{features_at};
ghost use Rattle.shapes.specs.Sets as set;
ghost use Rattle.std.specs.FinMap as map;
ghost use Rattle.std.specs.Prelude.{◌≡◌, ◌↔◌, IfOk, Err, IsTrue, map as map_list};
ghost use Rattle.topo.specs.ItsMap.{ForItsMap};

use crate::distinct::add_geometries;
use crate::fault::QueryFault;
use crate::properties::classes_of;
use crate::questions::neighbors::lists_by;
use std::alloc::Global;
use topo::Topology;

/// For each feature of a layer, in order, the indexes of the other features of the layer that share a segment with it and
/// whose values of the property differ from its own, ascending. A feature without the property, or where it is null,
/// differs from every other feature.
///
/// # Errors
/// `NoLayer` where the topology has no layer of that name; `OutOfMemory`.
pub fn neighbors_by(
    alloc: Global,
    topology: &Topology,
    layer: &str,
    property: &str,
) -> Result<Vec<Vec<usize>>, QueryFault>
    ensures layer { ForItsMap topology.now (λ m. (result ≡ Err MissingLayer) ↔ (¬ IsTrue (map.contains_key m layer.now))) }
    ensures neighbors { IfOk result (λ lists. ForItsMap topology.now (λ m. ListsNeighborsBy property.now (set.items (features_at m layer.now)) (map_list (λ l. l.items) lists.items))) }
{
    let Some(geometries) = topology.geometries(layer) else {
        return Err(QueryFault::NoLayer);
    };
    let mut found = Vec::new(alloc);
    add_geometries(&mut found, geometries)?;
    let classes = classes_of(alloc, &found, property)?;
    Ok(lists_by(alloc, &found, &classes)?)
}
