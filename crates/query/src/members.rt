//! The features of a topology, beside the bodies that hold them by arcs.
ghost use Rattle.query.specs.Members.{held, paired, by_feature, AreMembers};
ghost use Rattle.query.specs.Mesh.{IsMissing};
ghost use Rattle.query.specs.declared.fault.QueryFault.TheVariants.{NoLayer as MissingLayer};
ghost use Rattle.shapes.specs.declared.feature.Feature as features;
ghost use Rattle.std.specs.List.Sorted.{IsPermutation, IsSorted};
ghost use Rattle.std.specs.Option.{option_map};
ghost use Rattle.std.specs.Prelude.{◌≡◌, ◌↔◌, ◌++◌, IfOk, OnOk, Err, List, map as map_list};
ghost use Rattle.topo.specs.Features.{AreFeaturesOf};
ghost use Rattle.topo.specs.ItsMap.{ForItsMap};
ghost use Rattle.topo.specs.OfMap.{IsOfSomeMap};

use crate::fault::QueryFault;
use crate::scope::layers_in;
use faults::OutOfMemory;
use shapes::feature::Feature;
use std::alloc::Global;
use topo::{Body, Geom, Topology};

/// A feature, and its shape by arcs.
#[derive(Drop)]
pub(crate) struct Member<'a> {
    pub(crate) feature: Feature,
    pub(crate) body: &'a Body,
}

fn add_layer<'a>(
    alloc: Global,
    members: &mut Vec<Member<'a>>,
    topology: &Topology,
    geometries: &'a [Geom],
) -> Result<(), OutOfMemory>
    requires { (fs : List features.Feature) × AreFeaturesOf topology.now.arcs.arcs fs geometries.now }
    ensures { OnOk result ((fs : List features.Feature) → AreFeaturesOf topology.now.arcs.arcs fs geometries.now → map_list held members.new.items ≡ map_list held members.old.items ++ paired fs geometries.now) }
{
    for geometry in geometries {
        let feature = topology.feature(alloc, geometry)?;
        members.push(Member {
            feature,
            body: &geometry.body,
        })?;
    }
    Ok(())
}

fn sort_members(members: &mut Vec<Member>)
    ensures permutation { IsPermutation members.old.items members.new.items }
    ensures sorted { IsSorted by_feature members.new.items }
{
    members.sort_unstable_by(|a, b| a.feature.cmp(&b.feature));
}

/// The features of a layer, or without a layer those of all layers, in their order.
pub(crate) fn members_of<'a>(
    alloc: Global,
    topology: &'a Topology,
    name: Option<&str>,
) -> Result<Vec<Member<'a>>, QueryFault>
    requires { IsOfSomeMap topology.now }
    ensures layer { ForItsMap topology.now (λ m. (result ≡ Err MissingLayer) ↔ IsMissing m (option_map (λ n. n.now) name.entry)) }
    ensures members { IfOk result (λ v. ForItsMap topology.now (λ m. AreMembers m topology.now (option_map (λ n. n.now) name.entry) v.items)) }
{
    let layers = layers_in(topology, name)?;
    let mut members = Vec::new(alloc);
    for layer in layers {
        add_layer(alloc, &mut members, topology, layer.geometries())?;
    }
    sort_members(&mut members);
    Ok(members)
}
