//! Which features of a layer are neighbours: those that share a segment, so an arc.
ghost use Rattle.query.specs.ArcUsers.{AreInOrder, AreListsBy, with_index, with_indexes, with_index_at, with_index_in, others, user_of as user_at};
ghost use Rattle.query.specs.EachOnce.{borrowed};
ghost use Rattle.query.specs.Neighbors.{ListsNeighbors};
ghost use Rattle.query.specs.declared.fault.QueryFault.TheVariants.{NoLayer as MissingLayer};
ghost use Rattle.shapes.specs.Maps.{features_at};
ghost use Rattle.shapes.specs.Sets as set;
ghost use Rattle.std.specs.FinMap as map;
ghost use Rattle.std.specs.Prelude.{◌≡◌, ◌↔◌, IfOk, OnOk, Err, IsTrue, [], map as map_list, replicate};
ghost use Rattle.topo.specs.ItsMap.{ForItsMap};

use crate::arc_users::{ArcUser, of_arc, user_of, users_by};
use crate::distinct::add_geometries;
use crate::fault::QueryFault;
use crate::users::uses_by;
use crate::uses::Use;
use std::alloc::{AllocError, Global};
use topo::{Geom, Topology};

fn empty_lists(alloc: Global, count: usize) -> Result<Vec<Vec<usize>>, AllocError>
    ensures { IfOk result (λ v. map_list (λ l. l.items) v.items ≡ replicate count []) }
{
    let mut lists = Vec::with_capacity(alloc, count)?;
    for _ in 0..count {
        lists.push(Vec::new(alloc))?;
    }
    Ok(lists)
}

/// Puts an index at the end of a list, unless it is there.
fn add_once(list: &mut Vec<usize>, index: usize) -> Result<(), AllocError>
    ensures { OnOk result (list.new.items ≡ with_index list.old.items index) }
{
    match list.last() {
        Some(last) if *last == index => Ok(()),
        _ => Ok(list.push(index)?),
    }
}

/// Adds an index to the list of another one.
fn add_to_list(lists: &mut Vec<Vec<usize>>, other: usize, index: usize) -> Result<(), AllocError>
    ensures { OnOk result (map_list (λ l. l.items) lists.new.items ≡ with_index_at index (map_list (λ l. l.items) lists.old.items) other) }
{
    match lists.get_mut(other) {
        Some(list) => Ok(add_once(list, index)?),
        None => Ok(()),
    }
}

/// Adds an index to the lists of users.
fn add_to_lists(
    lists: &mut Vec<Vec<usize>>,
    users: &[ArcUser],
    index: usize,
) -> Result<(), AllocError>
    ensures { OnOk result (map_list (λ l. l.items) lists.new.items ≡ with_index_in index (map_list (λ l. l.items) lists.old.items) users.now) }
{
    for user in users {
        add_to_list(lists, user.index, index)?;
    }
    Ok(())
}

/// Adds the index of a user to the lists of its arc's users that are of other classes.
fn add_index_of(
    lists: &mut Vec<Vec<usize>>,
    users: &[ArcUser],
    user: ArcUser,
) -> Result<(), AllocError>
    requires { AreInOrder users.now }
    ensures { OnOk result (map_list (λ l. l.items) lists.new.items ≡ with_index_in user.index (map_list (λ l. l.items) lists.old.items) (others user users.now)) }
{
    let here = of_arc(users, user.arc);
    let (before, from) = here.split_at(here.partition_point(|other| other.class < user.class));
    let (_, behind) = from.split_at(from.partition_point(|other| other.class <= user.class));
    add_to_lists(lists, before, user.index)?;
    Ok(add_to_lists(lists, behind, user.index)?)
}

/// For each of so many indexes the others with which it shares an arc, and that are of other classes.
fn lists_of(
    alloc: Global,
    count: usize,
    uses: &[Use],
    users: &[ArcUser],
    classes: &[usize],
) -> Result<Vec<Vec<usize>>, AllocError>
    requires { AreInOrder users.now }
    ensures { IfOk result (λ v. map_list (λ l. l.items) v.items ≡ with_indexes classes.now users.now (replicate count []) uses.now) }
{
    let mut lists = empty_lists(alloc, count)?;
    for used in uses {
        add_index_of(&mut lists, users, user_of(classes, *used))?;
    }
    Ok(lists)
}

/// For each of the geometries, in order, the indexes of the others that share an arc with it and are of other classes,
/// ascending. A geometry without a class is a class of its own.
pub(crate) fn lists_by(
    alloc: Global,
    geometries: &[&Geom],
    classes: &[usize],
) -> Result<Vec<Vec<usize>>, AllocError>
    ensures { IfOk result (λ v. AreListsBy (borrowed geometries.now) classes.now (map_list (λ l. l.items) v.items)) }
{
    let mut uses = uses_by(alloc, geometries)?;
    uses.sort_unstable();
    uses.dedup();
    let users = users_by(alloc, &uses, classes)?;
    Ok(lists_of(alloc, geometries.len(), &uses, &users, classes)?)
}

/// For each feature of a layer, in order, the indexes of the other features of the layer that share a
/// segment with it, ascending.
///
/// # Errors
/// `NoLayer` where the topology has no layer of that name; `OutOfMemory`.
pub fn neighbors(
    alloc: Global,
    topology: &Topology,
    layer: &str,
) -> Result<Vec<Vec<usize>>, QueryFault>
    ensures layer { ForItsMap topology.now (λ m. (result ≡ Err MissingLayer) ↔ (¬ IsTrue (map.contains_key m layer.now))) }
    ensures neighbors { IfOk result (λ lists. ForItsMap topology.now (λ m. ListsNeighbors (set.items (features_at m layer.now)) (map_list (λ l. l.items) lists.items))) }
{
    let Some(geometries) = topology.geometries(layer) else {
        return Err(QueryFault::NoLayer);
    };
    let mut found = Vec::new(alloc);
    add_geometries(&mut found, geometries)?;
    Ok(lists_by(alloc, &found, &[])?)
}
