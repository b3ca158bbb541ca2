//! Which geometries of a layer have a partner in another layer, and which are gone.
ghost use Rattle.compare.specs.Differences.{Those};
ghost use Rattle.compare.specs.Indexed.{IsIndexOf};
ghost use Rattle.compare.specs.Keyed.{keys_in};
ghost use Rattle.compare.specs.Placed.{ArePairs, ArePartnersAt, IsGoneAt};
ghost use Rattle.shapes.specs.declared.shape.Id as ids;
ghost use Rattle.std.specs.Prelude.{◌≡◌, ◌↔◌, ◌<◌, IfNone, IfOk, IfSome, IsTrue, List, length, ℕ};
ghost use Rattle.topo.specs.declared.geom.Geom as geoms;

use crate::difference::Changed;
use crate::index::Index;
use std::alloc::{AllocError, Global};

/// The number of the geometry in the other layer that has the key of the one at a number, where the other layer hasn't
/// that one as it is, and the key occurs once in both.
fn partner<'a>(own: &Index<'a>, others: &Index<'a>, number: usize) -> Option<usize>
    requires geometry { number < length own.now.geometries.now }
    requires key { number < length (keys_in own.now.keys) }
    ensures some { IfSome result (λ j. IsIndexOf own.now.geometries.now (keys_in own.now.keys) own.now → (gs : List geoms.Geom) (ks : List ids.Id) → IsIndexOf gs ks others.now → ArePartnersAt own.now.geometries.now gs (keys_in own.now.keys) ks number j) }
    ensures none { IfNone result (IsIndexOf own.now.geometries.now (keys_in own.now.keys) own.now → (gs : List geoms.Geom) (ks : List ids.Id) → IsIndexOf gs ks others.now → (j : ℕ) → ¬ ArePartnersAt own.now.geometries.now gs (keys_in own.now.keys) ks number j) }
{
    let geometries = own.geometries;
    let geometry = &geometries[number];
    if others.has(geometry) {
        return None;
    }
    let key = own.keys.at(number);
    if own.only_with(key).is_none() {
        return None;
    }
    others.only_with(key)
}

/// Whether the other layer has neither the geometry at a number nor a partner of it.
fn is_gone<'a>(own: &Index<'a>, others: &Index<'a>, number: usize) -> bool
    requires geometry { number < length own.now.geometries.now }
    requires key { number < length (keys_in own.now.keys) }
    ensures { IsIndexOf own.now.geometries.now (keys_in own.now.keys) own.now → (gs : List geoms.Geom) (ks : List ids.Id) → IsIndexOf gs ks others.now → (IsTrue result ↔ IsGoneAt own.now.geometries.now gs (keys_in own.now.keys) ks number) }
{
    let geometries = own.geometries;
    if others.has(&geometries[number]) {
        return false;
    }
    partner(own, others, number).is_none()
}

/// The numbers of the geometries that are gone.
pub(crate) fn numbers_gone<'a>(
    alloc: Global,
    own: &Index<'a>,
    others: &Index<'a>,
) -> Result<Vec<usize>, AllocError>
    requires { length (keys_in own.now.keys) ≡ length own.now.geometries.now }
    ensures { IfOk result (λ v. IsIndexOf own.now.geometries.now (keys_in own.now.keys) own.now → (gs : List geoms.Geom) (ks : List ids.Id) → IsIndexOf gs ks others.now → Those (IsGoneAt own.now.geometries.now gs (keys_in own.now.keys) ks) (length own.now.geometries.now) v.items) }
{
    let mut gone = Vec::new(alloc);
    for number in 0..own.geometries.len() {
        if !is_gone(own, others, number) {
            continue;
        }
        gone.push(number)?;
    }
    Ok(gone)
}

/// The geometries that have a partner, with it.
pub(crate) fn pairs_changed<'a>(
    alloc: Global,
    own: &Index<'a>,
    others: &Index<'a>,
) -> Result<Vec<Changed>, AllocError>
    requires { length (keys_in own.now.keys) ≡ length own.now.geometries.now }
    ensures { IfOk result (λ v. IsIndexOf own.now.geometries.now (keys_in own.now.keys) own.now → (gs : List geoms.Geom) (ks : List ids.Id) → IsIndexOf gs ks others.now → ArePairs own.now.geometries.now gs (keys_in own.now.keys) ks (length own.now.geometries.now) v.items) }
{
    let mut changed = Vec::new(alloc);
    for old in 0..own.geometries.len() {
        let Some(new) = partner(own, others, old) else {
            continue;
        };
        changed.push(Changed { old, new })?;
    }
    Ok(changed)
}
