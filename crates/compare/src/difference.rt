//! The difference of two layers.
ghost use Rattle.compare.specs.Placed.{IsDifferenceAt};
ghost use Rattle.compare.specs.Keyed.{keys_in};
ghost use Rattle.std.specs.Prelude.{◌≡◌, IfOk, length};

use crate::index::Index;
use crate::keys::Keys;
use crate::partners::{numbers_gone, pairs_changed};
use std::alloc::{AllocError, Global};
use topo::Geom;

/// Two features that have one id, which no other feature has in either layer, and that differ: their numbers
/// in the old layer and in the new one.
#[derive(Clone, Copy, PartialEq, Eq, Debug)]
pub struct Changed {
    /// The number of the feature in the old layer.
    pub old: usize,
    /// The number of the feature in the new layer.
    pub new: usize,
}

/// What differs between a layer of an old topology and that of the same name in a new one. Numbers count the
/// geometries of a layer from 0, in its order; all lists ascend.
#[derive(PartialEq, Eq, Drop, Debug)]
pub struct LayerDifference {
    /// The numbers of the features that only the old layer has, and that are not among `changed`.
    pub removed: Vec<usize>,
    /// The numbers of the features that only the new layer has, and that are not among `changed`.
    pub added: Vec<usize>,
    /// The features that have one id, or one key, and differ. Features without one, and those whose id or key occurs
    /// more than once in a layer, are removed and added.
    pub changed: Vec<Changed>,
}

/// The difference of two lists of geometries by the same arcs, which pair by their keys, of which there are as many.
pub(crate) fn difference_of<'a>(
    alloc: Global,
    old: &'a [Geom],
    old_keys: Keys<'a>,
    new: &'a [Geom],
    new_keys: Keys<'a>,
) -> Result<LayerDifference, AllocError>
    requires old { length (keys_in old_keys) ≡ length old.now }
    requires new { length (keys_in new_keys) ≡ length new.now }
    ensures { IfOk result (λ d. IsDifferenceAt old.now new.now (keys_in old_keys.entry) (keys_in new_keys.entry) d) }
{
    let olds = Index::of(alloc, old, old_keys)?;
    let news = Index::of(alloc, new, new_keys)?;
    let removed = numbers_gone(alloc, &olds, &news)?;
    let added = numbers_gone(alloc, &news, &olds)?;
    let changed = pairs_changed(alloc, &olds, &news)?;
    Ok(LayerDifference {
        removed,
        added,
        changed,
    })
}
