//! The geometries of a layer, found by what they are and by their keys.
ghost use Rattle.compare.specs.Placed.{IsOnly};
ghost use Rattle.compare.specs.Indexed.{IsIndexOf, Knows, id_none, borrowed_id_cmp, once, occurrence_after, occurrences_of};
ghost use Rattle.compare.specs.Keyed.{keys_in};
ghost use Rattle.std.specs.BTreeMap as tree;
ghost use Rattle.std.specs.Prelude.{◌≡◌, ◌↔◌, ◌+◌, ◌<◌, IfNone, IfOk, IfSome, IsTrue, List, OnOk, Some, length, slice_get, ℕ};
ghost use Rattle.theory.specs.Lists.{Has};
ghost use Rattle.topo.specs.declared.geom.Geom as geoms;
ghost use Rattle.shapes.specs.declared.shape.Id as ids;

use crate::keys::Keys;
use shapes::shape::Id;
use std::alloc::{AllocError, Global};
use std::collections::BTreeMap;
use topo::Geom;

/// Where a key is.
#[derive(Clone, Copy, PartialEq, Eq, Debug)]
pub(crate) enum Occurrence {
    /// Once, at this number.
    Single(usize),
    /// More than once.
    Repeated,
}

/// The geometries of a layer, which of them there are, and where their keys are.
#[derive(Drop)]
pub(crate) struct Index<'a> {
    pub(crate) geometries: &'a [Geom],
    pub(crate) keys: Keys<'a>,
    numbers: BTreeMap<&'a Geom, usize>,
    occurrences: BTreeMap<&'a Id, Occurrence>,
}

/// Notes that a geometry is at a number.
fn add_geometry<'a>(
    numbers: &mut BTreeMap<&'a Geom, usize>,
    geometry: &'a Geom,
    number: usize,
) -> Result<(), AllocError>
    ensures { OnOk result ((gs : List geoms.Geom) → slice_get gs number ≡ Some geometry.now → Knows gs number numbers.old → Knows gs (number + 1) numbers.new) }
{
    numbers.insert(geometry, number)?;
    Ok(())
}

/// The geometries, each with a number at which it is.
fn numbers_of(alloc: Global, geometries: &[Geom]) -> Result<BTreeMap<&Geom, usize>, AllocError>
    ensures { IfOk result (λ m. Knows geometries.now (length geometries.now) m) }
{
    let mut numbers = BTreeMap::new(alloc);
    for number in 0..geometries.len() {
        add_geometry(&mut numbers, &geometries[number], number)?;
    }
    Ok(numbers)
}

/// Where a key is, once it is at a number too.
fn occurrence_with<'a>(
    occurrences: &BTreeMap<&'a Id, Occurrence>,
    key: &'a Id,
    number: usize,
) -> Occurrence
    ensures { result ≡ occurrence_after number (tree.get borrowed_id_cmp occurrences.now key.entry) }
{
    match occurrences.get(&key) {
        Some(_) => Occurrence::Repeated,
        None => Occurrence::Single(number),
    }
}

/// Notes that a key is at a number.
fn add_key<'a>(
    occurrences: &mut BTreeMap<&'a Id, Occurrence>,
    key: &'a Id,
    number: usize,
) -> Result<(), AllocError>
    ensures { OnOk result ((ks : List ids.Id) → slice_get ks number ≡ Some key.now → occurrences_of ks number occurrences.old → occurrences_of ks (number + 1) occurrences.new) }
{
    let occurrence = occurrence_with(occurrences, key, number);
    occurrences.insert(key, occurrence)?;
    Ok(())
}

/// The keys, each with where it is.
fn occurrences_in<'a>(
    alloc: Global,
    keys: &Keys<'a>,
) -> Result<BTreeMap<&'a Id, Occurrence>, AllocError>
    ensures { IfOk result (λ m. occurrences_of (keys_in keys.now) (length (keys_in keys.now)) m) }
{
    let mut occurrences = BTreeMap::new(alloc);
    for number in 0..keys.len() {
        add_key(&mut occurrences, keys.at(number), number)?;
    }
    Ok(occurrences)
}

/// Whether there is no key.
fn is_none(key: &Id) -> bool
    ensures { IsTrue result ↔ (key.now ≡ id_none) }
{
    match key {
        Id::None => true,
        Id::Number(_) | Id::Text(_) => false,
    }
}

impl<'a> Index<'a> {
    /// The index of geometries and their keys, of which there are as many.
    pub(crate) fn of(
        alloc: Global,
        geometries: &'a [Geom],
        keys: Keys<'a>,
    ) -> Result<Index<'a>, AllocError>
        ensures { IfOk result (λ i. IsIndexOf geometries.now (keys_in keys.entry) i) }
    {
        let numbers = numbers_of(alloc, geometries)?;
        let occurrences = occurrences_in(alloc, &keys)?;
        Ok(Index {
            geometries,
            keys,
            numbers,
            occurrences,
        })
    }

    /// Whether a geometry is among them.
    pub(crate) fn has(&self, geometry: &'a Geom) -> bool
        ensures { (gs : List geoms.Geom) (ks : List ids.Id) → IsIndexOf gs ks self.now → (IsTrue result ↔ Has geometry.now gs) }
    {
        self.numbers.contains_key(&geometry)
    }

    /// The number at which a key is, where it occurs once.
    fn place_of(&self, key: &'a Id) -> Option<usize>
        ensures { result ≡ once (tree.get borrowed_id_cmp self.now.occurrences key.entry) }
    {
        match self.occurrences.get(&key) {
            Some(Occurrence::Single(number)) => Some(*number),
            Some(Occurrence::Repeated) | None => None,
        }
    }

    /// The number of the only geometry that has a key; None where there is no key, or none or several have it.
    pub(crate) fn only_with(&self, key: &'a Id) -> Option<usize>
        ensures some { IfSome result (λ k. (gs : List geoms.Geom) (ks : List ids.Id) → IsIndexOf gs ks self.now → IsOnly ks k key.now) }
        ensures none { IfNone result ((gs : List geoms.Geom) (ks : List ids.Id) → IsIndexOf gs ks self.now → (k : ℕ) → ¬ IsOnly ks k key.now) }
    {
        if is_none(key) {
            return None;
        }
        self.place_of(key)
    }
}
