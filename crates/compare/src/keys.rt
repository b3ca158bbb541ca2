//! The keys by which the features of two layers pair: their ids, or the values of a property.
ghost use Rattle.compare.specs.Keyed.{id_of, keys_in};
ghost use Rattle.std.specs.Prelude.{◌≡◌, ◌<◌, Some, length, map as map_list, slice_get};

use shapes::shape::Id;
use topo::Geom;

/// The keys of the geometries of a layer, in their order.
#[derive(Clone, Copy)]
pub(crate) enum Keys<'a> {
    /// Their ids.
    Ids(&'a [Geom]),
    /// Others, one for each geometry.
    Values(&'a [Id]),
}

impl<'a> Keys<'a> {
    /// How many there are.
    pub(crate) fn len(&self) -> usize
        ensures { result ≡ length (keys_in self.now) }
    {
        match self {
            Keys::Ids(geometries) => geometries.len(),
            Keys::Values(keys) => keys.len(),
        }
    }

    /// The key at a number.
    pub(crate) fn at(&self, number: usize) -> &'a Id
        requires { number < length (keys_in self.now) }
        ensures { slice_get (keys_in self.now) number ≡ Some result.now }
    {
        match self {
            Keys::Ids(geometries) => id_at(geometries, number),
            Keys::Values(keys) => value_at(keys, number),
        }
    }
}

/// The id of the geometry at a number.
fn id_at(geometries: &[Geom], number: usize) -> &Id
    requires { number < length geometries.now }
    ensures { slice_get (map_list id_of geometries.now) number ≡ Some result.now }
{
    &geometries[number].id
}

/// The key at a number.
fn value_at(keys: &[Id], number: usize) -> &Id
    requires { number < length keys.now }
    ensures { slice_get keys.now number ≡ Some result.now }
{
    &keys[number]
}
