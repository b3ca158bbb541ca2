//! Places of small maps, by letters.
use worked_maps::Places;

pub(crate) type Place = (i64, i64);

/// Arcs by their places.
pub(crate) type Arcs = &'static [Places];

pub(crate) const A: Place = (0, 0);

pub(crate) const B: Place = (4, 0);

pub(crate) const C: Place = (4, 4);

pub(crate) const D: Place = (0, 4);

pub(crate) const E: Place = (8, 0);

pub(crate) const F: Place = (8, 4);

pub(crate) const G: Place = (10, 10);

pub(crate) const H: Place = (12, 10);

pub(crate) const I: Place = (12, 12);

pub(crate) const J: Place = (10, 12);
