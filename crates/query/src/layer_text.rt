//! A layer of a topology as a GeoJSON FeatureCollection (RFC 7946, section 3.3).
pub(crate) mod collection;
pub(crate) mod fault;
pub(crate) mod places;
pub(crate) mod sequence;
pub(crate) mod steps;
