//! The order of geometries by what they have without their arcs.
ghost use Rattle.std.specs.Prelude.{◌≡◌};
ghost use Rattle.topo.specs.GeometryOrder.{body_rank, info_cmp, kind_cmp};

use crate::geom::{Body, Geom};
use std::cmp::Ordering;

/// The number of a body's kind, in the order of kinds.
pub(crate) fn rank(body: &Body) -> u8
    ensures { result ≡ body_rank body.now }
{
    match body {
        Body::Null => 0,
        Body::Point(_) => 1,
        Body::MultiPoint(_) => 2,
        Body::Line(_) => 3,
        Body::MultiLine(_) => 4,
        Body::Polygon(_) => 5,
        Body::MultiPolygon(_) => 6,
    }
}

/// The order of two geometries by id, then by properties.
pub(crate) fn info_order(geometry: &Geom, other: &Geom) -> Ordering
    ensures { result ≡ info_cmp geometry.now other.now }
{
    geometry
        .id
        .cmp(&other.id)
        .then(geometry.props.cmp(&other.props))
}

/// The order of two geometries by what they have without their arcs: by id, then by properties, then by
/// kind. Where it doesn't tie, it is the order of their features.
pub fn kind_order(geometry: &Geom, other: &Geom) -> Ordering
    ensures { result ≡ kind_cmp geometry.now other.now }
{
    info_order(geometry, other).then(rank(&geometry.body).cmp(&rank(&other.body)))
}
