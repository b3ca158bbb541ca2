//! Bodies, by what they stitch to.
ghost use Rattle.topo.specs.GeometryOrder.Lists.{bodies_cmp};
ghost use Rattle.std.specs.Prelude.{◌≡◌};

use crate::Body;
use crate::geometry_order::lists::{ByArcs, Ordered};
use crate::order::rank;
use lines::items::Items;
use lines::line::Line;
use lines::ring::Ring;
use std::cmp::Ordering;

/// The order of two bodies: by their kinds, then by what they stitch to.
pub(crate) fn body_order(view: &Ordered, body: &Body, other: &Body) -> Ordering
    ensures { result ≡ bodies_cmp view.now.arcs.now.arcs view.now.least.now body.now other.now }
{
    match (body, other) {
        (Body::Point(p), Body::Point(q)) => p.cmp(q),
        (Body::MultiPoint(ps), Body::MultiPoint(qs)) => ps.cmp(qs),
        (Body::Line(used), Body::Line(others)) => Line::order(view, used, others),
        (Body::MultiLine(lists), Body::MultiLine(others)) => {
            Items::<Line>::order(view, lists, others)
        }
        (Body::Polygon(lists), Body::Polygon(others)) => Items::<Ring>::order(view, lists, others),
        (Body::MultiPolygon(lists), Body::MultiPolygon(others)) => {
            Items::<Items<Ring>>::order(view, lists, others)
        }
        _ => rank(body).cmp(&rank(other)),
    }
}
