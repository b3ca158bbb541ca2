//! The texts of geometries.
ghost use Rattle.decimals.specs.Topology.TopologyText.{body_text, geometry_text, layer_text};
ghost use Rattle.shapes.specs.Writing.Members.{properties_member};

use crate::topology::layers::{BackGeometry, BackLayer};
use arcs::writing::ArcIndexes;
use grid::Pos;
use shapes::writing::{IdMember, Lists};
use sinks::written::{Listed, Notation, Noted, Text, Then, Written};
use sinks::{Sink, WriteFault, put};
use topo::geom::Body;

/// The type of a geometry, and what it is made of, its positions in a notation.
#[derive(Clone, Copy)]
struct BodyText<'a, N> {
    body: &'a Body,
    positions: &'a N,
}

impl<'a, N: Notation<Pos>> Written for BodyText<'a, N> {
    ghost text = { λ b. body_text (N.text b.positions.now) b.body.now };

    fn write<W: Sink>(&self, sink: &mut W) -> Result<(), WriteFault> {
        match self.body {
            Body::Null => put(sink, b"null"),
            Body::Point(p) => Then(
                Text(b"\"Point\",\"coordinates\":"),
                Noted(p, self.positions),
            )
            .write(sink),
            Body::MultiPoint(ps) => Then(
                Text(b"\"MultiPoint\",\"coordinates\":"),
                Listed(ps.as_slice(), self.positions),
            )
            .write(sink),
            Body::Line(used) => Then(
                Text(b"\"LineString\",\"arcs\":"),
                Listed(used.as_slice(), &ArcIndexes),
            )
            .write(sink),
            Body::MultiLine(lines) => Then(
                Text(b"\"MultiLineString\",\"arcs\":"),
                Listed(lines.as_slice(), &Lists(ArcIndexes)),
            )
            .write(sink),
            Body::Polygon(rings) => Then(
                Text(b"\"Polygon\",\"arcs\":"),
                Listed(rings.as_slice(), &Lists(ArcIndexes)),
            )
            .write(sink),
            Body::MultiPolygon(polygons) => Then(
                Text(b"\"MultiPolygon\",\"arcs\":"),
                Listed(polygons.as_slice(), &Lists(Lists(ArcIndexes))),
            )
            .write(sink),
        }
    }
}

/// The member `properties` and a comma; nothing where there are none.
#[derive(Clone, Copy)]
struct PropertiesMember<'a>(&'a str);

impl<'a> Written for PropertiesMember<'a> {
    ghost text = { λ p. properties_member p.0.now };

    fn write<W: Sink>(&self, sink: &mut W) -> Result<(), WriteFault> {
        if self.0 == "{}" {
            return Ok(());
        }
        let text = Text(self.0.as_bytes());
        Then(Text(b"\"properties\":"), Then(text, Text(b","))).write(sink)
    }
}

/// Geometries, their positions in a notation.
#[derive(Clone, Copy)]
struct TypeFirstGeometries<'a, N>(&'a N);

impl<'a, N: Notation<Pos>> Notation<BackGeometry> for TypeFirstGeometries<'a, N> {
    ghost text = { λ n g. geometry_text (N.text n.0.now) g };

    fn write_value<W: Sink>(&self, value: &BackGeometry, sink: &mut W) -> Result<(), WriteFault> {
        let body = BodyText {
            body: &value.body,
            positions: self.0,
        };
        let body = Then(Text(b"\"type\":"), Then(body, Text(b"}")));
        let members = Then(
            IdMember(&value.id),
            Then(PropertiesMember(value.properties.as_str()), body),
        );
        Then(Text(b"{"), members).write(sink)
    }
}

/// Layers, each a member of `objects`, their positions in a notation.
#[derive(Clone, Copy)]
pub(crate) struct TypeFirstLayers<'a, N>(pub(crate) &'a N);

impl<'a, N: Notation<Pos>> Notation<BackLayer> for TypeFirstLayers<'a, N> {
    ghost text = { λ n l. layer_text (N.text n.0.now) l };

    fn write_value<W: Sink>(&self, value: &BackLayer, sink: &mut W) -> Result<(), WriteFault> {
        let notation = TypeFirstGeometries(self.0);
        let geometries = Listed(value.geometries.as_slice(), &notation);
        let head = Text(b":{\"type\":\"GeometryCollection\",\"geometries\":");
        let name = Text(value.name.spelling().as_bytes());
        Then(name, Then(head, Then(geometries, Text(b"}")))).write(sink)
    }
}
