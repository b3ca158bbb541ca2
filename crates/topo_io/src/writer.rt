//! Writing the canonical text of a topology (TopoJSON, section 2), piece by piece and with no memory:
//! compact JSON, members in byte order of their names, no newline at the end.
ghost use Rattle.grid.specs.Place.{IsTransform};
ghost use Rattle.sinks.specs.Texts.{option_text};
ghost use Rattle.sinks.specs.Writes.{TookAll, TookPart};
ghost use Rattle.std.specs.Prelude.{◌≡◌, List, ◌++◌, codes, IfOk, OnErr, OnOk};
ghost use Rattle.topo.specs.OfMap.{body_of, item_of, layer_of, seen_parts};
ghost use Rattle.topo_io.specs.TopologyText.{content_text, type_text, geometry_text, layer_text, bbox_text, transform_of, transform_text, topology_text};

use arcs::writing::{ArcIndexes, ArcsText, PositionNumbers};
use faults::OutOfMemory;
use shapes::writing::{IdMember, Lists, PropertiesMember};
use sinks::written::{
    Bracketed, Each, Joined, Listed, Notation, Noted, Number, Pair, Text, Then, Written,
};
use sinks::{Kept, Sink, WriteFault};
use std::alloc::Global;
use topo::geom::{Body, Geom};
use topo::topology::{Layer, Topology};

/// The member `coordinates` or `arcs` and a comma.
#[derive(Clone, Copy)]
struct Content<'a, C>(&'a [u8], C);

impl<'a, C: Written> Written for Content<'a, C> {
    ghost text = { λ c. c.0.now ++ (C.text c.1 ++ codes ",") };

    fn write<W: Sink>(&self, sink: &mut W) -> Result<(), WriteFault> {
        Then(Text(self.0), Then(&self.1, Text(b","))).write(sink)
    }
}

const COORDINATES: &[u8] = b"\"coordinates\":";

const ARCS: &[u8] = b"\"arcs\":";

/// What a geometry is made of; nothing for the null shape.
#[derive(Clone, Copy)]
struct ContentOf<'a>(&'a Body);

impl<'a> Written for ContentOf<'a> {
    ghost text = { λ c. content_text (body_of c.0.now) };

    fn write<W: Sink>(&self, sink: &mut W) -> Result<(), WriteFault> {
        match self.0 {
            Body::Null => Ok(()),
            Body::Point(p) => Content(COORDINATES, Noted(p, &PositionNumbers)).write(sink),
            Body::MultiPoint(ps) => Content(
                COORDINATES,
                Listed(ps.as_slice(), &PositionNumbers),
            ).write(sink),
            Body::Line(used) => Content(ARCS, Listed(used.as_slice(), &ArcIndexes)).write(sink),
            Body::MultiLine(lines) => Content(
                ARCS,
                Listed(lines.as_slice(), &Lists(ArcIndexes)),
            ).write(sink),
            Body::Polygon(rings) => Content(
                ARCS,
                Listed(rings.as_slice(), &Lists(ArcIndexes)),
            ).write(sink),
            Body::MultiPolygon(polygons) => Content(
                ARCS,
                Listed(polygons.as_slice(), &Lists(Lists(ArcIndexes))),
            ).write(sink),
        }
    }
}

/// The name of a geometry's type in quotes, or `null`.
fn type_name(body: &Body) -> &'static [u8]
    ensures { result.now ≡ type_text (body_of body.now) }
{
    match body {
        Body::Null => b"null",
        Body::Point(_) => b"\"Point\"",
        Body::MultiPoint(_) => b"\"MultiPoint\"",
        Body::Line(_) => b"\"LineString\"",
        Body::MultiLine(_) => b"\"MultiLineString\"",
        Body::Polygon(_) => b"\"Polygon\"",
        Body::MultiPolygon(_) => b"\"MultiPolygon\"",
    }
}

/// Geometries.
#[derive(Clone, Copy)]
struct Geometries;

impl Notation<Geom> for Geometries {
    ghost text = { λ _ g. geometry_text (item_of g) };

    fn write_value<W: Sink>(&self, value: &Geom, sink: &mut W) -> Result<(), WriteFault> {
        let name = Then(
            Text(b"\"type\":"),
            Then(Text(type_name(&value.body)), Text(b"}")),
        );
        let members = Then(
            IdMember(&value.id),
            Then(PropertiesMember(&value.props), name),
        );
        Then(Text(b"{"), Then(ContentOf(&value.body), members)).write(sink)
    }
}

/// Layers, each a member of `objects`.
#[derive(Clone, Copy)]
struct Layers;

impl Notation<Layer> for Layers {
    ghost text = { λ _ l. layer_text (layer_of l) };

    fn write_value<W: Sink>(&self, value: &Layer, sink: &mut W) -> Result<(), WriteFault> {
        let geometries = Listed(value.geometries(), &Geometries);
        let tail = Then(geometries, Text(b",\"type\":\"GeometryCollection\"}"));
        let name = Text(value.name().spelling().as_bytes());
        Then(name, Then(Text(b":{\"geometries\":"), tail)).write(sink)
    }
}

/// The member `bbox` and a comma (TopoJSON, section 3); nothing where no position is there.
#[derive(Clone, Copy)]
struct BboxMember(Option<(i64, i64, i64, i64)>);

impl Written for BboxMember {
    ghost text = { λ b. option_text bbox_text b.0 };

    fn write<W: Sink>(&self, sink: &mut W) -> Result<(), WriteFault> {
        let Some((west, south, east, north)) = self.0 else {
            return Ok(());
        };
        let numbers = [Number(west), Number(south), Number(east), Number(north)];
        Then(
            Text(b"\"bbox\":"),
            Then(Bracketed(Joined(&numbers)), Text(b",")),
        )
        .write(sink)
    }
}

/// The member `transform`, of the scales and the translations.
#[derive(Clone, Copy)]
struct TransformMember((i64, i64), (i64, i64));

impl Written for TransformMember {
    ghost text = { λ t. transform_text (transform_of t.0 t.1) };

    fn write<W: Sink>(&self, sink: &mut W) -> Result<(), WriteFault> {
        let (sx, sy) = self.0;
        let (tx, ty) = self.1;
        let translate = Then(Text(b",\"translate\":"), Then(Pair(tx, ty), Text(b"}")));
        Then(
            Text(b"\"transform\":{\"scale\":"),
            Then(Pair(sx, sy), translate),
        )
        .write(sink)
    }
}

/// The canonical text of a topology.
#[derive(Clone, Copy)]
pub struct Canonical<'a>(pub &'a Topology);

impl<'a> Written for Canonical<'a> {
    ghost text = { λ t. topology_text (seen_parts t.0.now) };

    fn write<W: Sink>(&self, sink: &mut W) -> Result<(), WriteFault>
        ensures whole { OnOk result (TookAll (W.seen sink.old) (W.seen sink.new) (topology_text (seen_parts self.now.0.now))) }
        ensures part { OnErr result (TookPart (W.seen sink.old) (W.seen sink.new) (topology_text (seen_parts self.now.0.now))) }
        ensures limits { IsTransform self.now.0.now.grid }
    {
        let topology = self.0;
        let grid = topology.grid();
        let transform = Then(
            TransformMember(grid.scale(), grid.translate()),
            Text(b",\"type\":\"Topology\"}"),
        );
        let objects = Then(
            Each(topology.layers(), &Layers),
            Then(Text(b"},"), transform),
        );
        let tail = Then(
            BboxMember(topology.bbox()),
            Then(Text(b"\"objects\":{"), objects),
        );
        Then(
            Text(b"{\"arcs\":["),
            Then(ArcsText(topology.arcs()), Then(Text(b"],"), tail)),
        )
        .write(sink)
    }
}

/// Writes the canonical text of a topology, whose grid is within its limits.
///
/// # Errors
/// `Write` where the sink failed; it then took a beginning of the text.
pub fn write<W: Sink>(topology: &Topology, sink: &mut W) -> Result<(), WriteFault>
    ensures whole { OnOk result (TookAll (W.seen sink.old) (W.seen sink.new) (topology_text (seen_parts topology.now))) }
    ensures part { OnErr result (TookPart (W.seen sink.old) (W.seen sink.new) (topology_text (seen_parts topology.now))) }
    ensures limits { IsTransform topology.now.grid }
{
    Canonical(topology).write(sink)
}

/// The canonical text of a topology, in memory.
///
/// # Errors
/// Where memory is refused.
pub fn text_of(alloc: Global, topology: &Topology) -> Result<Vec<u8>, OutOfMemory>
    ensures text { IfOk result (λ t. t.items ≡ topology_text (seen_parts topology.now)) }
    ensures limits { IsTransform topology.now.grid }
{
    let mut kept = Kept::new(alloc);
    match write(topology, &mut kept) {
        Ok(()) => Ok(kept.into_bytes()),
        Err(_) => Err(OutOfMemory),
    }
}
