//! What a topology is made of, as lines for people and as a JSON object.
ghost use Rattle.outputs.specs.InfoText.{arc_lines, arc_members, bbox_line, bbox_member, corners_text, grid_lines, info_json, info_lines, kind_part, kinds_line, kinds_members, layer_line, layer_object, pairs_text, transform_member};
ghost use Rattle.sinks.specs.Writes.{TookAll, TookPart};
ghost use Rattle.std.specs.Prelude.{OnErr, OnOk};

use query::{ArcCounts, Kinds, count_arcs, count_kinds};
use sinks::written::{Each, Notation, Text, Then, Written};
use sinks::{Sink, WriteFault};
use text_parts::{Digits, If, InTurn, OneOf, TwoNumbers, WideDigits, Worded};
use topo::{Layer, Topology};

/// Two pairs of numbers, with a comma between them.
#[derive(Clone, Copy)]
struct Pairs((i64, i64), (i64, i64));

impl Written for Pairs {
    ghost text = { λ p. pairs_text p.0 p.1 };

    fn write<W: Sink>(&self, sink: &mut W) -> Result<(), WriteFault> {
        Then(TwoNumbers(self.0), Then(Text(b","), TwoNumbers(self.1))).write(sink)
    }
}

/// The corners of a bbox.
#[derive(Clone, Copy)]
struct FourNumbers((i64, i64, i64, i64));

impl Written for FourNumbers {
    ghost text = { λ c. corners_text c.0 };

    fn write<W: Sink>(&self, sink: &mut W) -> Result<(), WriteFault> {
        let (west, south, east, north) = self.0;
        Pairs((west, south), (east, north)).write(sink)
    }
}

/// The line of a bbox, without its end.
#[derive(Clone, Copy)]
struct BboxLine((i64, i64, i64, i64));

impl Written for BboxLine {
    ghost text = { λ b. bbox_line b.0 };

    fn write<W: Sink>(&self, sink: &mut W) -> Result<(), WriteFault> {
        Then(Text(b"\nbbox: "), FourNumbers(self.0)).write(sink)
    }
}

/// The grid in the form of the word after `--grid`, and the bbox, where there is one.
#[derive(Clone, Copy)]
struct GridLines((i64, i64), (i64, i64), Option<(i64, i64, i64, i64)>);

impl Written for GridLines {
    ghost text = { λ g. grid_lines g.0 g.1 g.2 };

    fn write<W: Sink>(&self, sink: &mut W) -> Result<(), WriteFault> {
        let grid = Then(Text(b"grid: "), Pairs(self.0, self.1));
        match self.2 {
            Some(corners) => Then(grid, BboxLine(corners)).write(sink),
            None => grid.write(sink),
        }
    }
}

/// The counts of the arcs.
#[derive(Clone, Copy)]
struct ArcLines(ArcCounts);

impl Written for ArcLines {
    ghost text = { λ a. arc_lines a.0.arcs a.0.positions a.0.free };

    fn write<W: Sink>(&self, sink: &mut W) -> Result<(), WriteFault> {
        let arcs = Worded("\narcs: ", Digits(self.0.arcs));
        let positions = Worded("\npositions of arcs: ", WideDigits(self.0.positions));
        let free = Worded("\nfree loops: ", Digits(self.0.free));
        Then(arcs, Then(positions, Then(free, Text(b"\n")))).write(sink)
    }
}

/// How many features there are of a kind, if any.
#[derive(Clone, Copy)]
struct KindPart<'a>(&'a [u8], usize);

impl<'a> Written for KindPart<'a> {
    ghost text = { λ k. kind_part k.0.now k.1 };

    fn write<W: Sink>(&self, sink: &mut W) -> Result<(), WriteFault> {
        let count = Then(Digits(self.1), Then(Text(b" "), Text(self.0)));
        If(self.1 > 0, Then(Text(b", "), count)).write(sink)
    }
}

/// How many features there are of each kind that is there, by the names of the kinds in GeoJSON, in byte order.
#[derive(Clone, Copy)]
struct KindsLine(Kinds);

impl Written for KindsLine {
    ghost text = { λ k. kinds_line k.0 };

    fn write<W: Sink>(&self, sink: &mut W) -> Result<(), WriteFault> {
        let points = Then(
            KindPart(b"Point", self.0.points),
            Then(
                KindPart(b"Polygon", self.0.polygons),
                KindPart(b"null", self.0.nulls),
            ),
        );
        let many = Then(
            KindPart(b"MultiPoint", self.0.multi_points),
            Then(KindPart(b"MultiPolygon", self.0.multi_polygons), points),
        );
        Then(
            KindPart(b"LineString", self.0.lines),
            Then(KindPart(b"MultiLineString", self.0.multi_lines), many),
        )
        .write(sink)
    }
}

/// Layers, each as its name in quotes, how many features it has, and how many of each kind that it has.
#[derive(Clone, Copy)]
struct LayerLines;

impl Notation<Layer> for LayerLines {
    ghost text = { λ _ l. layer_line l };

    fn write_value<W: Sink>(&self, value: &Layer, sink: &mut W) -> Result<(), WriteFault> {
        let name = Text(value.name().spelling().as_bytes());
        let geometries = value.geometries();
        let count = geometries.len();
        let word = OneOf(count == 1, Text(b" feature"), Text(b" features"));
        let kinds = Then(KindsLine(count_kinds(geometries)), Text(b"\n"));
        let features = Then(Digits(count), word);
        Then(
            Text(b"layer "),
            Then(name, Then(Text(b": "), Then(features, kinds))),
        )
        .write(sink)
    }
}

/// Writes a line for each fact: the grid in the form of the word after `--grid`, the bbox where there is one, the
/// counts of the arcs, and each layer with the kinds that its features have.
///
/// # Errors
/// `Write` where the sink failed; it then took a beginning of the text.
pub fn write_lines<W: Sink>(topology: &Topology, sink: &mut W) -> Result<(), WriteFault>
    ensures whole { OnOk result (TookAll (W.seen sink.old) (W.seen sink.new) (info_lines topology.now)) }
    ensures part { OnErr result (TookPart (W.seen sink.old) (W.seen sink.new) (info_lines topology.now)) }
{
    let grid = topology.grid();
    let head = GridLines(grid.scale(), grid.translate(), topology.bbox());
    let layers = InTurn(topology.layers(), &LayerLines);
    Then(head, Then(ArcLines(count_arcs(topology)), layers)).write(sink)
}

/// The member bbox, behind a comma.
#[derive(Clone, Copy)]
struct InfoBbox((i64, i64, i64, i64));

impl Written for InfoBbox {
    ghost text = { λ b. bbox_member b.0 };

    fn write<W: Sink>(&self, sink: &mut W) -> Result<(), WriteFault> {
        Then(Text(b",\"bbox\":["), Then(FourNumbers(self.0), Text(b"]"))).write(sink)
    }
}

/// The members arcs, bbox, where there is one, and freeLoops.
#[derive(Clone, Copy)]
struct ArcMembers(usize, Option<(i64, i64, i64, i64)>, usize);

impl Written for ArcMembers {
    ghost text = { λ a. arc_members a.0 a.1 a.2 };

    fn write<W: Sink>(&self, sink: &mut W) -> Result<(), WriteFault> {
        let arcs = Worded("{\"arcs\":", Digits(self.0));
        let free = Worded(",\"freeLoops\":", Digits(self.2));
        match self.1 {
            Some(corners) => Then(arcs, Then(InfoBbox(corners), free)).write(sink),
            None => Then(arcs, free).write(sink),
        }
    }
}

/// How many features there are of each kind, as members in byte order.
#[derive(Clone, Copy)]
struct KindsMembers(Kinds);

impl Written for KindsMembers {
    ghost text = { λ k. kinds_members k.0 };

    fn write<W: Sink>(&self, sink: &mut W) -> Result<(), WriteFault> {
        let points = Then(
            Worded(",\"Point\":", Digits(self.0.points)),
            Then(
                Worded(",\"Polygon\":", Digits(self.0.polygons)),
                Worded(",\"null\":", Digits(self.0.nulls)),
            ),
        );
        let many = Then(
            Worded(",\"MultiPoint\":", Digits(self.0.multi_points)),
            Then(
                Worded(",\"MultiPolygon\":", Digits(self.0.multi_polygons)),
                points,
            ),
        );
        Then(
            Worded("\"LineString\":", Digits(self.0.lines)),
            Then(
                Worded(",\"MultiLineString\":", Digits(self.0.multi_lines)),
                many,
            ),
        )
        .write(sink)
    }
}

/// Layers as objects, each with the counts of all kinds.
#[derive(Clone, Copy)]
struct LayerObjects;

impl Notation<Layer> for LayerObjects {
    ghost text = { λ _ l. layer_object l };

    fn write_value<W: Sink>(&self, value: &Layer, sink: &mut W) -> Result<(), WriteFault> {
        let name = Text(value.name().spelling().as_bytes());
        let geometries = value.geometries();
        let features = Worded("{\"features\":", Digits(geometries.len()));
        let tail = Then(Text(b"},\"name\":"), Then(name, Text(b"}")));
        let kinds = Then(KindsMembers(count_kinds(geometries)), tail);
        Then(features, Then(Text(b",\"kinds\":{"), kinds)).write(sink)
    }
}

/// The member transform, and the end.
#[derive(Clone, Copy)]
struct InfoTransform((i64, i64), (i64, i64));

impl Written for InfoTransform {
    ghost text = { λ t. transform_member t.0 t.1 };

    fn write<W: Sink>(&self, sink: &mut W) -> Result<(), WriteFault> {
        let translations = Then(TwoNumbers(self.1), Text(b"]}}"));
        let scales = Then(
            TwoNumbers(self.0),
            Then(Text(b"],\"translate\":["), translations),
        );
        Then(Text(b",\"transform\":{\"scale\":["), scales).write(sink)
    }
}

/// Writes the same as one JSON object, compact and with its members in byte order. Each layer has the counts of all
/// kinds. Without a position there is no bbox.
///
/// # Errors
/// `Write` where the sink failed; it then took a beginning of the text.
pub fn write_json<W: Sink>(topology: &Topology, sink: &mut W) -> Result<(), WriteFault>
    ensures whole { OnOk result (TookAll (W.seen sink.old) (W.seen sink.new) (info_json topology.now)) }
    ensures part { OnErr result (TookPart (W.seen sink.old) (W.seen sink.new) (info_json topology.now)) }
{
    let counts = count_arcs(topology);
    let grid = topology.grid();
    let arcs = ArcMembers(counts.arcs, topology.bbox(), counts.free);
    let layers = Then(
        Text(b",\"layers\":["),
        Each(topology.layers(), &LayerObjects),
    );
    let positions = Worded("],\"positions\":", WideDigits(counts.positions));
    let transform = InfoTransform(grid.scale(), grid.translate());
    Then(arcs, Then(layers, Then(positions, transform))).write(sink)
}
