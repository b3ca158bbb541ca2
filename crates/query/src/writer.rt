//! Writing meshes and neighbours as JSON, piece by piece and with no memory.
ghost use Rattle.geojson_io.specs.CollectionText.{line_text};
ghost use Rattle.grid.specs.declared.pos.Pos.{Pos};
ghost use Rattle.query.specs.AnswerTexts.{id_text_of, id_value_text, mesh_text, neighbor_ids_text, neighbors_text};
ghost use Rattle.sinks.specs.Texts.{joined, list_text};
ghost use Rattle.sinks.specs.Writes.{TookAll, TookPart};
ghost use Rattle.std.specs.Fmt.{decimal};
ghost use Rattle.std.specs.Prelude.{◌≡◌, map, slice_get, OnErr, OnOk};

use chains::ArcTable;
use geojson_io::writer::{Geometry, JoinedPlaces};
use grid::{Grid, Pos};
use itoa::Buffer;
use shapes::shape::Id;
use sinks::written::{Bracketed, Listed, Notation, Number, Text, Then, Written};
use sinks::{Sink, WriteFault, put};
use topo::Geom;

/// The lines of a table in order, as lists of places, with commas between them.
#[derive(Clone, Copy)]
struct LinesIn<'a>(&'a ArcTable, &'a Grid);

impl<'a> Written for LinesIn<'a> {
    ghost text = { λ l. joined (line_text l.1.now) l.0.now.arcs };

    fn write<W: Sink>(&self, sink: &mut W) -> Result<(), WriteFault> {
        let mut separator = Text(b"");
        for line in self.0.iter() {
            match Then(separator, Bracketed(JoinedPlaces(line, self.1))).write(sink) {
                Ok(()) => separator = Text(b","),
                Err(fault) => return Err(fault),
            }
        }
        Ok(())
    }
}

/// Writes a mesh, the table of lines that `mesh` answers, as a GeoJSON MultiLineString (RFC 7946, section
/// 3.1.5) in absolute numbers: each line of the table in its order and direction. So the lines of a mesh
/// come sorted, each in its least direction, and a line that stops nowhere from its least vertex and
/// closed. It takes no memory.
///
/// # Errors
/// `Write` where the sink failed; it then took a beginning of the text.
pub fn write_mesh<W: Sink>(grid: &Grid, lines: &ArcTable, sink: &mut W) -> Result<(), WriteFault>
    ensures whole { OnOk result (TookAll (W.seen sink.old) (W.seen sink.new) (mesh_text grid.now lines.now.arcs)) }
    ensures part { OnErr result (TookPart (W.seen sink.old) (W.seen sink.new) (mesh_text grid.now lines.now.arcs)) }
{
    Geometry(Bracketed(LinesIn(lines, grid)), b"MultiLineString").write(sink)
}

/// Numbers, in decimal.
#[derive(Clone, Copy)]
struct Decimals;

impl Notation<usize> for Decimals {
    ghost text = { λ _ n. decimal n };

    fn write_value<W: Sink>(&self, value: &usize, sink: &mut W) -> Result<(), WriteFault> {
        let mut buffer = Buffer::new();
        put(sink, buffer.format(*value).as_bytes())
    }
}

/// Lists of such numbers, each in brackets.
#[derive(Clone, Copy)]
struct DecimalLists;

impl Notation<Vec<usize>> for DecimalLists {
    ghost text = { λ _ list. list_text decimal list.items };

    fn write_value<W: Sink>(&self, value: &Vec<usize>, sink: &mut W) -> Result<(), WriteFault> {
        Listed(value.as_slice(), &Decimals).write(sink)
    }
}

/// Writes lists of indexes, as `neighbors` answers them, as compact JSON: a list of lists of numbers, in
/// their order. It takes no memory.
///
/// # Errors
/// `Write` where the sink failed; it then took a beginning of the text.
pub fn write_neighbors<W: Sink>(lists: &[Vec<usize>], sink: &mut W) -> Result<(), WriteFault>
    ensures whole { OnOk result (TookAll (W.seen sink.old) (W.seen sink.new) (neighbors_text (map (λ l. l.items) lists.now))) }
    ensures part { OnErr result (TookPart (W.seen sink.old) (W.seen sink.new) (neighbors_text (map (λ l. l.items) lists.now))) }
{
    Listed(lists, &DecimalLists).write(sink)
}

/// Writes an id as a JSON value.
fn write_id<W: Sink>(id: &Id, sink: &mut W) -> Result<(), WriteFault>
    ensures whole { OnOk result (TookAll (W.seen sink.old) (W.seen sink.new) (id_value_text id.now)) }
    ensures part { OnErr result (TookPart (W.seen sink.old) (W.seen sink.new) (id_value_text id.now)) }
{
    match id {
        Id::None => Text(b"null").write(sink),
        Id::Number(number) => Number(*number).write(sink),
        Id::Text(text) => Text(text.spelling().as_bytes()).write(sink),
    }
}

/// Places of geometries, each as the id of its geometry.
#[derive(Clone, Copy)]
pub(crate) struct IdsOf<'a>(pub(crate) &'a [Geom]);

impl<'a> Notation<usize> for IdsOf<'a> {
    ghost text = { λ ids index. id_text_of (slice_get ids.0.now index) };

    fn write_value<W: Sink>(&self, value: &usize, sink: &mut W) -> Result<(), WriteFault> {
        match self.0.get(*value) {
            Some(geometry) => write_id(&geometry.id, sink),
            None => Text(b"null").write(sink),
        }
    }
}

/// Lists of such indexes, each in brackets.
#[derive(Clone, Copy)]
struct IdListsOf<'a>(&'a [Geom]);

impl<'a> Notation<Vec<usize>> for IdListsOf<'a> {
    ghost text = { λ ids list. list_text (λ p. id_text_of (slice_get ids.0.now p)) list.items };

    fn write_value<W: Sink>(&self, value: &Vec<usize>, sink: &mut W) -> Result<(), WriteFault> {
        Listed(value.as_slice(), &IdsOf(self.0)).write(sink)
    }
}

/// Writes lists of indexes of a layer's geometries, as `neighbors` answers them, as `write_neighbors` does, with
/// the ids of the geometries in place of their indexes: a number or a text, or `null` where there is none. It
/// takes no memory.
///
/// # Errors
/// `Write` where the sink failed; it then took a beginning of the text.
pub fn write_neighbor_ids<W: Sink>(
    geometries: &[Geom],
    lists: &[Vec<usize>],
    sink: &mut W,
) -> Result<(), WriteFault>
    ensures whole { OnOk result (TookAll (W.seen sink.old) (W.seen sink.new) (neighbor_ids_text geometries.now (map (λ l. l.items) lists.now))) }
    ensures part { OnErr result (TookPart (W.seen sink.old) (W.seen sink.new) (neighbor_ids_text geometries.now (map (λ l. l.items) lists.now))) }
{
    Listed(lists, &IdListsOf(geometries)).write(sink)
}
