//! Writing neighbours as a JSON object from ids to lists of ids, piece by piece and with no memory.
ghost use Rattle.query.specs.Keyed.{key_text, keyed_text, member_text, members};
ghost use Rattle.sinks.specs.Writes.{TookAll, TookPart};
ghost use Rattle.std.specs.Prelude.{◌≡◌, map, [], OnErr, OnOk};

use crate::writer::IdsOf;
use shapes::shape::Id;
use sinks::written::{Listed, Number, Text, Then, Written};
use sinks::{Sink, WriteFault};
use topo::Geom;

/// An id as the name of a member: a number by its decimal text.
#[derive(Clone, Copy)]
struct IdKey<'a>(&'a Id);

impl<'a> Written for IdKey<'a> {
    ghost text = { λ k. key_text k.0.now };

    fn write<W: Sink>(&self, sink: &mut W) -> Result<(), WriteFault> {
        match self.0 {
            Id::None => Text(b"\"null\"").write(sink),
            Id::Number(number) => Then(Text(b"\""), Then(Number(*number), Text(b"\""))).write(sink),
            Id::Text(text) => Text(text.spelling().as_bytes()).write(sink),
        }
    }
}

/// Writes a geometry's id, and the ids of the geometries at the indexes of a list.
fn write_member<W: Sink>(
    separator: Text<'_>,
    geometries: &[Geom],
    geometry: &Geom,
    list: &[usize],
    sink: &mut W,
) -> Result<(), WriteFault>
    ensures whole { OnOk result (TookAll (W.seen sink.old) (W.seen sink.new) (member_text separator.entry.0.now geometries.now geometry.now list.now)) }
    ensures part { OnErr result (TookPart (W.seen sink.old) (W.seen sink.new) (member_text separator.entry.0.now geometries.now geometry.now list.now)) }
{
    let ids = Listed(list, &IdsOf(geometries));
    Then(separator, Then(IdKey(&geometry.id), Then(Text(b":"), ids))).write(sink)
}

/// Writes the members of an object, with commas between them.
fn write_members<W: Sink>(
    geometries: &[Geom],
    lists: &[Vec<usize>],
    sink: &mut W,
) -> Result<(), WriteFault>
    ensures whole { OnOk result (TookAll (W.seen sink.old) (W.seen sink.new) (members [] geometries.now geometries.now (map (λ l. l.items) lists.now))) }
    ensures part { OnErr result (TookPart (W.seen sink.old) (W.seen sink.new) (members [] geometries.now geometries.now (map (λ l. l.items) lists.now))) }
{
    let mut separator = Text(b"");
    let mut others = geometries;
    let mut left = lists;
    while let Some((geometry, behind)) = others.split_first() {
        let Some((list, after)) = left.split_first() else {
            return Ok(());
        };
        match write_member(separator, geometries, geometry, list.as_slice(), sink) {
            Ok(()) => separator = Text(b","),
            Err(fault) => return Err(fault),
        }
        others = behind;
        left = after;
    }
    Ok(())
}

/// Writes lists of indexes of a layer's geometries, as `neighbors` answers them, as a JSON object: for each geometry
/// that has a list, in their order, a member under its id, a number's by its decimal text, with the ids of the
/// geometries at those indexes. An id that occurs twice gives two members of one name. It takes no memory.
///
/// # Errors
/// `Write` where the sink failed; it then took a beginning of the text.
pub fn write_neighbors_keyed<W: Sink>(
    geometries: &[Geom],
    lists: &[Vec<usize>],
    sink: &mut W,
) -> Result<(), WriteFault>
    ensures whole { OnOk result (TookAll (W.seen sink.old) (W.seen sink.new) (keyed_text geometries.now (map (λ l. l.items) lists.now))) }
    ensures part { OnErr result (TookPart (W.seen sink.old) (W.seen sink.new) (keyed_text geometries.now (map (λ l. l.items) lists.now))) }
{
    Then(Text(b"{"), Then(MembersOf(geometries, lists), Text(b"}"))).write(sink)
}

/// The members of an object.
#[derive(Clone, Copy)]
struct MembersOf<'a>(&'a [Geom], &'a [Vec<usize>]);

impl<'a> Written for MembersOf<'a> {
    ghost text = { λ m. members [] m.0.now m.0.now (map (λ l. l.items) m.1.now) };

    fn write<W: Sink>(&self, sink: &mut W) -> Result<(), WriteFault> {
        write_members(self.0, self.1, sink)
    }
}
