//! Parts of texts that all writers share: lists of lists, and the members `id` and `properties`.

ghost use Rattle.sinks.specs.Texts.{list_text};
ghost use Rattle.sinks.specs.Writes.{TookAll, TookPart};
ghost use Rattle.std.specs.Fmt.{signed_decimal};
ghost use Rattle.std.specs.Prelude.{◌≡◌, ℕ, List, ◌++◌, codes, OnErr, OnOk};
ghost use Rattle.shapes.specs.Writing.Members.{id_text, properties_member};
ghost use Rattle.shapes.specs.Parts.{properties_text};

use crate::props::Props;
use crate::shape::Id;
use lines::items::Items;
use sinks::written::{Listed, Notation, Number, Text, Then, Written};
use sinks::{Sink, WriteFault};

/// Lists of values in one notation, each in brackets.
#[derive(Clone, Copy)]
pub struct Lists<N>(pub N);

impl<T, N: Notation<T>> Notation<Items<T>> for Lists<N> {
    ghost text = { λ lists values. list_text (N.text lists.0) values };

    fn write_value<W: Sink>(&self, value: &Items<T>, sink: &mut W) -> Result<(), WriteFault> {
        Listed(value.as_slice(), &self.0).write(sink)
    }
}

/// The member `id` and a comma, or nothing where there is no id.
#[derive(Clone, Copy)]
pub struct IdMember<'a>(pub &'a Id);

impl<'a> Written for IdMember<'a> {
    ghost text = { λ member. id_text member.0.now };

    fn write<W: Sink>(&self, sink: &mut W) -> Result<(), WriteFault> {
        match self.0 {
            Id::None => Ok(()),
            Id::Number(number) => Then(Text(b"\"id\":"), Then(Number(*number), Text(b","))).write(
                sink,
            ),
            Id::Text(text) => {
                let spelling = Text(text.spelling().as_bytes());
                Then(Text(b"\"id\":"), Then(spelling, Text(b","))).write(sink)
            }
        }
    }
}

/// The member `properties` and a comma; nothing where there are none.
#[derive(Clone, Copy)]
pub struct PropertiesMember<'a>(pub &'a Props);

impl<'a> Written for PropertiesMember<'a> {
    ghost text = { λ p. properties_member (properties_text p.0.now) };

    fn write<W: Sink>(&self, sink: &mut W) -> Result<(), WriteFault> {
        if self.0.is_empty() {
            return Ok(());
        }
        let text = Text(self.0.text().as_bytes());
        Then(Text(b"\"properties\":"), Then(text, Text(b","))).write(sink)
    }
}
