//! What differs, as lines for people.
ghost use Rattle.difference_text.specs.DifferenceLines.{change_line, change_text, counts_line, difference_lines, feature_name, geometry_line, geometry_part, gone_text, ids_part, kinds_part, layer_head, layer_lines, layers_part, member_line, parts_text, single_line, single_text};
ghost use Rattle.difference_text.specs.DifferenceParts.{layer_report, report_of};
ghost use Rattle.sinks.specs.Writes.{TookAll, TookPart};
ghost use Rattle.std.specs.Prelude.{OnErr, OnOk};

use crate::difference::{ChangeCounts, Difference, FeatureChange, LayerChanges, Single};
use crate::geometry::GeometryChange;
use crate::members::MemberChange;
use crate::parts::{IdText, LayerView, TextOr, View, direction_words, has_other_id, is_one_kind};
use compare::LayerPair;
use shapes::Id;
use sinks::written::{Notation, Text, Then, Written};
use sinks::{Sink, WriteFault};
use text_parts::{Chars, Digits, If, InTurn, OneOf, SeparatedValues, Worded, has_some};
use topo::{Body, Geom, Topology};

/// The line of a layer that only one topology has.
#[derive(Clone, Copy)]
struct LayerHead<'a>(LayerPair, &'a str);

impl<'a> Written for LayerHead<'a> {
    ghost text = { λ h. layer_head h.0.old h.0.new h.1.now };

    fn write<W: Sink>(&self, sink: &mut W) -> Result<(), WriteFault> {
        let name = Then(Chars(self.1), Text(b"\n"));
        match self.0.old {
            None => Then(Text(b"+ layer "), name).write(sink),
            Some(_) => match self.0.new {
                None => Then(Text(b"- layer "), name).write(sink),
                Some(_) => Ok(()),
            },
        }
    }
}

/// A layer's name, and the key or the id of a feature.
#[derive(Clone, Copy)]
struct FeatureName<'a>(LayerView<'a>, &'a Option<String>, &'a Id);

impl<'a> Written for FeatureName<'a> {
    ghost text = { λ n. feature_name (report_of n.0) n.1.now n.2.now };

    fn write<W: Sink>(&self, sink: &mut W) -> Result<(), WriteFault> {
        let name = OneOf(self.0.is_keyed, TextOr("null", self.1), IdText(self.2));
        let tail = Then(name, Text(b" "));
        Then(Chars(self.0.name), Then(Text(b" "), tail)).write(sink)
    }
}

/// The line of a feature that one layer has alone, behind a sign.
#[derive(Clone, Copy)]
struct SingleText<'a>(&'a str, LayerView<'a>, &'a Single, &'a Geom);

impl<'a> Written for SingleText<'a> {
    ghost text = { λ s. single_text s.0.now (report_of s.1) s.2.now s.3.now };

    fn write<W: Sink>(&self, sink: &mut W) -> Result<(), WriteFault> {
        let name = FeatureName(self.1, &self.2.key, &self.3.id);
        let tail = Then(Text(self.3.props.text().as_bytes()), Text(b"\n"));
        Then(Chars(self.0), Then(name, tail)).write(sink)
    }
}

/// Features that one layer has alone, by their numbers among geometries, each as a line behind a sign.
#[derive(Clone, Copy)]
struct SingleLines<'a>(&'a str, LayerView<'a>, &'a [Geom]);

impl<'a> Notation<Single> for SingleLines<'a> {
    ghost text = { λ l s. single_line l.0.now (report_of l.1) l.2.now s };

    fn write_value<W: Sink>(&self, value: &Single, sink: &mut W) -> Result<(), WriteFault> {
        match self.2.get(value.number) {
            Some(geometry) => SingleText(self.0, self.1, value, geometry).write(sink),
            None => Ok(()),
        }
    }
}

/// The ids of two features, where they differ.
#[derive(Clone, Copy)]
struct IdsPart<'a>(&'a Id, &'a Id);

impl<'a> Written for IdsPart<'a> {
    ghost text = { λ i. ids_part i.0.now i.1.now };

    fn write<W: Sink>(&self, sink: &mut W) -> Result<(), WriteFault> {
        let new = Then(Text(b" -> "), IdText(self.1));
        let ids = Then(Text(b"id: "), Then(IdText(self.0), new));
        If(has_other_id(self.0, self.1), ids).write(sink)
    }
}

/// Properties that differ, each as its name and its values.
#[derive(Clone, Copy)]
struct MemberLines;

impl Notation<MemberChange> for MemberLines {
    ghost text = { λ _ m. member_line m };

    fn write_value<W: Sink>(&self, value: &MemberChange, sink: &mut W) -> Result<(), WriteFault> {
        let name = Text(value.name.spelling().as_bytes());
        let new = Then(Text(b" -> "), TextOr("missing", &value.new));
        let values = Then(TextOr("missing", &value.old), new);
        Then(name, Then(Text(b": "), values)).write(sink)
    }
}

/// The kinds of two geometries, where they differ.
#[derive(Clone, Copy)]
struct KindsPart<'a>(&'a Body, &'a Body);

impl<'a> Written for KindsPart<'a> {
    ghost text = { λ k. kinds_part k.0.now k.1.now };

    fn write<W: Sink>(&self, sink: &mut W) -> Result<(), WriteFault> {
        let new = Then(Chars(self.1.kind_name()), Text(b", "));
        let kinds = Then(Chars(self.0.kind_name()), Then(Text(b" -> "), new));
        OneOf(is_one_kind(self.0, self.1), Text(b""), kinds).write(sink)
    }
}

/// How many vertices are gone.
#[derive(Clone, Copy)]
struct Gone(usize);

impl Written for Gone {
    ghost text = { λ g. gone_text g.0 };

    fn write<W: Sink>(&self, sink: &mut W) -> Result<(), WriteFault> {
        let vertices = OneOf(self.0 == 1, Text(b" vertex"), Text(b" vertices"));
        Then(Digits(self.0), vertices).write(sink)
    }
}

/// What differs between two geometries.
#[derive(Clone, Copy)]
struct GeometryLine<'a>(GeometryChange, &'a Body, &'a Body);

impl<'a> Written for GeometryLine<'a> {
    ghost text = { λ g. geometry_line g.0 g.1.now g.2.now };

    fn write<W: Sink>(&self, sink: &mut W) -> Result<(), WriteFault> {
        match self.0 {
            GeometryChange::Direction => Chars(direction_words(self.1)).write(sink),
            GeometryChange::Order => Text(b"vertex order only").write(sink),
            GeometryChange::Vertices { gone, new } => {
                let added = Then(Worded(" gone, ", Digits(new)), Text(b" new"));
                let kinds = KindsPart(self.1, self.2);
                Then(kinds, Then(Gone(gone), added)).write(sink)
            }
        }
    }
}

/// What differs between two geometries, where anything does, behind other parts.
#[derive(Clone, Copy)]
struct GeometryDifference<'a>(bool, Option<GeometryChange>, &'a Body, &'a Body);

impl<'a> Written for GeometryDifference<'a> {
    ghost text = { λ g. geometry_part g.0 g.1 g.2.now g.3.now };

    fn write<W: Sink>(&self, sink: &mut W) -> Result<(), WriteFault> {
        match self.1 {
            Some(change) => {
                let line = GeometryLine(change, self.2, self.3);
                let separator = If(self.0, Text(b"; "));
                Then(separator, Then(Text(b"geometry: "), line)).write(sink)
            }
            None => Ok(()),
        }
    }
}

/// What differs between two features: their ids, their properties, and their geometries.
#[derive(Clone, Copy)]
struct PartsText<'a>(&'a FeatureChange, &'a Geom, &'a Geom);

impl<'a> Written for PartsText<'a> {
    ghost text = { λ p. parts_text p.0.now p.1.now p.2.now };

    fn write<W: Sink>(&self, sink: &mut W) -> Result<(), WriteFault> {
        let is_behind = has_other_id(&self.1.id, &self.2.id);
        let values = self.0.members.as_slice();
        let members = SeparatedValues {
            separator: b"; ",
            is_behind,
            values,
            notation: &MemberLines,
        };
        let geometry = GeometryDifference(
            has_some(is_behind, values.len()),
            self.0.geometry,
            &self.1.body,
            &self.2.body,
        );
        let ids = IdsPart(&self.1.id, &self.2.id);
        Then(ids, Then(members, geometry)).write(sink)
    }
}

/// The line of two features that differ.
#[derive(Clone, Copy)]
struct ChangeText<'a>(LayerView<'a>, &'a FeatureChange, &'a Geom, &'a Geom);

impl<'a> Written for ChangeText<'a> {
    ghost text = { λ c. change_text (report_of c.0) c.1.now c.2.now c.3.now };

    fn write<W: Sink>(&self, sink: &mut W) -> Result<(), WriteFault> {
        let name = FeatureName(self.0, &self.1.key, &self.2.id);
        let parts = Then(PartsText(self.1, self.2, self.3), Text(b"\n"));
        Then(Text(b"~ "), Then(name, parts)).write(sink)
    }
}

/// Features that differ, by their numbers among the geometries of a layer, each pair as a line.
#[derive(Clone, Copy)]
struct ChangeLines<'a>(LayerView<'a>);

impl<'a> Notation<FeatureChange> for ChangeLines<'a> {
    ghost text = { λ l c. change_line (report_of l.0) c };

    fn write_value<W: Sink>(&self, value: &FeatureChange, sink: &mut W) -> Result<(), WriteFault> {
        match self.0.olds.get(value.old) {
            Some(old) => match self.0.news.get(value.new) {
                Some(new) => ChangeText(self.0, value, old, new).write(sink),
                None => Ok(()),
            },
            None => Ok(()),
        }
    }
}

/// The lines of the layers of a name.
#[derive(Clone, Copy)]
struct LayerChangeLines<'a>(LayerView<'a>);

impl<'a> Written for LayerChangeLines<'a> {
    ghost text = { λ l. layer_lines (report_of l.0) };

    fn write<W: Sink>(&self, sink: &mut W) -> Result<(), WriteFault> {
        let layer = self.0;
        let changes = layer.changes;
        let olds = SingleLines("- ", layer, layer.olds);
        let news = SingleLines("+ ", layer, layer.news);
        let lines = ChangeLines(layer);
        let removed = InTurn(changes.removed.as_slice(), &olds);
        let added = InTurn(changes.added.as_slice(), &news);
        let changed = InTurn(changes.changed.as_slice(), &lines);
        let head = LayerHead(changes.layers, layer.name);
        Then(head, Then(removed, Then(added, changed))).write(sink)
    }
}

/// Layers of a difference, each as its lines.
#[derive(Clone, Copy)]
struct LayersAsLines<'a>(View<'a>);

impl<'a> Notation<LayerChanges> for LayersAsLines<'a> {
    ghost text = { λ v l. layer_lines (layer_report v.0.difference.now.is_keyed v.0.old.now v.0.new.now l) };

    fn write_value<W: Sink>(&self, value: &LayerChanges, sink: &mut W) -> Result<(), WriteFault> {
        LayerChangeLines(self.0.layer(value)).write(sink)
    }
}

/// How many layers were added or removed, if any.
#[derive(Clone, Copy)]
struct LayersPart<'a>(usize, &'a str);

impl<'a> Written for LayersPart<'a> {
    ghost text = { λ l. layers_part l.0 l.1.now };

    fn write<W: Sink>(&self, sink: &mut W) -> Result<(), WriteFault> {
        let word = OneOf(self.0 == 1, Text(b" layer"), Text(b" layers"));
        let layers = Then(Digits(self.0), Then(word, Chars(self.1)));
        If(self.0 > 0, Then(Text(b", "), layers)).write(sink)
    }
}

/// The line of counts; those of layers where there are any.
#[derive(Clone, Copy)]
struct CountsLine(ChangeCounts);

impl Written for CountsLine {
    ghost text = { λ c. counts_line c.0 };

    fn write<W: Sink>(&self, sink: &mut W) -> Result<(), WriteFault> {
        let removed = LayersPart(self.0.layers_removed, " removed");
        let layers = Then(
            LayersPart(self.0.layers_added, " added"),
            Then(removed, Text(b"\n")),
        );
        let changed = Then(
            Worded(" removed, ", Digits(self.0.changed)),
            Then(Text(b" changed"), layers),
        );
        let removed = Worded(" added, ", Digits(self.0.removed));
        Then(Digits(self.0.added), Then(removed, changed)).write(sink)
    }
}

/// Writes a line for each layer and each feature that was removed, added or changed, by the names of the layers, and a
/// last line of counts.
///
/// # Errors
/// `Write` where the sink failed; it then took a beginning of the text.
pub fn write_lines<W: Sink>(
    difference: &Difference,
    old: &Topology,
    new: &Topology,
    sink: &mut W,
) -> Result<(), WriteFault>
    ensures whole { OnOk result (TookAll (W.seen sink.old) (W.seen sink.new) (difference_lines difference.now old.now new.now)) }
    ensures part { OnErr result (TookPart (W.seen sink.old) (W.seen sink.new) (difference_lines difference.now old.now new.now)) }
{
    let lines = LayersAsLines(View {
        difference,
        old,
        new,
    });
    let layers = InTurn(difference.layers.as_slice(), &lines);
    Then(layers, CountsLine(difference.counts())).write(sink)
}
