//! Values that have a text, and texts put together of texts. A text is written piece by piece
//! through `put`, with no memory.
ghost use Rattle.sinks.specs.Seen.{Seen};
ghost use Rattle.sinks.specs.Stops.{StopsAtValue, StopsIn, WritesAll};
ghost use Rattle.sinks.specs.Texts.{bracketed, joined, after_comma, after_commas, framed, list_text, option_text, pair_text};
ghost use Rattle.sinks.specs.Writes.{TookAll, TookPart};
ghost use Rattle.std.specs.Fmt.{signed_decimal};
ghost use Rattle.std.specs.Iterator.{IsFinite, YieldsThen};
ghost use Rattle.std.specs.Prelude.{◌≡◌, ℕ, ℤ, ◌<◌, ◌≤◌, ◌++◌, length, List, [], codes, None, OnErr, OnOk};

use crate::pair::{LONGEST_AFTER_COMMA, LONGEST_PAIR, write_pair, write_pair_after_comma};
use crate::{Sink, WriteFault, put};
use itoa::Buffer;

/// A value that has a text.
pub trait Written {
    /// The text's bytes.
    ghost text: { Self → List ℕ };

    /// Writes the text. After an error the sink took a beginning of it.
    fn write<W: Sink>(&self, sink: &mut W) -> Result<(), WriteFault>
        ensures whole { OnOk result (TookAll (W.seen sink.old) (W.seen sink.new) (text self.now)) }
        ensures part { OnErr result (TookPart (W.seen sink.old) (W.seen sink.new) (text self.now)) };
}

/// Bytes as they are.
#[derive(Clone, Copy)]
pub struct Text<'a>(pub &'a [u8]);

impl<'a> Written for Text<'a> {
    ghost text = { λ t. t.0.now };

    fn write<W: Sink>(&self, sink: &mut W) -> Result<(), WriteFault> {
        put(sink, self.0)
    }
}

/// A decimal number, with a minus where it is negative and no leading zeros.
#[derive(Clone, Copy)]
pub struct Number(pub i64);

impl Written for Number {
    ghost text = { λ n. signed_decimal n.0 };

    fn write<W: Sink>(&self, sink: &mut W) -> Result<(), WriteFault> {
        let mut buffer = Buffer::new();
        put(sink, buffer.format(self.0).as_bytes())
    }
}

/// One text after another.
#[derive(Clone, Copy)]
pub struct Then<A, B>(pub A, pub B);

impl<A: Written, B: Written> Written for Then<A, B> {
    ghost text = { λ t. A.text t.0 ++ B.text t.1 };

    fn write<W: Sink>(&self, sink: &mut W) -> Result<(), WriteFault> {
        match self.0.write(sink) {
            Ok(()) => self.1.write(sink),
            Err(fault) => Err(fault),
        }
    }
}

/// A text that may be missing.
impl<A: Written> Written for Option<A> {
    ghost text = { λ o. option_text A.text o };

    fn write<W: Sink>(&self, sink: &mut W) -> Result<(), WriteFault> {
        match self {
            Some(value) => value.write(sink),
            None => Ok(()),
        }
    }
}

/// A way to write values of one type.
pub trait Notation<T> {
    /// The bytes that stand for a value.
    ghost text: { Self → T → List ℕ };

    /// Writes the value. After an error the sink took a beginning of its text.
    fn write_value<W: Sink>(&self, value: &T, sink: &mut W) -> Result<(), WriteFault>
        ensures whole { OnOk result (TookAll (W.seen sink.old) (W.seen sink.new) (text self.now value.now)) }
        ensures part { OnErr result (TookPart (W.seen sink.old) (W.seen sink.new) (text self.now value.now)) };
}

/// A value in a notation.
#[derive(Clone, Copy)]
pub struct Noted<'a, T, N>(pub &'a T, pub &'a N);

impl<'a, T, N: Notation<T>> Written for Noted<'a, T, N> {
    ghost text = { λ v. N.text v.1.now v.0.now };

    fn write<W: Sink>(&self, sink: &mut W) -> Result<(), WriteFault> {
        self.1.write_value(self.0, sink)
    }
}

/// Values that have a text, by that text.
#[derive(Clone, Copy)]
pub struct Itself;

impl<T: Written> Notation<T> for Itself {
    ghost text = { λ _ value. T.text value };

    fn write_value<W: Sink>(&self, value: &T, sink: &mut W) -> Result<(), WriteFault> {
        value.write(sink)
    }
}

/// The values of a slice in order, in one notation, with commas between them.
#[derive(Clone, Copy)]
pub struct Each<'a, T, N>(pub &'a [T], pub &'a N);

impl<'a, T, N: Notation<T>> Written for Each<'a, T, N> {
    ghost text = { λ e. joined (N.text e.1.now) e.0.now };

    fn write<W: Sink>(&self, sink: &mut W) -> Result<(), WriteFault> {
        match self.0.split_first() {
            Some((first, others)) => match self.1.write_value(first, sink) {
                Ok(()) => write_others(sink, self.1, others),
                Err(fault) => Err(fault),
            },
            None => Ok(()),
        }
    }
}

fn write_others<W: Sink, T, N: Notation<T>>(
    sink: &mut W,
    notation: &N,
    others: &[T],
) -> Result<(), WriteFault>
    ensures whole { OnOk result (TookAll (W.seen sink.old) (W.seen sink.new) (after_commas (N.text notation.now) others.now)) }
    ensures part { OnErr result (TookPart (W.seen sink.old) (W.seen sink.new) (after_commas (N.text notation.now) others.now)) }
{
    let mut left = others;
    while let Some((value, after)) = left.split_first() {
        match write_after_comma(sink, notation, value) {
            Ok(()) => left = after,
            Err(fault) => return Err(fault),
        }
    }
    Ok(())
}

fn write_after_comma<W: Sink, T, N: Notation<T>>(
    sink: &mut W,
    notation: &N,
    value: &T,
) -> Result<(), WriteFault>
    ensures whole { OnOk result (TookAll (W.seen sink.old) (W.seen sink.new) (after_comma (N.text notation.now) value.now)) }
    ensures part { OnErr result (TookPart (W.seen sink.old) (W.seen sink.new) (after_comma (N.text notation.now) value.now)) }
{
    match put(sink, b",") {
        Ok(()) => notation.write_value(value, sink),
        Err(fault) => Err(fault),
    }
}

/// The texts of a slice in order, with commas between them.
#[derive(Clone, Copy)]
pub struct Joined<'a, T>(pub &'a [T]);

impl<'a, T: Written> Written for Joined<'a, T> {
    ghost text = { λ j. joined T.text j.0.now };

    fn write<W: Sink>(&self, sink: &mut W) -> Result<(), WriteFault> {
        Each(self.0, &Itself).write(sink)
    }
}

/// Two numbers in brackets.
#[derive(Clone, Copy)]
pub struct Pair(pub i64, pub i64);

impl Written for Pair {
    ghost text = { λ p. pair_text p.0 p.1 };

    fn write<W: Sink>(&self, sink: &mut W) -> Result<(), WriteFault> {
        let mut bytes = [0; LONGEST_PAIR];
        let start = write_pair(self.0, self.1, &mut bytes);
        put(sink, &bytes[start..])
    }
}

/// Two numbers in brackets after a comma, as one piece.
#[derive(Clone, Copy)]
pub struct PairAfterComma(pub i64, pub i64);

impl Written for PairAfterComma {
    ghost text = { λ p. codes "," ++ pair_text p.0 p.1 };

    fn write<W: Sink>(&self, sink: &mut W) -> Result<(), WriteFault> {
        let mut bytes = [0; LONGEST_AFTER_COMMA];
        let start = write_pair_after_comma(self.0, self.1, &mut bytes);
        put(sink, &bytes[start..])
    }
}

/// A text in brackets.
#[derive(Clone, Copy)]
pub struct Bracketed<A>(pub A);

impl<A: Written> Written for Bracketed<A> {
    ghost text = { λ b. bracketed (A.text b.0) };

    fn write<W: Sink>(&self, sink: &mut W) -> Result<(), WriteFault> {
        Then(Text(b"["), Then(&self.0, Text(b"]"))).write(sink)
    }
}

/// The values of a slice in one notation, as a list in brackets.
#[derive(Clone, Copy)]
pub struct Listed<'a, T, N>(pub &'a [T], pub &'a N);

impl<'a, T, N: Notation<T>> Written for Listed<'a, T, N> {
    ghost text = { λ l. list_text (N.text l.1.now) l.0.now };

    fn write<W: Sink>(&self, sink: &mut W) -> Result<(), WriteFault> {
        Bracketed(Each(self.0, self.1)).write(sink)
    }
}

impl<'a, A: Written> Written for &'a A {
    ghost text = { λ a. A.text a.now };

    fn write<W: Sink>(&self, sink: &mut W) -> Result<(), WriteFault> {
        A::write(*self, sink)
    }
}

/// Writes what an iterator gives, in one notation, with commas between, behind a head and before a tail.
/// After a failure no value is asked for.
pub fn write_framed<W: Sink, T: Drop, N: Notation<T>, I: Iterator<Item = T>>(
    sink: &mut W,
    head: &[u8],
    notation: &N,
    values: &mut I,
    tail: &[u8],
) -> Result<(), WriteFault>
    requires can { I.can_next values.old }
    requires ends { IsFinite (I.remaining values.old) }
    ensures whole { OnOk result ((xs : List T) × YieldsThen I.next_gives values.old xs None values.new × TookAll (W.seen sink.old) (W.seen sink.new) (framed (N.text notation.now) head.now xs tail.now)) }
    ensures part { OnErr result (StopsIn I.next_gives (N.text notation.now) head.now tail.now values.old values.new (W.seen sink.old) (W.seen sink.new)) }
{
    put(sink, head)?;
    match write_joined(sink, notation, values) {
        Ok(()) => put(sink, tail),
        Err(fault) => Err(fault),
    }
}

// Writes what an iterator gives, with commas between, until the sink fails.
fn write_joined<W: Sink, T: Drop, N: Notation<T>, I: Iterator<Item = T>>(
    sink: &mut W,
    notation: &N,
    values: &mut I,
) -> Result<(), WriteFault>
    requires can { I.can_next values.old }
    requires ends { IsFinite (I.remaining values.old) }
    ensures whole { OnOk result (WritesAll I.next_gives (N.text notation.now) values.old values.new (W.seen sink.old) (W.seen sink.new)) }
    ensures part { OnErr result (StopsAtValue I.next_gives (N.text notation.now) values.old values.new (W.seen sink.old) (W.seen sink.new)) }
{
    let mut separator = Text(b"");
    while let Some(value) = values.next() {
        match Then(separator, Noted(&value, notation)).write(sink) {
            Ok(()) => separator = Text(b","),
            Err(stop) => return Err(stop),
        }
    }
    Ok(())
}
