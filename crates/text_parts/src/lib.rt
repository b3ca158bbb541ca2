//! Parts of which texts are put together.
#![tactic(auto)]

ghost use Rattle.text_parts.specs.TextParts.{behind_texts, each_text, number_pair};
ghost use Rattle.sinks.specs.Writes.{TookAll, TookPart};
ghost use Rattle.std.specs.Prelude.{◌≡◌, [], ◌++◌, ◌||◌, OnErr, OnOk, cond, decimal, nat_lt};

use itoa::Buffer;
use sinks::written::{Notation, Noted, Number, Text, Then, Written};
use sinks::{Sink, WriteFault, put};

/// A number in decimal digits.
#[derive(Clone, Copy)]
pub struct Digits(pub usize);

impl Written for Digits {
    ghost text = { λ d. decimal d.0 };

    fn write<W: Sink>(&self, sink: &mut W) -> Result<(), WriteFault> {
        let mut buffer = Buffer::new();
        put(sink, buffer.format(self.0).as_bytes())
    }
}

/// A number of 128 bits in decimal digits.
#[derive(Clone, Copy)]
pub struct WideDigits(pub u128);

impl Written for WideDigits {
    ghost text = { λ d. decimal d.0 };

    fn write<W: Sink>(&self, sink: &mut W) -> Result<(), WriteFault> {
        let mut buffer = Buffer::new();
        put(sink, buffer.format(self.0).as_bytes())
    }
}

/// Two numbers with a comma between them.
#[derive(Clone, Copy)]
pub struct TwoNumbers(pub (i64, i64));

impl Written for TwoNumbers {
    ghost text = { λ p. number_pair p.0 };

    fn write<W: Sink>(&self, sink: &mut W) -> Result<(), WriteFault> {
        let (x, y) = self.0;
        Then(Number(x), Then(Text(b","), Number(y))).write(sink)
    }
}

/// A text as it is.
#[derive(Clone, Copy)]
pub struct Chars<'a>(pub &'a str);

impl<'a> Written for Chars<'a> {
    ghost text = { λ t. t.0.now };

    fn write<W: Sink>(&self, sink: &mut W) -> Result<(), WriteFault> {
        put(sink, self.0.as_bytes())
    }
}

/// A text behind a word.
#[derive(Clone, Copy)]
pub struct Worded<'a, A>(pub &'a str, pub A);

impl<'a, A: Written> Written for Worded<'a, A> {
    ghost text = { λ w. w.0.now ++ A.text w.1 };

    fn write<W: Sink>(&self, sink: &mut W) -> Result<(), WriteFault> {
        Then(Text(self.0.as_bytes()), &self.1).write(sink)
    }
}

/// The first text where it is asked for, else the second.
#[derive(Clone, Copy)]
pub struct OneOf<A, B>(pub bool, pub A, pub B);

impl<A: Written, B: Written> Written for OneOf<A, B> {
    ghost text = { λ t. cond t.0 (A.text t.1) (B.text t.2) };

    fn write<W: Sink>(&self, sink: &mut W) -> Result<(), WriteFault> {
        if self.0 {
            self.1.write(sink)
        } else {
            self.2.write(sink)
        }
    }
}

/// A text where it is asked for.
#[derive(Clone, Copy)]
pub struct If<A>(pub bool, pub A);

impl<A: Written> Written for If<A> {
    ghost text = { λ t. cond t.0 (A.text t.1) [] };

    fn write<W: Sink>(&self, sink: &mut W) -> Result<(), WriteFault> {
        if self.0 { self.1.write(sink) } else { Ok(()) }
    }
}

/// The values of a slice in order, in one notation, one behind another.
#[derive(Clone, Copy)]
pub struct InTurn<'a, T, N>(pub &'a [T], pub &'a N);

impl<'a, T, N: Notation<T>> Written for InTurn<'a, T, N> {
    ghost text = { λ e. each_text (N.text e.1.now) e.0.now };

    fn write<W: Sink>(&self, sink: &mut W) -> Result<(), WriteFault> {
        write_each(sink, self.1, self.0)
    }
}

fn write_each<W: Sink, T, N: Notation<T>>(
    sink: &mut W,
    notation: &N,
    values: &[T],
) -> Result<(), WriteFault>
    ensures whole { OnOk result (TookAll (W.seen sink.old) (W.seen sink.new) (each_text (N.text notation.now) values.now)) }
    ensures part { OnErr result (TookPart (W.seen sink.old) (W.seen sink.new) (each_text (N.text notation.now) values.now)) }
{
    let mut left = values;
    while let Some((value, after)) = left.split_first() {
        match notation.write_value(value, sink) {
            Ok(()) => left = after,
            Err(fault) => return Err(fault),
        }
    }
    Ok(())
}

/// Whether there are some, or there were some before.
pub fn has_some(before: bool, count: usize) -> bool
    ensures { result ≡ (before || nat_lt 0 count) }
{
    before || count > 0
}

/// The values of a slice in order, in one notation, each behind a separator where others are before it.
#[derive(Clone, Copy)]
pub struct SeparatedValues<'a, T, N> {
    pub separator: &'a [u8],
    pub is_behind: bool,
    pub values: &'a [T],
    pub notation: &'a N,
}

impl<'a, T, N: Notation<T>> Written for SeparatedValues<'a, T, N> {
    ghost text = { λ b. behind_texts b.separator.now b.is_behind (N.text b.notation.now) b.values.now };

    fn write<W: Sink>(&self, sink: &mut W) -> Result<(), WriteFault> {
        write_behind(
            sink,
            self.separator,
            self.is_behind,
            self.notation,
            self.values,
        )
    }
}

fn write_behind<W: Sink, T, N: Notation<T>>(
    sink: &mut W,
    separator: &[u8],
    is_first_behind: bool,
    notation: &N,
    values: &[T],
) -> Result<(), WriteFault>
    ensures whole { OnOk result (TookAll (W.seen sink.old) (W.seen sink.new) (behind_texts separator.now is_first_behind (N.text notation.now) values.now)) }
    ensures part { OnErr result (TookPart (W.seen sink.old) (W.seen sink.new) (behind_texts separator.now is_first_behind (N.text notation.now) values.now)) }
{
    let mut is_behind = is_first_behind;
    let mut left = values;
    while let Some((value, after)) = left.split_first() {
        let text = Then(If(is_behind, Text(separator)), Noted(value, notation));
        match text.write(sink) {
            Ok(()) => left = after,
            Err(fault) => return Err(fault),
        }
        is_behind = true;
    }
    Ok(())
}
