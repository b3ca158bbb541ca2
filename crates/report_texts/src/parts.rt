//! Numbers of reports.
ghost use Rattle.report_texts.specs.Parts.{member_text};
ghost use Rattle.std.specs.Fmt.{decimal};

use sinks::written::{Notation, Text, Then, Written};
use sinks::{Sink, WriteFault};
use text_parts::{Digits, WideDigits};

/// A number behind its name.
#[derive(Clone, Copy)]
pub(crate) struct NamedCount<'a>(pub(crate) &'a [u8], pub(crate) u64);

impl<'a> Written for NamedCount<'a> {
    ghost text = { λ m. member_text m.0.now m.1 };

    fn write<W: Sink>(&self, sink: &mut W) -> Result<(), WriteFault> {
        Then(Text(self.0), WideDigits(u128::from(self.1))).write(sink)
    }
}

/// Numbers in decimal digits.
#[derive(Clone, Copy)]
pub(crate) struct DecimalNumbers;

impl Notation<usize> for DecimalNumbers {
    ghost text = { λ _ n. decimal n };

    fn write_value<W: Sink>(&self, value: &usize, sink: &mut W) -> Result<(), WriteFault> {
        Digits(*value).write(sink)
    }
}
