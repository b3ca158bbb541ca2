//! How many errors a file has of a number, behind the first of them.
ghost use Rattle.faults.specs.Fault.{name_of, number_of};
ghost use Rattle.fault_reports.specs.FirstReports.{all_kinds, count_text, counted, kind_text, more_line, more_lines, more_text};
ghost use Rattle.sinks.specs.Writes.{TookAll, TookPart};
ghost use Rattle.std.specs.Prelude.{◌≡◌, ◌++◌, OnErr, OnOk, codes, decimal};

use crate::counts::FaultCounts;
use crate::written::KindName;
use faults::FaultKind;
use sinks::path_text::KindNumber;
use sinks::written::{Notation, Text, Then, Written};
use sinks::{Sink, WriteFault};
use text_parts::{Chars, Digits, If, InTurn, Worded};

/// The kinds of errors, ascending by number.
fn all_kinds() -> [FaultKind; 21]
    ensures { result ≡ all_kinds }
{
    [
        FaultKind::NotJson,
        FaultKind::Missing,
        FaultKind::WrongKind,
        FaultKind::UnknownType,
        FaultKind::NotWhole,
        FaultKind::OutOfRange,
        FaultKind::OffGrid,
        FaultKind::TooShort,
        FaultKind::NotClosed,
        FaultKind::Revisit,
        FaultKind::NoArc,
        FaultKind::Broken,
        FaultKind::PropertyNumber,
        FaultKind::PropertyDepth,
        FaultKind::NoTransform,
        FaultKind::NotTwo,
        FaultKind::OtherGrid,
        FaultKind::BadPlan,
        FaultKind::NoLayer,
        FaultKind::OutOfMemory,
        FaultKind::Write,
    ]
}

/// The number and the name of a kind.
#[derive(Clone, Copy)]
struct NumberAndName(FaultKind);

impl Written for NumberAndName {
    ghost text = { λ k. kind_text k.0 };

    fn write<W: Sink>(&self, sink: &mut W) -> Result<(), WriteFault> {
        let number = Worded(": ", KindNumber(self.0));
        Then(number, Worded(" ", KindName(self.0))).write(sink)
    }
}

/// How many more errors there are.
#[derive(Clone, Copy)]
struct MoreCount(usize);

impl Written for MoreCount {
    ghost text = { λ m. count_text m.0 };

    fn write<W: Sink>(&self, sink: &mut W) -> Result<(), WriteFault> {
        let count = Worded(": ", Digits(self.0));
        Then(count, Text(b" more (--all prints each)\n")).write(sink)
    }
}

/// How many more errors of a kind a file has.
#[derive(Clone, Copy)]
struct MoreLine<'a>(&'a str, FaultKind, usize);

impl<'a> Written for MoreLine<'a> {
    ghost text = { λ m. more_text m.0.now m.1 m.2 };

    fn write<W: Sink>(&self, sink: &mut W) -> Result<(), WriteFault> {
        Then(
            Chars(self.0),
            Then(NumberAndName(self.1), MoreCount(self.2)),
        )
        .write(sink)
    }
}

/// Of each kind how many more errors than the limit a file has, where it has more.
#[derive(Clone, Copy)]
struct MoreLines<'a> {
    file: &'a str,
    limit: usize,
    counts: &'a FaultCounts,
}

impl<'a> Notation<FaultKind> for MoreLines<'a> {
    ghost text = { λ m kind. more_line m.limit m.file.now kind (counted m.counts.now kind) };

    fn write_value<W: Sink>(&self, kind: &FaultKind, sink: &mut W) -> Result<(), WriteFault> {
        let count = self.counts.of(*kind);
        let more = count.saturating_sub(self.limit);
        If(count > self.limit, MoreLine(self.file, *kind, more)).write(sink)
    }
}

/// Writes for each number how many more errors than the limit a file has, where it has more.
#[tactic(auto, unfolding(crate::specs::FirstReports::more_lines))]
pub(crate) fn write_more<W: Sink>(
    limit: usize,
    file: &str,
    counts: &FaultCounts,
    sink: &mut W,
) -> Result<(), WriteFault>
    ensures whole { OnOk result (TookAll (W.seen sink.old) (W.seen sink.new) (more_lines limit file.now (counted counts.now))) }
    ensures part { OnErr result (TookPart (W.seen sink.old) (W.seen sink.new) (more_lines limit file.now (counted counts.now))) }
{
    let lines = MoreLines {
        file,
        limit,
        counts,
    };
    InTurn(&all_kinds(), &lines).write(sink)
}
