//! Errors as lines, in the form that editors and compilers share, and as JSON.
ghost use Rattle.faults.specs.Fault.{name_of, turn_of};
ghost use Rattle.fault_reports.specs.FaultReports.{array_text, feature_text, fault_text, file_text, label_text, line_text, lines_text, object_behind, object_end, object_kind, object_line, object_place, object_text, objects_text, place_text, remedy_member, report_lines};
ghost use Rattle.fault_reports.specs.FirstReports.{AreCounts, first_and_more, first_of_each, first_text};
ghost use Rattle.sinks.specs.PathText.PathText.{path_text};
ghost use Rattle.sinks.specs.Writes.{TookAll, TookPart};
ghost use Rattle.std.specs.Prelude.{[], ◌++◌, IfOk, None, false, OnErr, OnOk, decimal, map, nat_lt, string_bytes};

use crate::counts::FaultCounts;
use crate::more::write_more;
use crate::remedies::remedy;
use crate::report::FaultReport;
use crate::shared_text::SharedText;
use faults::FaultKind;
use sinks::path_text::{KindNumber, write_path};
use sinks::written::{Bracketed, Text, Then, Written};
use sinks::{Sink, WriteFault, put};
use text_parts::{Chars, Digits, If, Worded};

/// The name of a kind of error.
#[derive(Clone, Copy)]
pub(crate) struct KindName(pub(crate) FaultKind);

impl Written for KindName {
    ghost text = { λ k. name_of k.0 };

    fn write<W: Sink>(&self, sink: &mut W) -> Result<(), WriteFault> {
        put(sink, self.0.name().as_bytes())
    }
}

/// The path of an error.
#[derive(Clone, Copy)]
struct FaultPath<'a>(&'a FaultReport);

impl<'a> Written for FaultPath<'a> {
    ghost text = { λ p. path_text (map turn_of p.0.now.fault.path.items) };

    fn write<W: Sink>(&self, sink: &mut W) -> Result<(), WriteFault> {
        write_path(self.0.fault.path.as_slice(), sink)
    }
}

/// The path of an error as JSON.
#[derive(Clone, Copy)]
struct SpelledPath<'a>(&'a FaultReport);

impl<'a> Written for SpelledPath<'a> {
    ghost text = { λ p. string_bytes p.0.now.path };

    fn write<W: Sink>(&self, sink: &mut W) -> Result<(), WriteFault> {
        put(sink, self.0.path.as_bytes())
    }
}

/// A text behind a word, where there is one.
#[derive(Clone, Copy)]
struct LabelledText<'a>(&'a str, &'a Option<String>);

impl<'a> Written for LabelledText<'a> {
    ghost text = { λ t. label_text t.0.now t.1.now };

    fn write<W: Sink>(&self, sink: &mut W) -> Result<(), WriteFault> {
        match self.1 {
            Some(text) => Then(Text(self.0.as_bytes()), Text(text.as_bytes())).write(sink),
            None => Ok(()),
        }
    }
}

/// An id behind a word, where there is one.
#[derive(Clone, Copy)]
struct LabelledId<'a>(&'a str, &'a Option<SharedText>);

impl<'a> Written for LabelledId<'a> {
    ghost text = { λ t. label_text t.0.now t.1.now };

    fn write<W: Sink>(&self, sink: &mut W) -> Result<(), WriteFault> {
        match self.1 {
            Some(id) => Worded(self.0, Text(id.text().as_bytes())).write(sink),
            None => Ok(()),
        }
    }
}

/// The file, the line and the column of an error.
#[derive(Clone, Copy)]
struct ReportPlace<'a>(&'a str, &'a FaultReport);

impl<'a> Written for ReportPlace<'a> {
    ghost text = { λ p. place_text p.0.now p.1.now };

    fn write<W: Sink>(&self, sink: &mut W) -> Result<(), WriteFault> {
        let place = self.1.place;
        let line = Worded(":", Digits(place.line));
        let column = Worded(":", Digits(place.column));
        Then(Chars(self.0), Then(line, column)).write(sink)
    }
}

/// The number, the name and the path of an error.
#[derive(Clone, Copy)]
struct ReportFault<'a>(&'a FaultReport);

impl<'a> Written for ReportFault<'a> {
    ghost text = { λ f. fault_text f.0.now };

    fn write<W: Sink>(&self, sink: &mut W) -> Result<(), WriteFault> {
        let kind = self.0.fault.kind;
        let number = Worded(": ", KindNumber(kind));
        let name = Worded(" ", KindName(kind));
        Then(number, Then(name, Worded(" ", FaultPath(self.0)))).write(sink)
    }
}

/// The id of the feature and the member of the properties, where there is one, and the end of a line.
#[derive(Clone, Copy)]
struct ReportFeature<'a>(&'a FaultReport);

impl<'a> Written for ReportFeature<'a> {
    ghost text = { λ f. feature_text f.0.now };

    fn write<W: Sink>(&self, sink: &mut W) -> Result<(), WriteFault> {
        let id = LabelledId(" id ", &self.0.id);
        let member = LabelledText(" member ", &self.0.member);
        Then(id, Then(member, Text(b"\n"))).write(sink)
    }
}

/// The report of an error of a file as a line.
#[derive(Clone, Copy)]
struct ReportLine<'a>(&'a str, &'a FaultReport);

impl<'a> Written for ReportLine<'a> {
    ghost text = { λ l. line_text l.0.now l.1.now };

    fn write<W: Sink>(&self, sink: &mut W) -> Result<(), WriteFault> {
        let fault = Then(ReportFault(self.1), ReportFeature(self.1));
        Then(ReportPlace(self.0, self.1), fault).write(sink)
    }
}

/// The line of a report, and where that is asked for a second one with what helps.
#[derive(Clone, Copy)]
struct ReportLines<'a>(&'a str, &'a FaultReport, bool);

impl<'a> Written for ReportLines<'a> {
    ghost text = { λ l. report_lines l.0.now l.2 l.1.now };

    fn write<W: Sink>(&self, sink: &mut W) -> Result<(), WriteFault> {
        let line = ReportLine(self.0, self.1);
        if self.2 {
            let help = remedy(self.1.fault.kind).as_bytes();
            Then(line, Then(Text(b"    "), Then(Text(help), Text(b"\n")))).write(sink)
        } else {
            line.write(sink)
        }
    }
}

/// Writes a line for each error of a file, and where that is asked for a second one with what helps; or that there is none.
///
/// # Errors
/// `Write` where the sink failed; it then took a beginning of the text.
pub fn write_lines<W: Sink>(
    file: &str,
    reports: &[FaultReport],
    is_explained: bool,
    sink: &mut W,
) -> Result<(), WriteFault>
    ensures whole { OnOk result (TookAll (W.seen sink.old) (W.seen sink.new) (file_text file.now is_explained reports.now)) }
    ensures part { OnErr result (TookPart (W.seen sink.old) (W.seen sink.new) (file_text file.now is_explained reports.now)) }
{
    write_up_to(reports.len(), file, reports, is_explained, sink)
}

/// Writes the same of the first ten errors of each number, in their order, and then for each number how many more there are.
///
/// # Errors
/// `Write` where the sink failed; it then took a beginning of the text.
pub fn write_first_lines<W: Sink>(
    file: &str,
    reports: &[FaultReport],
    is_explained: bool,
    sink: &mut W,
) -> Result<(), WriteFault>
    ensures whole { OnOk result (TookAll (W.seen sink.old) (W.seen sink.new) (first_text 10 file.now is_explained reports.now)) }
    ensures part { OnErr result (TookPart (W.seen sink.old) (W.seen sink.new) (first_text 10 file.now is_explained reports.now)) }
{
    write_up_to(10, file, reports, is_explained, sink)
}

/// Writes the first lines up to a limit.
fn write_up_to<W: Sink>(
    limit: usize,
    file: &str,
    reports: &[FaultReport],
    is_explained: bool,
    sink: &mut W,
) -> Result<(), WriteFault>
    ensures whole { OnOk result (TookAll (W.seen sink.old) (W.seen sink.new) (first_text limit file.now is_explained reports.now)) }
    ensures part { OnErr result (TookPart (W.seen sink.old) (W.seen sink.new) (first_text limit file.now is_explained reports.now)) }
{
    match reports.split_first() {
        Some(_) => write_first_and_more(limit, file, reports, is_explained, sink),
        None => Then(Chars(file), Text(b": no faults\n")).write(sink),
    }
}

/// Writes the same, and nothing where there is no error.
fn write_first_and_more<W: Sink>(
    limit: usize,
    file: &str,
    reports: &[FaultReport],
    is_explained: bool,
    sink: &mut W,
) -> Result<(), WriteFault>
    ensures whole { OnOk result (TookAll (W.seen sink.old) (W.seen sink.new) (first_and_more limit file.now is_explained reports.now)) }
    ensures part { OnErr result (TookPart (W.seen sink.old) (W.seen sink.new) (first_and_more limit file.now is_explained reports.now)) }
{
    match write_reports(limit, file, reports, is_explained, sink) {
        Ok(counts) => write_more(limit, file, &counts, sink),
        Err(fault) => Err(fault),
    }
}

/// Writes the reports that are among the first of their number, and counts all.
fn write_reports<W: Sink>(
    limit: usize,
    file: &str,
    reports: &[FaultReport],
    is_explained: bool,
    sink: &mut W,
) -> Result<FaultCounts, WriteFault>
    ensures counts { IfOk result (AreCounts reports.now) }
    ensures whole { OnOk result (TookAll (W.seen sink.old) (W.seen sink.new) (lines_text file.now is_explained (first_of_each limit [] reports.now))) }
    ensures part { OnErr result (TookPart (W.seen sink.old) (W.seen sink.new) (lines_text file.now is_explained (first_of_each limit [] reports.now))) }
{
    let mut counts = FaultCounts::none();
    let mut left = reports;
    while let Some((report, after)) = left.split_first() {
        let is_first = counts.of(report.fault.kind) < limit;
        match If(is_first, ReportLines(file, report, is_explained)).write(sink) {
            Ok(()) => left = after,
            Err(fault) => return Err(fault),
        }
        counts.add(report);
    }
    Ok(counts)
}

/// What helps, as a member of an object, where that is asked for.
#[derive(Clone, Copy)]
struct RemedyMember<'a>(&'a FaultReport, bool);

impl<'a> Written for RemedyMember<'a> {
    ghost text = { λ m. remedy_member m.1 m.0.now };

    fn write<W: Sink>(&self, sink: &mut W) -> Result<(), WriteFault> {
        if self.1 {
            let help = remedy(self.0.fault.kind).as_bytes();
            Then(Text(b",\"remedy\":\""), Then(Text(help), Text(b"\""))).write(sink)
        } else {
            Ok(())
        }
    }
}

/// The members column and file of an object. The name of the file, where it has one, is JSON.
#[derive(Clone, Copy)]
struct ObjectPlace<'a>(&'a Option<String>, &'a FaultReport);

impl<'a> Written for ObjectPlace<'a> {
    ghost text = { λ p. object_place p.0.now p.1.now };

    fn write<W: Sink>(&self, sink: &mut W) -> Result<(), WriteFault> {
        let column = Worded("{\"column\":", Digits(self.1.place.column));
        Then(column, LabelledText(",\"file\":", self.0)).write(sink)
    }
}

/// The members id, line and member of an object.
#[derive(Clone, Copy)]
struct ObjectLine<'a>(&'a FaultReport);

impl<'a> Written for ObjectLine<'a> {
    ghost text = { λ l. object_line l.0.now };

    fn write<W: Sink>(&self, sink: &mut W) -> Result<(), WriteFault> {
        let id = LabelledId(",\"id\":", &self.0.id);
        let line = Worded(",\"line\":", Digits(self.0.place.line));
        Then(id, Then(line, LabelledText(",\"member\":", &self.0.member))).write(sink)
    }
}

/// The members name, number and path of an object.
#[derive(Clone, Copy)]
struct ObjectKind<'a>(&'a FaultReport);

impl<'a> Written for ObjectKind<'a> {
    ghost text = { λ k. object_kind k.0.now };

    fn write<W: Sink>(&self, sink: &mut W) -> Result<(), WriteFault> {
        let kind = self.0.fault.kind;
        let name = Worded(",\"name\":\"", KindName(kind));
        let number = Worded("\",\"number\":", KindNumber(kind));
        Then(
            name,
            Then(number, Worded(",\"path\":", SpelledPath(self.0))),
        )
        .write(sink)
    }
}

/// The member remedy of an object, where that is asked for, and its end.
#[derive(Clone, Copy)]
struct ObjectEnd<'a>(&'a FaultReport, bool);

impl<'a> Written for ObjectEnd<'a> {
    ghost text = { λ e. object_end e.1 e.0.now };

    fn write<W: Sink>(&self, sink: &mut W) -> Result<(), WriteFault> {
        Then(RemedyMember(self.0, self.1), Text(b"}")).write(sink)
    }
}

/// The report of an error of a file, whose name, where it has one, is JSON, as an object with its members in byte order of
/// their names.
#[derive(Clone, Copy)]
struct ReportObject<'a>(&'a Option<String>, &'a FaultReport, bool);

impl<'a> Written for ReportObject<'a> {
    ghost text = { λ o. object_text o.0.now o.2 o.1.now };

    fn write<W: Sink>(&self, sink: &mut W) -> Result<(), WriteFault> {
        let place = Then(ObjectPlace(self.0, self.1), ObjectLine(self.1));
        let end = ObjectEnd(self.1, self.2);
        Then(place, Then(ObjectKind(self.1), end)).write(sink)
    }
}

/// Writes an object, behind a comma where others are before it.
fn write_object<W: Sink>(
    file: &Option<String>,
    report: &FaultReport,
    is_explained: bool,
    is_behind: bool,
    sink: &mut W,
) -> Result<(), WriteFault>
    ensures whole { OnOk result (TookAll (W.seen sink.old) (W.seen sink.new) (object_behind is_behind file.now is_explained report.now)) }
    ensures part { OnErr result (TookPart (W.seen sink.old) (W.seen sink.new) (object_behind is_behind file.now is_explained report.now)) }
{
    let object = ReportObject(file, report, is_explained);
    if is_behind {
        Then(Text(b",\n"), object).write(sink)
    } else {
        object.write(sink)
    }
}

/// Writes the errors of a file, whose name, where it has one, is JSON, as elements of a JSON array, behind `before` of other
/// files.
///
/// # Errors
/// `Write` where the sink failed; it then took a beginning of the text.
pub fn write_json<W: Sink>(
    file: &Option<String>,
    reports: &[FaultReport],
    is_explained: bool,
    before: usize,
    sink: &mut W,
) -> Result<(), WriteFault>
    ensures whole { OnOk result (TookAll (W.seen sink.old) (W.seen sink.new) (objects_text file.now is_explained (nat_lt 0 before) reports.now)) }
    ensures part { OnErr result (TookPart (W.seen sink.old) (W.seen sink.new) (objects_text file.now is_explained (nat_lt 0 before) reports.now)) }
{
    let mut is_behind = before > 0;
    let mut left = reports;
    while let Some((report, after)) = left.split_first() {
        match write_object(file, report, is_explained, is_behind, sink) {
            Ok(()) => left = after,
            Err(fault) => return Err(fault),
        }
        is_behind = true;
    }
    Ok(())
}

/// The reports of the errors of a text without a name, as a JSON array.
#[derive(Clone, Copy)]
pub struct ReportArray<'a>(pub &'a [FaultReport]);

impl<'a> Written for ReportArray<'a> {
    ghost text = { λ a. array_text a.0.now };

    fn write<W: Sink>(&self, sink: &mut W) -> Result<(), WriteFault> {
        Bracketed(ReportObjects(self.0)).write(sink)
    }
}

/// The elements of that array.
#[derive(Clone, Copy)]
struct ReportObjects<'a>(&'a [FaultReport]);

impl<'a> Written for ReportObjects<'a> {
    ghost text = { λ a. objects_text None false false a.0.now };

    fn write<W: Sink>(&self, sink: &mut W) -> Result<(), WriteFault> {
        write_json(&None, self.0, false, 0, sink)
    }
}
