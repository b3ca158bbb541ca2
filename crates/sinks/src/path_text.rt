//! The number of a fault, and the path to it, as they are printed.

ghost use Rattle.sinks.specs.PathText.PathText.{byte_text, bytes_text, path_text, step_text, steps_text};
ghost use Rattle.faults.specs.Fault.{number_of, turn_of};
ghost use Rattle.sinks.specs.Writes.{TookAll, TookPart};
ghost use Rattle.std.specs.Prelude.{◌++◌, codes, decimal, map, OnErr, OnOk};

use crate::written::{Notation, Noted, Text, Then, Written};
use crate::{Sink, WriteFault, put};
use faults::{FaultKind, Step};
use itoa::Buffer;

/// The number of a kind of fault.
#[derive(Clone, Copy)]
pub struct KindNumber(pub FaultKind);

impl Written for KindNumber {
    ghost text = { λ k. decimal (number_of k.0) };

    fn write<W: Sink>(&self, sink: &mut W) -> Result<(), WriteFault> {
        let mut buffer = Buffer::new();
        put(sink, buffer.format(self.0.number()).as_bytes())
    }
}

/// Writes a byte of a member's name: `~0` for `~`, `~1` for `/`, and any other as it is.
fn write_byte<W: Sink>(sink: &mut W, byte: u8) -> Result<(), WriteFault>
    ensures whole { OnOk result (TookAll (W.seen sink.old) (W.seen sink.new) (byte_text byte)) }
    ensures part { OnErr result (TookPart (W.seen sink.old) (W.seen sink.new) (byte_text byte)) }
{
    match byte {
        b'~' => put(sink, b"~0"),
        b'/' => put(sink, b"~1"),
        _ => put(sink, &[byte]),
    }
}

fn write_bytes<W: Sink>(sink: &mut W, bytes: &[u8]) -> Result<(), WriteFault>
    ensures whole { OnOk result (TookAll (W.seen sink.old) (W.seen sink.new) (bytes_text bytes.now)) }
    ensures part { OnErr result (TookPart (W.seen sink.old) (W.seen sink.new) (bytes_text bytes.now)) }
{
    let mut left = bytes;
    while let Some((byte, after)) = left.split_first() {
        match write_byte(sink, *byte) {
            Ok(()) => left = after,
            Err(fault) => return Err(fault),
        }
    }
    Ok(())
}

/// Steps, each as the name of a member or the index of an element.
#[derive(Clone, Copy)]
struct StepTexts;

impl Notation<Step> for StepTexts {
    ghost text = { λ _ step. step_text (turn_of step) };

    fn write_value<W: Sink>(&self, value: &Step, sink: &mut W) -> Result<(), WriteFault> {
        match value {
            Step::Name(name) => write_bytes(sink, name.as_bytes()),
            Step::Index(index) => {
                let mut buffer = Buffer::new();
                put(sink, buffer.format(*index).as_bytes())
            }
        }
    }
}

fn write_after_slash<W: Sink>(sink: &mut W, step: &Step) -> Result<(), WriteFault>
    ensures whole { OnOk result (TookAll (W.seen sink.old) (W.seen sink.new) (codes "/" ++ step_text (turn_of step.now))) }
    ensures part { OnErr result (TookPart (W.seen sink.old) (W.seen sink.new) (codes "/" ++ step_text (turn_of step.now))) }
{
    Then(Text(b"/"), Noted(step, &StepTexts)).write(sink)
}

fn write_steps<W: Sink>(sink: &mut W, steps: &[Step]) -> Result<(), WriteFault>
    ensures whole { OnOk result (TookAll (W.seen sink.old) (W.seen sink.new) (steps_text (map turn_of steps.now))) }
    ensures part { OnErr result (TookPart (W.seen sink.old) (W.seen sink.new) (steps_text (map turn_of steps.now))) }
{
    let mut left = steps;
    while let Some((step, after)) = left.split_first() {
        match write_after_slash(sink, step) {
            Ok(()) => left = after,
            Err(fault) => return Err(fault),
        }
    }
    Ok(())
}

/// Steps, each after a slash.
#[derive(Clone, Copy)]
struct StepsText<'a>(&'a [Step]);

impl<'a> Written for StepsText<'a> {
    ghost text = { λ s. steps_text (map turn_of s.0.now) };

    fn write<W: Sink>(&self, sink: &mut W) -> Result<(), WriteFault> {
        write_steps(sink, self.0)
    }
}

/// The text of a path, as it is printed behind a fault's name: `$`, then `/` and the step for each step. In the
/// name of a member `~0` stands for `~` and `~1` for `/`, as in a JSON Pointer (RFC 6901).
#[derive(Clone, Copy)]
pub struct PathText<'a>(pub &'a [Step]);

impl<'a> Written for PathText<'a> {
    ghost text = { λ p. path_text (map turn_of p.0.now) };

    fn write<W: Sink>(&self, sink: &mut W) -> Result<(), WriteFault> {
        Then(Text(b"$"), StepsText(self.0)).write(sink)
    }
}

/// Writes the text of a path. It takes no memory.
///
/// # Errors
/// `Write` where the sink failed; it then took a beginning of the text.
pub fn write_path<W: Sink>(path: &[Step], sink: &mut W) -> Result<(), WriteFault>
    ensures whole { OnOk result (TookAll (W.seen sink.old) (W.seen sink.new) (path_text (map turn_of path.now))) }
    ensures part { OnErr result (TookPart (W.seen sink.old) (W.seen sink.new) (path_text (map turn_of path.now))) }
{
    PathText(path).write(sink)
}
