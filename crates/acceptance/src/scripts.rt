//! Sinks that take little and then fail, and runs over them.
use crate::runs::Run;
use sinks::{Answer, Kept, Script, Sink};
use std::alloc::{AllocError, Global};
use std::test::Fail;

/// A sink that takes one byte a call for some calls, and then gives one other answer.
///
/// # Errors
/// Where memory is refused.
pub fn script(alloc: Global, calls: usize, last: Answer) -> Result<Script, AllocError> {
    let mut answers = Vec::new(alloc);
    for _ in 0..calls {
        answers.push(Answer::Take(1))?;
    }
    answers.push(last)?;
    Ok(Script::new(alloc, answers))
}

/// The answers by which a sink fails.
const EACH_WAY: &[Answer] = &[Answer::Fail, Answer::Take(0), Answer::FailAfter(1)];

/// How many bytes a sink takes by an answer.
fn taken_by(answer: Answer) -> usize {
    match answer {
        Answer::Take(count) => count,
        Answer::Fail => 0,
        Answer::FailAfter(count) => count,
    }
}

/// Whether a sink took so many bytes of a text, and failed so often.
pub fn took(sink: &Script, text: &[u8], length: usize, failures: u64) -> bool {
    text.starts_with(sink.taken()) && sink.taken().len() == length && sink.failures() == failures
}

impl Run {
    /// Whether the run over a sink tells by its status and its line that its output failed.
    pub fn tells_failure<O: Sink>(&self, out: &mut O) -> bool {
        let mut err = Kept::new(self.alloc);
        let status = self.over(out, &mut err);
        let line = err.into_bytes();
        status == 6 && line.as_slice() == b"topotool: 21 Write\n".as_slice()
    }

    /// Whether the run over a sink that fails by this answer after some calls, each of a byte, takes that
    /// beginning of the text, fails once, and tells so.
    ///
    /// # Errors
    /// Where memory is refused.
    pub fn fails(&self, text: &[u8], calls: usize, last: Answer) -> Result<bool, AllocError> {
        let mut sink = script(self.alloc, calls, last)?;
        let is_answered = self.tells_failure(&mut sink);
        Ok(is_answered && took(&sink, text, calls.saturating_add(taken_by(last)), 1))
    }

    fn assert_fails(&self, title: &str, text: &[u8], last: Answer) -> Result<(), Fail> {
        for calls in 0..text.len() {
            if !self.fails(text, calls, last)? {
                return Err(Fail::new(format_args!("{title}: {last:?} after {calls} calls")));
            }
        }
        Ok(())
    }

    /// The run, which prints this text, fails at each call in each way.
    ///
    /// # Errors
    /// The title, and where the run didn't fail so.
    pub fn assert_all_fail(&self, title: &str, text: &[u8]) -> Result<(), Fail> {
        for last in EACH_WAY {
            self.assert_fails(title, text, *last)?;
        }
        Ok(())
    }
}
