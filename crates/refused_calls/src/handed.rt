//! Calls that take no memory: what they are handed is made first, then a request is made that can be refused with all
//! behind it, and behind that each call has to give its answer.

use crate::outcome::{Answer, Outcome, Tally};
use crate::tables::both;
use faults::OutOfMemory;
use std::alloc::Global;

const TITLE: &str = "without memory";

/// Counts each call of a list: `rows!(rt, tally; "name" => is_right(), ..)`.
#[macro_export]
macro_rules! rows {
    ($rt:expr, $tally:expr; $($name:literal => $is_right:expr),+ $(,)?) => {
        $($tally.record_right($rt, $name, $is_right);)+
    };
}

/// What is handed to calls that take no memory.
pub trait Handed: Drop + Sized {
    /// What is handed over; none where memory is wanting.
    fn make(alloc: Global) -> Option<Self>;

    /// Makes the calls.
    fn test(self, rt: &HostRuntime, tally: &mut Tally);
}

impl<A: Handed, B: Handed> Handed for (A, B) {
    fn make(alloc: Global) -> Option<(A, B)> {
        both(A::make(alloc), B::make(alloc))
    }

    fn test(self, rt: &HostRuntime, tally: &mut Tally) {
        let (first, second) = self;
        first.test(rt, tally);
        second.test(rt, tally);
    }
}

/// A request for memory, the last one.
fn ask_once(alloc: Global, _: &()) -> Result<bool, OutOfMemory> {
    Ok(String::from_str(alloc, "a")?.as_str() == "a")
}

impl Tally {
    /// Counts a call that takes no memory, and names it where it was wrong.
    pub fn record_right(&mut self, rt: &HostRuntime, name: &str, is_right: bool) {
        let outcome = Outcome::of_first(Answer::of(is_right), true);
        self.record_without_memory(rt, TITLE, name, outcome);
    }

    /// Makes what calls are handed, then one request, the last, and then the calls.
    pub fn test_handed<H: Handed>(&mut self, rt: &HostRuntime) {
        let made = self.borrowed(
            rt,
            TITLE,
            "what is handed over",
            |alloc: Global| H::make(alloc),
        );
        self.attempt(rt, TITLE, &(), "a request", ask_once);
        if let Some(handed) = made {
            handed.test(rt, self);
        }
    }
}
