//! Calls that are listed in a table. A generic loop makes them, so that a check sees what is lent, and how it is
//! dropped, once and not with each call.

use crate::calls::Borrowed;
use crate::outcome::Tally;
use faults::OutOfMemory;
use std::alloc::Global;

/// The name of a call, and the call.
pub type Row<C> = (&'static str, C);

/// What is lent to the calls of a table.
pub trait Lends: Borrowed + Drop + Sized {
    /// Tells the calls apart.
    type Call: Copy;

    /// What is lent; none where memory is wanting.
    fn make(alloc: Global) -> Option<Self>;

    /// Makes a call, and tells whether its answer is right.
    fn answer(&self, alloc: Global, call: Self::Call) -> Result<bool, OutOfMemory>;
}

impl Tally {
    /// Makes each call of a table, as `attempt` does.
    pub fn attempt_each<L: Lends>(&mut self, rt: &HostRuntime, title: &str, rows: &[Row<L::Call>]) {
        let made = self.borrowed(
            rt,
            title,
            "what is borrowed",
            |alloc: Global| L::make(alloc),
        );
        if let Some(borrowed) = made {
            for (name, call) in rows {
                self.attempt(rt, title, &borrowed, name, |alloc: Global, borrowed: &L| {
                    borrowed.answer(alloc, *call)
                });
            }
        }
    }
}

/// Two values where both were made. A maker of many asks for all of them with one `?`, at which none is dropped.
pub fn both<A: Drop, B: Drop>(first: Option<A>, second: Option<B>) -> Option<(A, B)> {
    Some((first?, second?))
}
