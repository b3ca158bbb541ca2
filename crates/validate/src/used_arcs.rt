//! Which arcs lists use.
ghost use Rattle.arcs.specs.ArcMarks.{each_unmarked, marks_set};
ghost use Rattle.std.specs.List.{list_all};
ghost use Rattle.std.specs.Prelude.{◌≡◌, IfOk, false, length, replicate, true};

use arcs::ArcMarks;
use chains::table::ArcRef;
use faults::OutOfMemory;
use std::alloc::Global;
use std::marker::Model;

/// Which arcs are used by the lists that were added. Contracts see it as a mark for each arc.
#[derive(Drop)]
pub struct ArcsUsed {
    used: ArcMarks,
    here: ArcMarks,
}

impl Model for ArcsUsed {
    ghost use Rattle.std.specs.Prelude.{◌≡◌, Bool, List, false, length, replicate};

    ghost Value = { List Bool };

    ghost view = { λ a. a.used };

    // no list is on its way
    ghost invariant = { λ a. a.here ≡ replicate (length a.used) false };
}

impl ArcsUsed {
    /// None of so many arcs.
    ///
    /// # Errors
    /// Where memory is refused.
    pub fn none(alloc: Global, count: usize) -> Result<ArcsUsed, OutOfMemory>
        ensures { IfOk result (λ u. u ≡ replicate count false) }
    {
        let used = ArcMarks::none(alloc, count)?;
        let here = ArcMarks::none(alloc, count)?;
        Ok(ArcsUsed { used, here })
    }

    /// Adds the arcs of a list, and answers whether it uses none twice, and only arcs that there are.
    pub fn add(&mut self, refs: &[ArcRef]) -> bool
        ensures once { result ≡ each_unmarked (replicate (length self.old) false) refs.now }
        ensures used { self.new ≡ marks_set true self.old refs.now }
    {
        self.used.set_each(refs);
        let once = self.here.set_each(refs);
        self.here.clear_each(refs);
        once
    }

    /// Whether each arc is used.
    pub fn all(&self) -> bool
        ensures { result ≡ list_all (λ b. b) self.now }
    {
        for used in self.used.as_slice() {
            if !*used {
                return false;
            }
        }
        true
    }
}
