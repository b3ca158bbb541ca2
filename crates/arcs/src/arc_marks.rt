//! A mark for each arc.
ghost use Rattle.arcs.specs.ArcMarks.{each_unmarked, marks_set};
ghost use Rattle.std.specs.Prelude.{◌≡◌, IfOk, false, get_or, not, replicate, set, true};

use crate::table::ArcRef;
use std::alloc::{AllocError, Global};
use std::marker::Model;

/// Marks of arcs by their numbers. Contracts see them as a list.
#[derive(Drop)]
pub struct ArcMarks {
    marks: Vec<bool>,
}

impl Model for ArcMarks {
    ghost use Rattle.std.specs.Prelude.{Bool, List};

    ghost Value = { List Bool };

    ghost view = { λ a. a.marks.items };
}

impl ArcMarks {
    /// So many marks, of which none is set.
    ///
    /// # Errors
    /// Where memory is refused.
    pub fn none(alloc: Global, count: usize) -> Result<ArcMarks, AllocError>
        ensures { IfOk result (λ m. m ≡ replicate count false) }
    {
        let marks = vec![in alloc; false; count]?;
        Ok(ArcMarks { marks })
    }

    /// These marks.
    ///
    /// # Errors
    /// Where memory is refused.
    pub fn of(alloc: Global, marks: &[bool]) -> Result<ArcMarks, AllocError>
        ensures { IfOk result (λ m. m ≡ marks.now) }
    {
        let marks = marks.to_vec(alloc)?;
        Ok(ArcMarks { marks })
    }

    /// The marks, in the order of the arcs.
    pub fn as_slice(&self) -> &[bool]
        ensures { result.now ≡ self.now }
    {
        &self.marks
    }

    /// Whether the mark of an arc is set; that of an arc beyond the marks is not.
    pub fn is_set(&self, arc: usize) -> bool
        ensures { result ≡ get_or self.now arc false }
    {
        arc < self.marks.len() && self.marks[arc]
    }

    /// Sets the mark of an arc, and answers whether it has one that wasn't set.
    pub fn set(&mut self, arc: usize) -> bool
        ensures unset { result ≡ not (get_or self.old arc true) }
        ensures after { self.new ≡ set self.old arc true }
    {
        if arc >= self.marks.len() {
            return false;
        }
        let unset = !self.marks[arc];
        self.marks[arc] = true;
        unset
    }

    /// Takes the mark of an arc back, and answers whether it was set.
    pub fn clear(&mut self, arc: usize) -> bool
        ensures was { result ≡ get_or self.old arc false }
        ensures after { self.new ≡ set self.old arc false }
    {
        if arc >= self.marks.len() {
            return false;
        }
        let was = self.marks[arc];
        self.marks[arc] = false;
        was
    }

    /// Sets the marks of the arcs of a list, and answers whether each has one that wasn't set.
    pub fn set_each(&mut self, refs: &[ArcRef]) -> bool
        ensures unset { result ≡ each_unmarked self.old refs.now }
        ensures after { self.new ≡ marks_set true self.old refs.now }
    {
        let mut unset = true;
        for used in refs {
            if !self.set(used.arc) {
                unset = false;
            }
        }
        unset
    }

    /// Takes the marks of the arcs of a list back.
    pub fn clear_each(&mut self, refs: &[ArcRef])
        ensures { self.new ≡ marks_set false self.old refs.now }
    {
        for used in refs {
            self.clear(used.arc);
        }
    }
}
