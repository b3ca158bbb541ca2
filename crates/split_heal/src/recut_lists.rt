//! The lists of lines and rings of a table of which the arcs were cut again.
ghost use Rattle.lines.specs.Turned.{position_cmp};
ghost use Rattle.split_heal.specs.PartsOfAll.{of_table};
ghost use Rattle.theory.specs.Refinement.{replaced, turned_used};

use crate::split_all::RecutAll;
use arcs::{HavePieces, NewLists, replace_arcs};
use chains::table::ArcRef;
use chains::turning::turn_ring;
use faults::OutOfMemory;
use std::alloc::Global;

/// The lists of one of the tables by the new arcs.
#[derive(Drop)]
pub struct RecutLists<'a> {
    pub(crate) recut: &'a RecutAll,
    pub(crate) table: usize,
}

impl HavePieces for RecutLists<'_> {
    ghost pieces_of = { λ l. of_table l.table l.recut.now };

    fn pieces(&self, number: usize) -> Option<&[ArcRef]> {
        self.recut.pieces(self.table, number)
    }
}

impl NewLists for RecutLists<'_> {
    ghost line_of = { λ l. replaced (of_table l.table l.recut.now) };

    ghost ring_of = { λ l used. turned_used position_cmp l.recut.now.arcs.arcs (replaced (of_table l.table l.recut.now) used) };

    fn line(&self, alloc: Global, used: &[ArcRef]) -> Result<Vec<ArcRef>, OutOfMemory> {
        replace_arcs(alloc, self, used)
    }

    fn ring(&self, alloc: Global, used: &[ArcRef]) -> Result<Vec<ArcRef>, OutOfMemory> {
        let mut refs = replace_arcs(alloc, self, used)?;
        turn_ring(self.recut.arcs(), &mut refs);
        Ok(refs)
    }
}
