//! The index of visits over the arcs of many tables.
ghost use Rattle.arcs.specs.Arcs.{Arcs};
ghost use Rattle.chains.specs.Index.{IsIndexOf};
ghost use Rattle.chains.specs.ManyTables.{AreTablesOf, IsUnionOfAll, UnmarkedStayWhole, all_as_map, all_marked_visits, arcs_of_all, marked_visits, piece_ends};
ghost use Rattle.chains.specs.Noted.{visits_recorded};
ghost use Rattle.chains.specs.Visits.{HaveSame};
ghost use Rattle.grid.specs.declared.pos.Pos.{Pos};
ghost use Rattle.std.specs.Prelude.{◌≡◌, ◌++◌, IfOk, List, OnOk};
ghost use Rattle.theory.specs.Geometry.{Geometry};
ghost use Rattle.theory.specs.Lists.{gathered};

use super::{VisitIndex, VisitsSeen};
use crate::recent::count_in_marked_pieces;
use crate::repeats::mark_shared;
use arcs::marking::first_mark;
use arcs::piece::Piece;
use faults::OutOfMemory;
use std::alloc::{AllocError, Global};

/// The index over the arcs of many tables, each as its own one piece, and for each whether it may be cut:
/// one that is not marked stays whole.
#[derive(Drop)]
pub struct PiecesIndex {
    pub index: VisitIndex,
    pub marks: Vec<bool>,
}

impl<'a> VisitsSeen<'a> {
    /// Notes the ends of an arc, and its other visits where it is marked.
    fn see_piece(&mut self, piece: &'a Piece, marked: bool) -> Result<(), AllocError>
        ensures ends { OnOk result (self.new.ends.items ≡ self.old.ends.items ++ piece_ends piece.now) }
        ensures visits { OnOk result (HaveSame (visits_recorded self.new) (visits_recorded self.old ++ marked_visits marked piece.now)) }
    {
        self.see_arc_ends(piece.chain(), piece.is_free())?;
        if !marked {
            return Ok(());
        }
        self.see_arc_inside(piece.chain(), piece.is_free())
    }

    /// Notes the ends of arcs, and the other visits of those that are marked.
    fn see_pieces(&mut self, pieces: &'a [Piece], marks: &[bool]) -> Result<(), AllocError>
        ensures ends { OnOk result (self.new.ends.items ≡ self.old.ends.items ++ gathered piece_ends pieces.now) }
        ensures visits { OnOk result (HaveSame (visits_recorded self.new) (visits_recorded self.old ++ all_marked_visits marks.now pieces.now)) }
    {
        let mut left = marks;
        for piece in pieces {
            let (marked, others) = first_mark(left);
            self.see_piece(piece, marked)?;
            left = others;
        }
        Ok(())
    }
}

impl VisitIndex {
    /// The index over all arcs of many tables, each that of a map: it is the index of all maps taken
    /// together. Within one map's arcs only ends of arcs are junctions, so the others are at vertices
    /// that two tables have.
    ///
    /// # Errors
    /// Where memory is refused.
    pub fn over_pieces(alloc: Global, pieces: &[Piece]) -> Result<PiecesIndex, OutOfMemory>
        ensures arcs { IfOk result (λ i. (maps : List (Geometry Pos)) (tables : List Arcs) → pieces.now ≡ arcs_of_all tables → AreTablesOf maps tables → IsIndexOf i.index (all_as_map tables)) }
        ensures union { IfOk result (λ i. (maps : List (Geometry Pos)) (tables : List Arcs) (u : Geometry Pos) → pieces.now ≡ arcs_of_all tables → AreTablesOf maps tables → IsUnionOfAll maps u → IsIndexOf i.index u) }
        ensures whole { IfOk result (λ i. (maps : List (Geometry Pos)) (tables : List Arcs) → pieces.now ≡ arcs_of_all tables → AreTablesOf maps tables → UnmarkedStayWhole i.index pieces.now i.marks.items) }
    {
        let marks = mark_shared(alloc, pieces)?;
        let mut seen = VisitsSeen::nothing(alloc, count_in_marked_pieces(pieces, &marks))?;
        seen.see_pieces(pieces, &marks)?;
        let index = VisitIndex::of_seen(alloc, seen)?;
        Ok(PiecesIndex { index, marks })
    }
}
