//! The table of arcs.
ghost use Rattle.arcs.specs.Extents.{within};
ghost use Rattle.arcs.specs.Holding.{HoldAll};
ghost use Rattle.arcs.specs.Pieces.{used, chain_of, piece_along};
ghost use Rattle.arcs.specs.Placing.{whole_pieces};
ghost use Rattle.arcs.specs.Table as spec;
ghost use Rattle.arcs.specs.Table.{located, found_in, marked, number_in, free_at, AreAlike, AreLoopsOf, ArePiecesOfMap, IsTableOf};
ghost use Rattle.arcs.specs.declared.piece.Piece.{Piece as Part};
ghost use Rattle.grid.specs.declared.pos.Pos.{Pos};
ghost use Rattle.lines.specs.Turned.{list_cmp};
ghost use Rattle.std.specs.Option.{option_map};
ghost use Rattle.std.specs.Prelude.{◌≡◌, ◌↔◌, ◌<◌, ◌^◌, IfOk, IfSome, IsSome, Some, map, slice_get, length};
ghost use Rattle.theory.specs.ArcNumbers.{along, index_of};
ghost use Rattle.theory.specs.Arcs.{Ascends, AreSortedOnce};
ghost use Rattle.theory.specs.Geometry.{Geometry, IsSound};
ghost use Rattle.theory.specs.Lists.{Has};

use crate::arcs_box::Extent;
use crate::merging::merged_arcs;
use crate::numbering::{numbered_arcs, with_places};
use crate::ordered::{is_rising, marked_arcs};
use crate::piece::Piece;
use crate::stored::ArcList;
use crate::table_arcs::{ArcsWithLoops, TableArcs};
use faults::OutOfMemory;
use grid::pos::Pos;
use lines::copying::CopyIn;
use lines::items::Items;
use std::alloc::{AllocError, Global};
use std::marker::Model;

/// An arc by its number, and whether it is used against its direction.
#[derive(Clone, Copy, PartialEq, Eq, PartialOrd, Ord, Debug)]
pub struct ArcRef {
    pub arc: usize,
    pub reversed: bool,
}

impl Model for ArcRef {
    ghost use Rattle.theory.specs.ArcNumbers as numbers;

    ghost Value = { numbers.ArcRef };

    ghost view = { λ a. record { arc = a.arc; reversed = a.reversed } };

    ghost inverse = { λ d. record { arc = d.arc; reversed = d.reversed } };
}

impl CopyIn for ArcRef {
    fn copy_in(&self, _alloc: Global) -> Result<ArcRef, OutOfMemory> {
        Ok(*self)
    }
}

impl ArcRef {
    /// TopoJSON's index: `i` for arc `i`, and its one's complement `-1 - i` for arc `i` reversed. It is
    /// as wide as the number of any arc needs.
    pub fn wide_index(self) -> i128
        ensures { result ≡ index_of self }
    {
        let number = self.arc as i128;
        if self.reversed { -1 - number } else { number }
    }

    /// The index as texts have it, of 64 bits.
    pub fn index(self) -> i64
        requires { self.arc < 2 ^ 63 }
        ensures { result ≡ index_of self }
    {
        self.wide_index() as i64
    }

    /// The used arc of TopoJSON's index.
    pub fn from_index(index: i64) -> ArcRef
        ensures index { index_of result ≡ index }
        ensures within { result.arc < 2 ^ 63 }
    {
        if index < 0 {
            ArcRef {
                arc: (-1 - index) as usize,
                reversed: true,
            }
        } else {
            ArcRef {
                arc: index as usize,
                reversed: false,
            }
        }
    }
}

/// The arcs, sorted, each once, and which of them are free loops.
#[derive(Drop)]
pub struct ArcTable {
    arcs: ArcList,
    /// A box in which all positions lie, where one is known.
    extent: Option<Extent>,
}

impl Model for ArcTable {
    ghost use Rattle.arcs.specs.Arcs.{Arcs};
    ghost use Rattle.arcs.specs.Stored.{AreKept, positions_of, loops_of};
    ghost use Rattle.std.specs.Prelude.{map as map_list};

    ghost Value = { Arcs };

    ghost view = { λ a. record { arcs = map_list positions_of a.arcs; loops = loops_of a.arcs } };

    ghost invariant = { λ a. AreKept a.arcs a.extent };
}

impl ArcTable {
    /// The table of the pieces' chains, each once, sorted. An arc is free where one of its pieces
    /// is marked as free.
    ///
    /// # Errors
    /// Where memory is refused.
    pub fn from_pieces(alloc: Global, pieces: Vec<Piece>) -> Result<ArcTable, OutOfMemory>
        ensures arcs { IfOk result (λ t. AreSortedOnce list_cmp (map chain_of pieces.items) t.arcs) }
        ensures loops { IfOk result (λ t. AreLoopsOf pieces.items t.loops) }
        ensures free { IfOk result (λ t. AreAlike pieces.items → (p : Part) → Has p pieces.items → free_at t (number_in t.arcs p) ≡ p.free) }
        ensures of_map { IfOk result (λ t. (g : Geometry Pos) → IsSound g → ArePiecesOfMap g pieces.items → IsTableOf g t) }
    {
        let mut sorted = pieces;
        sorted.sort_unstable();
        let arcs = merged_arcs(alloc, sorted)?;
        Ok(ArcTable { arcs, extent: None })
    }

    /// `from_pieces`, and for each piece the used arc that it is.
    ///
    /// # Errors
    /// Where memory is refused.
    pub fn with_refs(
        alloc: Global,
        pieces: Vec<Piece>,
    ) -> Result<(ArcTable, Vec<ArcRef>), OutOfMemory>
        ensures arcs { IfOk result (λ t. AreSortedOnce list_cmp (map chain_of pieces.items) t.0.arcs) }
        ensures loops { IfOk result (λ t. AreLoopsOf pieces.items t.0.loops) }
        ensures of_map { IfOk result (λ t. (g : Geometry Pos) → IsSound g → ArePiecesOfMap g pieces.items → IsTableOf g t.0) }
        ensures refs { IfOk result (λ t. t.1.items ≡ map (located t.0.arcs) pieces.items) }
    {
        let mut sorted = with_places(alloc, pieces)?;
        sorted.sort()?;
        let (arcs, refs) = numbered_arcs(alloc, sorted)?;
        Ok((ArcTable { arcs, extent: None }, refs))
    }

    /// The table of arcs that are in order, of which those that are marked are free loops; `None`
    /// exactly where some arc doesn't come before the next. Where a mark is missing, it is not set.
    ///
    /// # Errors
    /// Where memory is refused.
    pub fn from_sorted(
        alloc: Global,
        arcs: Vec<Items<Pos>>,
        free: &[bool],
    ) -> Result<Option<ArcTable>, OutOfMemory>
        ensures table { IfOk result (λ o. IfSome o (λ t. t ≡ record { arcs = arcs.items; loops = marked arcs.items free.now })) }
        ensures sorted { IfOk result (λ o. IsSome o ↔ Ascends list_cmp arcs.items) }
    {
        if !is_rising(&arcs) {
            return Ok(None);
        }
        let arcs = marked_arcs(alloc, arcs, free)?;
        Ok(Some(ArcTable { arcs, extent: None }))
    }

    /// This table, of which it is known in which box all positions lie.
    pub fn with_extent(self, extent: Extent) -> ArcTable
        requires { HoldAll (within extent) self.arcs }
        ensures { result ≡ self }
    {
        ArcTable {
            arcs: self.arcs,
            extent: Some(extent),
        }
    }

    /// A box in which all positions lie, where one is known.
    pub(crate) fn extent(&self) -> Option<Extent>
        ensures { IfSome result (λ e. HoldAll (within e) self.now.arcs) }
    {
        self.extent
    }

    /// The number of arcs.
    pub fn len(&self) -> usize
        ensures len { result ≡ length self.now.arcs }
        ensures small { result < 2 ^ 63 }
    {
        self.arcs.len()
    }

    /// The arcs, in the order of their numbers.
    pub fn iter(&self) -> TableArcs<'_>
        ensures arcs { result ≡ self.now.arcs }
        ensures small { length result < 2 ^ 63 }
    {
        TableArcs::of(self.arcs.as_slice())
    }

    /// The arcs, in the order of their numbers, each with whether it is a free loop.
    pub fn with_loops(&self) -> ArcsWithLoops<'_>
        ensures arcs { result ≡ spec.with_loops self.now }
        ensures small { length result < 2 ^ 63 }
    {
        ArcsWithLoops::of(self.arcs.as_slice())
    }

    /// The arc of a number, `None` exactly past the last arc.
    pub fn arc(&self, number: usize) -> Option<&[Pos]>
        ensures { option_map (λ a. a.now) result ≡ slice_get self.now.arcs number }
    {
        match self.arcs.get(number) {
            None => None,
            Some(arc) => Some(arc.positions.as_slice()),
        }
    }

    /// The used arc that runs along a piece.
    pub fn find(&self, piece: &Piece) -> Option<ArcRef>
        ensures computed { result ≡ found_in self.now.arcs piece.now }
        ensures located { IfSome result (λ r. r ≡ located self.now.arcs piece.now) }
        ensures along { IfSome result (λ r. along self.now.arcs r ≡ Some (used piece.now)) }
        ensures found { IsSome result ↔ Has (chain_of piece.now) self.now.arcs }
    {
        match self.arcs.place_of(piece.items()) {
            None => None,
            Some(arc) => Some(ArcRef {
                arc,
                reversed: piece.reversed(),
            }),
        }
    }

    /// An arc as a piece with this mark, which shares the arc's positions; `None` exactly past the last arc.
    ///
    /// # Errors
    /// Where memory is refused.
    pub fn piece(
        &self,
        alloc: Global,
        number: usize,
        free: bool,
    ) -> Result<Option<Piece>, AllocError>
        ensures { IfOk result (λ o. o ≡ option_map (piece_along free) (slice_get self.now.arcs number)) }
    {
        let Some(arc) = self.arcs.get(number) else {
            return Ok(None);
        };
        let piece = Piece::sharing(alloc, &arc.positions, free)?;
        Ok(Some(piece))
    }

    /// Whether the arc of a number is a free loop; false past the last arc.
    pub fn is_free(&self, number: usize) -> bool
        ensures { result ≡ free_at self.now number }
    {
        match self.arcs.get(number) {
            None => false,
            Some(arc) => arc.free,
        }
    }

    /// Each arc as its own one piece.
    ///
    /// # Errors
    /// Where memory is refused.
    pub fn into_pieces(self, alloc: Global) -> Result<Vec<Piece>, OutOfMemory>
        ensures { IfOk result (λ v. v.items ≡ whole_pieces self) }
    {
        let pieces = self.arcs.into_pieces(alloc)?;
        Ok(pieces)
    }

    /// The arcs, in order.
    ///
    /// # Errors
    /// Where memory is refused.
    pub fn into_arcs(self, alloc: Global) -> Result<Vec<Items<Pos>>, OutOfMemory>
        ensures { IfOk result (λ v. v.items ≡ self.arcs) }
    {
        let lists = self.arcs.into_lists(alloc)?;
        Ok(lists)
    }

    /// An equal table, with positions of its own.
    ///
    /// # Errors
    /// Where memory is refused.
    pub fn copy(&self, alloc: Global) -> Result<ArcTable, OutOfMemory>
        ensures { IfOk result (λ t. t ≡ self.now) }
    {
        let arcs = self.arcs.copy(alloc)?;
        Ok(ArcTable {
            arcs,
            extent: self.extent,
        })
    }

    /// An equal table, which shares the arcs' positions with this one.
    ///
    /// # Errors
    /// Where memory is refused.
    pub fn share(&self, alloc: Global) -> Result<ArcTable, OutOfMemory>
        ensures { IfOk result (λ t. t ≡ self.now) }
    {
        let arcs = self.arcs.share(alloc)?;
        Ok(ArcTable {
            arcs,
            extent: self.extent,
        })
    }
}
