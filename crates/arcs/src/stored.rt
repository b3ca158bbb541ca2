//! Arcs as the table keeps them.
ghost use Rattle.arcs.specs.Placing.{own_piece};
ghost use Rattle.arcs.specs.Stored.{positions_of, stored_of, rises};
ghost use Rattle.arcs.specs.Table.{same_list};
ghost use Rattle.std.specs.List.{position};
ghost use Rattle.std.specs.Option.{option_map};
ghost use Rattle.std.specs.Prelude.{◌≡◌, ◌++◌, ◌∷◌, ◌<◌, ◌^◌, [], true, OnOk, IfOk, length, slice_get, map as map_list};

use crate::piece::Piece;
use crate::shared_positions::SharedPositions;
use grid::pos::Pos;
use indexmap::IndexMap;
use lines::items::Items;
use std::alloc::{AllocError, Global};
use std::marker::Model;

/// An arc, and whether it is a free loop.
#[derive(Drop)]
pub(crate) struct StoredArc {
    pub(crate) positions: SharedPositions<Pos>,
    pub(crate) free: bool,
}

impl StoredArc {
    pub(crate) fn of(piece: Piece) -> StoredArc
        ensures { result ≡ stored_of piece }
    {
        let free = piece.is_free();
        StoredArc {
            positions: piece.into_chain(),
            free,
        }
    }

    fn into_piece(self) -> Piece
        ensures { result ≡ own_piece self }
    {
        Piece::whole(self.positions, self.free)
    }

    fn copy(&self, alloc: Global) -> Result<StoredArc, AllocError>
        ensures { IfOk result (λ a. a ≡ self.now) }
    {
        let positions = Items::from_vec(self.positions.as_slice().to_vec(alloc)?);
        Ok(StoredArc {
            positions: SharedPositions::new(alloc, positions)?,
            free: self.free,
        })
    }

    fn share(&self) -> Result<StoredArc, AllocError>
        ensures { IfOk result (λ a. a ≡ self.now) }
    {
        Ok(StoredArc {
            positions: self.positions.share()?,
            free: self.free,
        })
    }
}

/// Arcs by their places. The keys are the places themselves, so that no text can choose what is
/// hashed.
#[derive(Drop)]
pub(crate) struct ArcList {
    arcs: IndexMap<usize, StoredArc>,
}

impl Model for ArcList {
    ghost use Rattle.arcs.specs.Stored.{AreBelow};
    ghost use Rattle.arcs.specs.declared.stored.StoredArc.{StoredArc as Stored};
    ghost use Rattle.indexmap.specs.IndexMap.{keys, values};
    ghost use Rattle.std.specs.Prelude.{List};

    ghost Value = { List Stored };

    ghost view = { λ a. values a.arcs };

    ghost invariant = { λ a. AreBelow (keys a.arcs) };
}

impl ArcList {
    /// No arcs yet, and room for as many as are asked for.
    pub(crate) fn with_capacity(alloc: Global, number: usize) -> Result<ArcList, AllocError>
        ensures { IfOk result (λ l. l ≡ []) }
    {
        let arcs = IndexMap::with_capacity(alloc, number)?;
        Ok(ArcList { arcs })
    }

    pub(crate) fn as_slice(&self) -> &[StoredArc]
        ensures { result.now ≡ self.now }
    {
        self.arcs.values().as_slice()
    }

    pub(crate) fn get(&self, index: usize) -> Option<&StoredArc>
        ensures { option_map (λ a. a.now) result ≡ slice_get self.now index }
    {
        self.as_slice().get(index)
    }

    pub(crate) fn len(&self) -> usize
        ensures len { result ≡ length self.now }
        ensures small { result < 2 ^ 63 }
    {
        self.arcs.len()
    }

    /// Puts an arc last.
    pub(crate) fn push(&mut self, arc: StoredArc) -> Result<(), AllocError>
        ensures { OnOk result (self.new ≡ self.old ++ arc ∷ []) }
    {
        let number = self.arcs.len();
        self.arcs.insert(number, arc)?;
        Ok(())
    }

    pub(crate) fn copy(&self, alloc: Global) -> Result<ArcList, AllocError>
        ensures { IfOk result (λ l. l ≡ self.now) }
    {
        let made = copies(alloc, self.as_slice())?;
        Ok(made)
    }

    /// An equal list, which shares the arcs' positions.
    pub(crate) fn share(&self, alloc: Global) -> Result<ArcList, AllocError>
        ensures { IfOk result (λ l. l ≡ self.now) }
    {
        let made = shares(alloc, self.as_slice())?;
        Ok(made)
    }

    /// The place of an arc, where the arcs rise.
    pub(crate) fn place_of(&self, positions: &SharedPositions<Pos>) -> Option<usize>
        ensures { rises (map_list positions_of self.now) ≡ true → result ≡ position (same_list positions.now) (map_list positions_of self.now) }
    {
        self.as_slice()
            .binary_search_by(|arc| arc.positions.cmp(positions))
            .ok()
    }

    /// Each arc as its own one piece.
    pub(crate) fn into_pieces(self, alloc: Global) -> Result<Vec<Piece>, AllocError>
        ensures { IfOk result (λ v. v.items ≡ map_list own_piece self) }
    {
        let mut pieces = Vec::with_capacity(alloc, self.len())?;
        for arc in self.arcs.into_values() {
            pieces.push(arc.into_piece())?;
        }
        Ok(pieces)
    }

    /// The positions of each arc.
    pub(crate) fn into_lists(self, alloc: Global) -> Result<Vec<Items<Pos>>, AllocError>
        ensures { IfOk result (λ v. v.items ≡ map_list positions_of self) }
    {
        let mut lists = Vec::with_capacity(alloc, self.len())?;
        for arc in self.arcs.into_values() {
            lists.push(arc.positions.into_items(alloc)?)?;
        }
        Ok(lists)
    }
}

fn copies(alloc: Global, arcs: &[StoredArc]) -> Result<ArcList, AllocError>
    ensures { IfOk result (λ l. l ≡ arcs.now) }
{
    let mut made = ArcList::with_capacity(alloc, arcs.len())?;
    for arc in arcs {
        made.push(arc.copy(alloc)?)?;
    }
    Ok(made)
}

fn shares(alloc: Global, arcs: &[StoredArc]) -> Result<ArcList, AllocError>
    ensures { IfOk result (λ l. l ≡ arcs.now) }
{
    let mut made = ArcList::with_capacity(alloc, arcs.len())?;
    for arc in arcs {
        made.push(arc.share()?)?;
    }
    Ok(made)
}
