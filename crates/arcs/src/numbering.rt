//! Sorted pieces made into arcs, and for each piece the arc that it is.
ghost use Rattle.arcs.specs.Placing.{piece_of, placed_from, arcs_of, ArePlaced, AreRefsOf};
ghost use Rattle.arcs.specs.Stored.{stored_of, merged_behind, merged, rises};
ghost use Rattle.std.specs.Prelude.{◌≡◌, ◌++◌, [], IfOk, OnOk, true, length, map as map_list};

use crate::key::Key;
use crate::merging::{arc_behind, end_list};
use crate::piece::Piece;
use crate::stored::{ArcList, StoredArc};
use crate::table::ArcRef;
use std::alloc::{AllocError, Global};

/// A piece, and its place among all. The key of its chain is in front, so that most comparisons
/// don't read the chain itself.
#[derive(PartialEq, Eq, PartialOrd, Ord, Drop)]
pub(crate) struct Placed {
    key: Key,
    piece: Piece,
    index: usize,
}

/// Pieces with their places.
pub(crate) fn with_places(alloc: Global, pieces: Vec<Piece>) -> Result<Vec<Placed>, AllocError>
    ensures { IfOk result (λ v. v.items ≡ placed_from 0 pieces.items) }
{
    let mut all = Vec::with_capacity(alloc, pieces.len())?;
    for piece in pieces {
        let key = Key::of(piece.chain());
        let index = all.len();
        all.push(Placed { key, piece, index })?;
    }
    Ok(all)
}

/// Adds the arcs of sorted pieces to a list that has none, but for the last arc, which is answered; and
/// writes at the place of each piece the arc that it is.
fn add_arcs(
    arcs: &mut ArcList,
    refs: &mut Vec<ArcRef>,
    pieces: Vec<Placed>,
) -> Result<Option<StoredArc>, AllocError>
    requires placed { ArePlaced pieces.items }
    requires rises { rises (arcs_of pieces.items) ≡ true }
    requires none { arcs.old ≡ [] }
    requires len { length refs.old.items ≡ length pieces.items }
    ensures arcs { IfOk result (λ last. arcs.new ++ merged_behind last [] ≡ merged (map_list stored_of (map_list piece_of pieces.items))) }
    ensures len { OnOk result (length refs.new.items ≡ length pieces.items) }
    ensures refs { OnOk result (AreRefsOf (arcs_of pieces.items) pieces.items refs.new.items) }
{
    let mut last = None;
    let mut last_key = None;
    for placed in pieces {
        let Placed { key, piece, index } = placed;
        let reversed = piece.reversed();
        let may_be_same = last_key == Some(key);
        last = Some(arc_behind(arcs, last, StoredArc::of(piece), may_be_same)?);
        last_key = Some(key);
        refs[index] = ArcRef {
            arc: arcs.len(),
            reversed,
        };
    }
    Ok(last)
}

/// The arcs of sorted pieces, and at the place of each piece the arc that it is.
pub(crate) fn numbered_arcs(
    alloc: Global,
    pieces: Vec<Placed>,
) -> Result<(ArcList, Vec<ArcRef>), AllocError>
    requires placed { ArePlaced pieces.items }
    requires rises { rises (arcs_of pieces.items) ≡ true }
    ensures arcs { IfOk result (λ r. r.0 ≡ merged (map_list stored_of (map_list piece_of pieces.items))) }
    ensures len { IfOk result (λ r. length r.1.items ≡ length pieces.items) }
    ensures refs { IfOk result (λ r. AreRefsOf (arcs_of pieces.items) pieces.items r.1.items) }
{
    let first = ArcRef {
        arc: 0,
        reversed: false,
    };
    let mut arcs = ArcList::with_capacity(alloc, pieces.len())?;
    let mut refs = vec![in alloc; first; pieces.len()]?;
    let last = add_arcs(&mut arcs, &mut refs, pieces)?;
    let all = end_list(arcs, last)?;
    Ok((all, refs))
}
