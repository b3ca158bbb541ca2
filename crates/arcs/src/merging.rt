//! Sorted pieces made into arcs, each once.
ghost use Rattle.arcs.specs.Stored.{stored_of, merged_behind, merged_from, merged};
ghost use Rattle.arcs.specs.Table.{same_list};
ghost use Rattle.arcs.specs.declared.stored.StoredArc.{StoredArc as Stored};
ghost use Rattle.std.specs.Prelude.{◌≡◌, ◌++◌, ◌∷◌, ◌||◌, false, [], List, map as map_list, IfOk, IfSome};

use crate::piece::Piece;
use crate::stored::{ArcList, StoredArc};
use std::alloc::{AllocError, Global};

fn either(a: bool, b: bool) -> bool
    ensures { result ≡ (a || b) }
{
    a || b
}

/// Whether two arcs are equal. The positions are read only where they may be.
fn is_same(next: &StoredArc, last: &StoredArc, may_be_same: bool) -> bool
    requires { may_be_same ≡ false → same_list next.now.positions last.now.positions ≡ false }
    ensures { result ≡ same_list next.now.positions last.now.positions }
{
    may_be_same && next.positions == last.positions
}

/// Of two arcs one after the other: one arc where they are equal, free where one of them is;
/// otherwise the second, and the first is put into the list.
fn next_arc(
    arcs: &mut ArcList,
    last: StoredArc,
    next: StoredArc,
    may_be_same: bool,
) -> Result<StoredArc, AllocError>
    requires { may_be_same ≡ false → same_list next.positions last.positions ≡ false }
    ensures all { IfOk result (λ a. (rest : List Stored) → arcs.new ++ merged_from a rest ≡ arcs.old ++ merged_from last (next ∷ rest)) }
    ensures positions { IfOk result (λ a. a.positions ≡ next.positions) }
{
    if is_same(&next, &last, may_be_same) {
        let free = either(last.free, next.free);
        return Ok(StoredArc {
            positions: last.positions,
            free,
        });
    }
    arcs.push(last)?;
    Ok(next)
}

/// Of the last arc, where there is one, and the next one: see `next_arc`.
pub(crate) fn arc_behind(
    arcs: &mut ArcList,
    last: Option<StoredArc>,
    next: StoredArc,
    may_be_same: bool,
) -> Result<StoredArc, AllocError>
    requires { may_be_same ≡ false → IfSome last (λ a. same_list next.positions a.positions ≡ false) }
    ensures all { IfOk result (λ a. (rest : List Stored) → arcs.new ++ merged_from a rest ≡ arcs.old ++ merged_behind last (next ∷ rest)) }
    ensures positions { IfOk result (λ a. a.positions ≡ next.positions) }
{
    match last {
        Some(arc) => next_arc(arcs, arc, next, may_be_same),
        None => Ok(next),
    }
}

pub(crate) fn end_list(arcs: ArcList, last: Option<StoredArc>) -> Result<ArcList, AllocError>
    ensures { IfOk result (λ l. l ≡ arcs ++ merged_behind last []) }
{
    let mut all = arcs;
    if let Some(arc) = last {
        all.push(arc)?;
    }
    Ok(all)
}

/// The arcs of pieces, of which those with one chain are together.
pub(crate) fn merged_arcs(alloc: Global, pieces: Vec<Piece>) -> Result<ArcList, AllocError>
    ensures { IfOk result (λ l. l ≡ merged (map_list stored_of pieces.items)) }
{
    let mut arcs = ArcList::with_capacity(alloc, pieces.len())?;
    let mut last = None;
    for piece in pieces {
        last = Some(arc_behind(&mut arcs, last, StoredArc::of(piece), true)?);
    }
    let all = end_list(arcs, last)?;
    Ok(all)
}
