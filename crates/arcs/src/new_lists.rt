//! How lists of used arcs become lists of other arcs.
ghost use Rattle.arcs.specs.ListRules.{ListRule};
ghost use Rattle.std.specs.Option.{option_map};
ghost use Rattle.std.specs.Prelude.{◌≡◌, ◌++◌, IfOk, List, OnOk, slice_get};
ghost use Rattle.theory.specs.ArcNumbers as numbers;
ghost use Rattle.theory.specs.Refinement.{pieces_of_used, replaced};

use crate::table::ArcRef;
use crate::used_arcs::add_in_direction;
use faults::OutOfMemory;
use std::alloc::{AllocError, Global};

/// How the lists of used arcs of a topology become lists of other arcs.
pub trait NewLists {
    // What the list of a line becomes.
    ghost line_of: { Self → ListRule };

    // What the list of a ring becomes.
    ghost ring_of: { Self → ListRule };

    /// The new list of a line.
    ///
    /// # Errors
    /// Where memory is refused.
    fn line(&self, alloc: Global, used: &[ArcRef]) -> Result<Vec<ArcRef>, OutOfMemory>
        ensures { IfOk result (λ v. v.items ≡ line_of self.now used.now) };

    /// The new list of a ring.
    ///
    /// # Errors
    /// Where memory is refused.
    fn ring(&self, alloc: Global, used: &[ArcRef]) -> Result<Vec<ArcRef>, OutOfMemory>
        ensures { IfOk result (λ v. v.items ≡ ring_of self.now used.now) };
}

/// Arcs that have pieces: lists of used arcs of another table.
pub trait HavePieces {
    // The pieces of each arc.
    ghost pieces_of: { Self → List (List numbers.ArcRef) };

    /// The pieces of the arc of a number, `None` exactly past the last arc.
    fn pieces(&self, number: usize) -> Option<&[ArcRef]>
        ensures { option_map (λ r. r.now) result ≡ slice_get (pieces_of self.now) number };
}

/// Adds the pieces of a used arc.
fn add_used<P: HavePieces>(
    refs: &mut Vec<ArcRef>,
    arcs: &P,
    used: &ArcRef,
) -> Result<(), AllocError>
    ensures { OnOk result (refs.new.items ≡ refs.old.items ++ pieces_of_used (P.pieces_of arcs.now) used.now) }
{
    match arcs.pieces(used.arc) {
        Some(pieces) => add_in_direction(refs, pieces, used.reversed),
        None => Ok(()),
    }
}

/// A list of used arcs with the pieces of each in its place.
///
/// # Errors
/// Where memory is refused.
pub fn replace_arcs<P: HavePieces>(
    alloc: Global,
    arcs: &P,
    used: &[ArcRef],
) -> Result<Vec<ArcRef>, OutOfMemory>
    ensures { IfOk result (λ v. v.items ≡ replaced (P.pieces_of arcs.now) used.now) }
{
    let mut refs = Vec::with_capacity(alloc, used.len())?;
    for arc in used {
        add_used(&mut refs, arcs, arc)?;
    }
    Ok(refs)
}
