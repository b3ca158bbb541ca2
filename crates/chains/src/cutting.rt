//! Cutting lines, rings and arcs at stops.
ghost use Rattle.arcs.specs.Among.{among};
ghost use Rattle.arcs.specs.Pieces.{used, piece_along, ArePieces};
ghost use Rattle.chains.specs.ArcPieces.{least_stop, loop_pieces, pieces_at, pieces_under};
ghost use Rattle.chains.specs.Index.{IsIndexOf};
ghost use Rattle.chains.specs.Pieces as spec;
ghost use Rattle.chains.specs.Pieces.{open_pieces, opened_at, line_pieces, ring_pieces};
ghost use Rattle.chains.specs.Seen.{line_of, ring_of};
ghost use Rattle.grid.specs.declared.pos.Pos.{Pos};
ghost use Rattle.lines.specs.Turned.{position_cmp};
ghost use Rattle.std.specs.Prelude.{◌≡◌, ◌∷◌, ◌++◌, ◌<◌, ◌+◌, [], cond, false, true, IfOk, IfSome, OnOk, map, length};
ghost use Rattle.theory.specs.Geometry.{Geometry, IsSound, IsLineOf, IsRingOf};
ghost use Rattle.theory.specs.Refinement.{unclosed};
ghost use Rattle.theory.specs.Stitching.{ArePiecesOf, AreRingPiecesOf};

use crate::starts::index_of_start;
use crate::stops::Stops;
use crate::visits::VisitIndex;
pub use arcs::piece::Piece;
use faults::OutOfMemory;
use grid::pos::Pos;
use lines::line::Line;
use lines::ring::Ring;
use std::alloc::{AllocError, Global};

/// Whether no stop is first in a chain.
pub(crate) fn begins_free<S: Stops>(stops: &S, chain: &[Pos]) -> bool
    ensures { result ≡ spec.begins_free (among (S.at stops.now)) chain.now }
{
    match chain.first() {
        Some(first) => !stops.is_stop(*first),
        None => false,
    }
}

/// A part of a line, a ring or an arc, as a piece that is no free loop.
fn part(alloc: Global, chain: &[Pos]) -> Result<Piece, AllocError>
    ensures { IfOk result (λ p. p ≡ piece_along false chain.now) }
{
    Piece::new(alloc, chain.to_vec(alloc)?, false)
}

/// The list cut at each inner place where there is a stop; what is behind the last of these is the
/// last piece.
fn cut_inside<S: Stops>(alloc: Global, stops: &S, line: &[Pos]) -> Result<Vec<Piece>, AllocError>
    ensures { IfOk result (λ v. v.items ≡ open_pieces (among (S.at stops.now)) line.now) }
{
    let mut pieces = Vec::new(alloc);
    let mut begin = 0;
    for i in 1..line.len() {
        if i + 1 < line.len() && stops.is_stop(line[i]) {
            pieces.push(part(alloc, &line[begin..i + 1])?)?;
            begin = i;
        }
    }
    pieces.push(part(alloc, &line[begin..])?)?;
    Ok(pieces)
}

/// The ring begun at a place, and closed.
fn open_ring(alloc: Global, ring: &[Pos], at: usize) -> Result<Vec<Pos>, AllocError>
    requires { at < length ring.now }
    ensures { IfOk result (λ v. v.items ≡ opened_at at ring.now) }
{
    let mut closed = Vec::with_capacity(alloc, ring.len())?;
    closed.extend_from_slice(&ring[at..])?;
    closed.extend_from_slice(&ring[..at])?;
    closed.push(ring[at])?;
    Ok(closed)
}

/// A free loop as its own one piece.
fn free_piece(alloc: Global, chain: Vec<Pos>) -> Result<Vec<Piece>, AllocError>
    ensures { IfOk result (λ v. v.items ≡ piece_along true chain.items ∷ []) }
{
    let mut pieces = Vec::new(alloc);
    pieces.push(Piece::new(alloc, chain, true)?)?;
    Ok(pieces)
}

/// A ring cut from its least junction on, or begun at its least vertex where it has none.
fn ring_cut(alloc: Global, index: &VisitIndex, ring: &[Pos]) -> Result<Vec<Piece>, AllocError>
    ensures { IfOk result (λ v. v.items ≡ ring_pieces index.now ring.now) }
{
    let at = index_of_start(index, ring);
    if at >= ring.len() {
        return free_piece(alloc, Vec::new(alloc));
    }
    let closed = open_ring(alloc, ring, at)?;
    if index.is_stop(ring[at]) {
        cut_inside(alloc, index, &closed)
    } else {
        free_piece(alloc, closed)
    }
}

/// The place of the least vertex of a ring that is a stop, where one lies on it.
fn index_of_least_stop<S: Stops>(stops: &S, ring: &[Pos]) -> Option<usize>
    ensures is { result ≡ least_stop (among (S.at stops.now)) ring.now }
    ensures within { IfSome result (λ i. i < length ring.now) }
{
    let at = index_of_start(stops, ring);
    if at >= ring.len() {
        return None;
    }
    if stops.is_stop(ring[at]) {
        Some(at)
    } else {
        None
    }
}

/// The ring that a closed list goes round.
fn ring_round(arc: &[Pos]) -> &[Pos]
    ensures { result.now ≡ unclosed arc.now }
{
    match arc.split_last() {
        Some((_, ring)) => ring,
        None => arc,
    }
}

/// A free loop cut at its stops, from its least stop on.
fn cut_loop<S: Stops>(alloc: Global, stops: &S, arc: &[Pos]) -> Result<Vec<Piece>, AllocError>
    ensures { IfOk result (λ v. v.items ≡ loop_pieces (among (S.at stops.now)) arc.now) }
{
    let ring = ring_round(arc);
    if let Some(at) = index_of_least_stop(stops, ring) {
        return cut_inside(alloc, stops, &open_ring(alloc, ring, at)?);
    }
    free_piece(alloc, arc.to_vec(alloc)?)
}

/// An arc cut at stops: a free loop from its least stop on.
pub(crate) fn cut_at_stops<S: Stops>(
    alloc: Global,
    stops: &S,
    arc: &[Pos],
    free: bool,
) -> Result<Vec<Piece>, AllocError>
    ensures { IfOk result (λ v. v.items ≡ pieces_at (among (S.at stops.now)) free arc.now) }
{
    if free {
        cut_loop(alloc, stops, arc)
    } else {
        cut_inside(alloc, stops, arc)
    }
}

/// Adds the pieces of an arc that is its own one piece where it is cut, and else the arc as it is.
///
/// # Errors
/// Where memory is refused.
pub fn add_pieces(
    alloc: Global,
    pieces: &mut Vec<Piece>,
    index: &VisitIndex,
    arc: Piece,
    is_cut: bool,
) -> Result<(), OutOfMemory>
    ensures { OnOk result (pieces.new.items ≡ pieces.old.items ++ cond is_cut (pieces_under index.now arc) (arc ∷ [])) }
{
    if !is_cut {
        pieces.push(arc)?;
        return Ok(());
    }
    let mut cut = cut_at_stops(alloc, index, arc.chain(), arc.is_free())?;
    pieces.append(&mut cut)?;
    Ok(())
}

/// The pieces of a line of the map, in order along it.
///
/// # Errors
/// Where memory is refused.
pub fn cut_line(alloc: Global, index: &VisitIndex, line: &Line) -> Result<Vec<Piece>, OutOfMemory>
    ensures computed { IfOk result (λ v. v.items ≡ line_pieces index.now (line_of line.now)) }
    ensures stitch { IfOk result (λ v. (g : Geometry Pos) → IsSound g → IsLineOf g (line_of line.now) → IsIndexOf index.now g → ArePiecesOf position_cmp g (line_of line.now) (map used v.items)) }
    ensures pieces { IfOk result (λ v. (g : Geometry Pos) → IsSound g → IsLineOf g (line_of line.now) → IsIndexOf index.now g → ArePieces g v.items) }
{
    let pieces = cut_inside(alloc, index, line.positions())?;
    Ok(pieces)
}

/// The pieces of a ring of the map, in order along it from its least rotation that begins at
/// its least junction, or at its least vertex where it has none.
///
/// # Errors
/// Where memory is refused.
pub fn cut_ring(alloc: Global, index: &VisitIndex, ring: &Ring) -> Result<Vec<Piece>, OutOfMemory>
    ensures computed { IfOk result (λ v. v.items ≡ ring_pieces index.now (ring_of ring.now)) }
    ensures stitch { IfOk result (λ v. (g : Geometry Pos) → IsSound g → IsRingOf g (ring_of ring.now) → IsIndexOf index.now g → AreRingPiecesOf position_cmp g (ring_of ring.now) (map used v.items)) }
    ensures pieces { IfOk result (λ v. (g : Geometry Pos) → IsSound g → IsRingOf g (ring_of ring.now) → IsIndexOf index.now g → ArePieces g v.items) }
{
    let pieces = ring_cut(alloc, index, ring.vertices())?;
    Ok(pieces)
}
