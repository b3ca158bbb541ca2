//! Which visits are at a vertex that others visit too: only these can clash.
ghost use Rattle.chains.specs.Noted.{recorded_in, visits_at};
ghost use Rattle.chains.specs.ManyTables as spec;
ghost use Rattle.chains.specs.ManyTables.{MarkShared, piece_meets};
ghost use Rattle.chains.specs.Repeats.{AreMet, AreRecorded, HoldsClashing, IsRecorded};
ghost use Rattle.chains.specs.VertexFilter.{KeepsClashes};
ghost use Rattle.chains.specs.declared.visits.Visit.{Visit as Visiting};
ghost use Rattle.lines.specs.PositionFilter.{may_hold};
ghost use Rattle.grid.specs.declared.pos.Pos.{Pos};
ghost use Rattle.std.specs.List.{list_any};
ghost use Rattle.std.specs.Prelude.{◌≡◌, ◌++◌, IfOk, List, OnOk, map};
ghost use Rattle.theory.specs.Lists.{gathered};
ghost use Rattle.theory.specs.TopologyFunction.{keep};

use crate::recent::count_in_pieces;
use crate::vertex_filter::inside;
use crate::visits::{Visit, visit_within};
use arcs::piece::Piece;
use grid::pos::Pos;
use lines::position_filter::PositionFilter;
use std::alloc::{AllocError, Global};

/// How many visits share a word of the bits of all vertices.
const MET_EACH: usize = 4;

/// How many visits there are for a word of the bits of vertices that come again, which are few.
const AGAIN_EACH: usize = 16;

/// The vertices of visits, and of these the ones that came again, each among some others.
#[derive(Drop)]
pub(crate) struct Repeats {
    met: PositionFilter,
    again: PositionFilter,
}

impl Repeats {
    /// Notes the vertex of one more visit.
    fn insert(&mut self, vertex: Pos)
        ensures { IsRecorded vertex self.old self.new }
    {
        if self.met.may_hold(vertex) {
            self.again.mark(vertex);
        } else {
            self.met.mark(vertex);
        }
    }

    /// Notes the vertices of places between two others.
    fn add_inner(&mut self, inner: &[&[Pos; 3]])
        ensures { (all later : List Visiting) → AreRecorded self.old all (gathered visits_at inner.now ++ later) → AreRecorded self.new all later }
    {
        for window in inner {
            self.insert(visit_within(window).vertex);
        }
    }

    /// Notes the vertices of visits.
    fn add_visits(&mut self, visits: &[Visit])
        ensures { (all later : List Visiting) → AreRecorded self.old all (visits.now ++ later) → AreRecorded self.new all later }
    {
        for visit in visits {
            self.insert(visit.vertex);
        }
    }

    /// The vertices of the visits of places, and of others.
    fn of(alloc: Global, inner: &[&[Pos; 3]], seams: &[Visit]) -> Result<Repeats, AllocError>
        ensures { IfOk result (λ r. HoldsClashing (may_hold r.again) (recorded_in inner.now seams.now)) }
    {
        let count = inner.len().saturating_add(seams.len());
        let mut repeats = Repeats {
            met: PositionFilter::clear(alloc, count / MET_EACH)?,
            again: PositionFilter::clear(alloc, count / AGAIN_EACH)?,
        };
        repeats.add_inner(inner);
        repeats.add_visits(seams);
        Ok(repeats)
    }
}

/// The vertices of an arc, of which a free loop's first and last are one.
fn vertices_once(piece: &Piece) -> &[Pos]
    ensures { result.now ≡ spec.vertices_once piece.now }
{
    let vertices = piece.chain();
    if !piece.is_free() {
        return vertices;
    }
    match vertices.split_first() {
        Some((_, others)) => others,
        None => vertices,
    }
}

impl Repeats {
    /// No vertex is noted yet; so many may be.
    fn for_vertices(alloc: Global, count: usize) -> Result<Repeats, AllocError> {
        Ok(Repeats {
            met: PositionFilter::clear(alloc, count / MET_EACH)?,
            again: PositionFilter::clear(alloc, count / AGAIN_EACH)?,
        })
    }

    /// Notes vertices.
    fn add_vertices(&mut self, vertices: &[Pos])
        ensures { (all later : List Pos) → AreMet self.old all (vertices.now ++ later) → AreMet self.new all later }
    {
        for vertex in vertices {
            self.insert(*vertex);
        }
    }

    /// Notes the vertices of arcs.
    fn add_pieces(&mut self, pieces: &[Piece])
        ensures { (all later : List Pos) → AreMet self.old all (gathered spec.vertices_once pieces.now ++ later) → AreMet self.new all later }
    {
        for piece in pieces {
            self.add_vertices(vertices_once(piece));
        }
    }

    /// Whether some of the positions may have come again.
    fn may_repeat(&self, positions: &[Pos]) -> bool
        ensures { result ≡ list_any (may_hold self.now.again) positions.now }
    {
        for position in positions {
            if self.again.may_hold(*position) {
                return true;
            }
        }
        false
    }

    /// For each arc whether an inner vertex of it may have come again.
    fn marks(&self, alloc: Global, pieces: &[Piece]) -> Result<Vec<bool>, AllocError>
        ensures { IfOk result (λ v. v.items ≡ map (piece_meets (may_hold self.now.again)) pieces.now) }
    {
        let mut marks = Vec::with_capacity(alloc, pieces.len())?;
        for piece in pieces {
            marks.push(self.may_repeat(inside(piece.chain(), piece.is_free())))?;
        }
        Ok(marks)
    }
}

/// For each of some arcs whether an inner vertex of it may be another one's vertex too.
pub(crate) fn mark_shared(alloc: Global, pieces: &[Piece]) -> Result<Vec<bool>, AllocError>
    ensures { IfOk result (λ v. MarkShared v.items pieces.now) }
{
    let mut repeats = Repeats::for_vertices(alloc, count_in_pieces(pieces))?;
    repeats.add_pieces(pieces);
    let marks = repeats.marks(alloc, pieces)?;
    Ok(marks)
}

/// Puts the visits of those places last whose vertex came again.
fn keep_inner(
    kept: &mut Vec<Visit>,
    again: &PositionFilter,
    inner: &[&[Pos; 3]],
) -> Result<(), AllocError>
    ensures { OnOk result (kept.new.items ≡ kept.old.items ++ keep (λ (v : Visiting). may_hold again.now v.vertex) (gathered visits_at inner.now)) }
{
    for window in inner {
        let visit = visit_within(window);
        if again.may_hold(visit.vertex) {
            kept.push(visit)?;
        }
    }
    Ok(())
}

/// Puts those visits last whose vertex came again.
fn keep_visits(
    kept: &mut Vec<Visit>,
    again: &PositionFilter,
    visits: &[Visit],
) -> Result<(), AllocError>
    ensures { OnOk result (kept.new.items ≡ kept.old.items ++ keep (λ (v : Visiting). may_hold again.now v.vertex) visits.now) }
{
    for visit in visits {
        if again.may_hold(visit.vertex) {
            kept.push(*visit)?;
        }
    }
    Ok(())
}

/// Some of the visits of places and of others, in their order: each that clashes with another, and few
/// others. Most vertices of a map whose borders were noted once are visited once, so little is left to
/// sort.
pub(crate) fn find_repeated(
    alloc: Global,
    inner: &[&[Pos; 3]],
    seams: &[Visit],
) -> Result<Vec<Visit>, AllocError>
    ensures { IfOk result (λ kept. KeepsClashes kept.items (recorded_in inner.now seams.now)) }
{
    let repeats = Repeats::of(alloc, inner, seams)?;
    let mut kept = Vec::new(alloc);
    keep_inner(&mut kept, &repeats.again, inner)?;
    keep_visits(&mut kept, &repeats.again, seams)?;
    Ok(kept)
}
