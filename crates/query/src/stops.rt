//! The vertices at which lines over arcs stop.
ghost use Rattle.arcs.specs.Among.{among};
ghost use Rattle.arcs.specs.Table.{IsTableOf};
ghost use Rattle.grid.specs.declared.pos.Pos.{Pos};
ghost use Rattle.lines.specs.ByVertex.{AreByVertex, count_at};
ghost use Rattle.query.specs.Ends.{by_vertex, vertex_of};
ghost use Rattle.query.specs.Stops.{AreHalts, AreJudged, halts, sided, sides_at, stop_step};
ghost use Rattle.std.specs.List.Sorted.{IsPermutation, IsSorted};
ghost use Rattle.std.specs.Prelude.{◌≡◌, ◌≤◌, IfOk, OnOk, length};
ghost use Rattle.theory.specs.Geometry.{Geometry, IsSound};

use crate::ends::ends_of;
use arcs::{ArcStep, ArcTable};
use grid::pos::Pos;
use std::alloc::{AllocError, Global};

/// The other ends of the segments on which a vertex lies.
#[derive(Clone, Copy, PartialEq, Eq, Debug)]
pub(crate) enum Sides {
    One(Pos),
    Two(Pos, Pos),
    More,
}

fn with_side(sides: Sides, to: Pos) -> Sides
    ensures { result ≡ sided sides to }
{
    match sides {
        Sides::One(first) => {
            if first == to {
                Sides::One(first)
            } else {
                Sides::Two(first, to)
            }
        }
        Sides::Two(first, second) => {
            if first == to {
                Sides::Two(first, second)
            } else if second == to {
                Sides::Two(first, second)
            } else {
                Sides::More
            }
        }
        Sides::More => Sides::More,
    }
}

/// The sides of the vertex of an end and of the others there.
fn sides_of(first: &ArcStep, others: &[ArcStep]) -> Sides
    ensures { result ≡ sides_at first.now others.now }
{
    let mut sides = Sides::One(first.to);
    for end in others {
        sides = with_side(sides, end.to);
    }
    sides
}

/// Whether lines stop at a vertex with these sides.
fn is_stop(sides: Sides) -> bool
    ensures { result ≡ halts sides }
{
    match sides {
        Sides::One(_) => true,
        Sides::Two(_, _) => false,
        Sides::More => true,
    }
}

/// How many of the first ends are at a vertex.
fn count_of(ends: &[ArcStep], vertex: Pos) -> usize
    ensures count { result ≡ count_at vertex_of vertex ends.now }
    ensures within { result ≤ length ends.now }
{
    for (i, end) in ends.iter().enumerate() {
        if end.from != vertex {
            return i;
        }
    }
    ends.len()
}

/// Puts a vertex among the stops unless it lies on two segments.
fn add_stop(stops: &mut Vec<Pos>, vertex: Pos, sides: Sides) -> Result<(), AllocError>
    ensures { OnOk result ((q : Pos) → among stops.new.items q ≡ stop_step (halts sides) q (among stops.old.items q) vertex) }
{
    if !is_stop(sides) {
        return Ok(());
    }
    stops.push(vertex)?;
    Ok(())
}

/// The vertices of ends, which are vertex by vertex, that do not lie on two segments.
fn stops_by(alloc: Global, ends: &[ArcStep]) -> Result<Vec<Pos>, AllocError>
    ensures { IfOk result (λ s. AreByVertex vertex_of ends.now → AreJudged ends.now s.items) }
{
    let mut stops = Vec::new(alloc);
    let mut left = ends;
    while let Some((first, others)) = left.split_first() {
        let (here, behind) = others.split_at(count_of(others, first.from));
        add_stop(&mut stops, first.from, sides_of(first, here))?;
        left = behind;
    }
    Ok(stops)
}

fn sort_ends(ends: &mut Vec<ArcStep>)
    ensures permutation { IsPermutation ends.old.items ends.new.items }
    ensures sorted { IsSorted by_vertex ends.new.items }
{
    ends.sort_unstable_by(|a, b| a.from.cmp(&b.from));
}

/// The vertices that lie on a number of segments of the arcs other than two. A vertex inside an arc
/// lies on two, so the ends of the arcs are all that there is to look at.
pub(crate) fn stops_of(
    alloc: Global,
    arcs: &ArcTable,
    chosen: &[usize],
) -> Result<Vec<Pos>, AllocError>
    ensures { IfOk result (λ stops. (g : Geometry Pos) → IsSound g → IsTableOf g arcs.now → AreHalts arcs.now.arcs chosen.now stops.items) }
{
    let mut ends = ends_of(alloc, arcs, chosen)?;
    sort_ends(&mut ends);
    stops_by(alloc, &ends)
}
