//! How many vertices are shared, and how many nearly.
ghost use Rattle.snapping.specs.NearlyShared.Shared.{first_of, has_another as another_in, has_two as two_in, shared};
ghost use Rattle.std.specs.Prelude.{◌≡◌, cond, length};

use compare::quality::pairs::NearPlace;
use compare::quality::vertex::{Vertex, VertexUse};
use grid::pos::Pos;

/// How many vertices are shared, and how many nearly.
#[derive(Clone, Copy, PartialEq, Eq, Debug)]
pub struct VertexCounts {
    /// How many vertices more than one feature has.
    pub shared: usize,
    /// How many pairs of vertices are nearly shared.
    pub near: u128,
    /// Where the two vertices of the first pair lie, if there is one: by the position of the one, then of the other.
    pub first: Option<(Pos, Pos)>,
}

/// Whether one of the uses is by another feature.
fn has_another(uses: &[VertexUse], feature: usize) -> bool
    ensures { result ≡ another_in feature uses.now }
{
    for used in uses {
        if used.feature != feature {
            return true;
        }
    }
    false
}

/// Whether more than one feature has the vertex of these uses.
fn has_two(uses: &[VertexUse]) -> bool
    ensures { result ≡ two_in uses.now }
{
    match uses.split_first() {
        Some((first, others)) => has_another(others, first.feature),
        None => false,
    }
}

/// One for a vertex that more than one feature has, and none for any other.
fn one_if_shared(vertex: Vertex) -> usize
    ensures { result ≡ cond (two_in vertex.entry.uses.now) 1 0 }
{
    if has_two(vertex.uses) { 1 } else { 0 }
}

/// How many of the vertices more than one feature has.
pub(crate) fn count_shared<'a>(vertices: &[Vertex<'a>]) -> usize
    ensures { result ≡ length (shared vertices.now) }
{
    let mut count = 0;
    for number in 0..vertices.len() {
        count += one_if_shared(vertices[number]);
    }
    count
}

/// Where the two vertices of the first pair lie.
pub(crate) fn first_places(places: &[(NearPlace, NearPlace)]) -> Option<(Pos, Pos)>
    ensures { result ≡ first_of places.now }
{
    match places.split_first() {
        Some((first, _)) => Some((first.0.at, first.1.at)),
        None => None,
    }
}
