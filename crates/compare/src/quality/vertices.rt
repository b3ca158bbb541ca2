//! The vertices of a map, each once.
ghost use Rattle.grid.specs.declared.pos.Pos.{Pos};
ghost use Rattle.lines.specs.ByVertex.{count_at as the_count};
ghost use Rattle.compare.specs.Quality.Near.{Ascend};
ghost use Rattle.compare.specs.Quality.Uses.{AreThere, use_cmp};
ghost use Rattle.std.specs.List.{AllByRecursion};
ghost use Rattle.std.specs.List.Sorted.{IsSorted};
ghost use Rattle.std.specs.Prelude.{◌≡◌, ◌≤◌, IfOk, length};
ghost use Rattle.theory.specs.Lists.{gathered};

use crate::quality::vertex::{Vertex, VertexUse};
use grid::pos::Pos;
use std::alloc::{AllocError, Global};

/// How many of the first uses are at a position.
fn count_at(uses: &[VertexUse], at: Pos) -> usize
    ensures count { result ≡ the_count (λ u. u.at) at uses.now }
    ensures within { result ≤ length uses.now }
{
    for (i, used) in uses.iter().enumerate() {
        if used.at != at {
            return i;
        }
    }
    uses.len()
}

/// The vertices of uses that are sorted, each with its uses.
pub fn vertices_of<'a>(alloc: Global, uses: &'a [VertexUse]) -> Result<Vec<Vertex<'a>>, AllocError>
    ensures ascend { IfOk result (λ v. IsSorted use_cmp uses.now → Ascend v.items) }
    ensures there { IfOk result (λ v. AllByRecursion AreThere v.items) }
    ensures all { IfOk result (λ v. gathered (λ w. w.uses.now) v.items ≡ uses.now) }
{
    let mut vertices = Vec::new(alloc);
    let mut left = uses;
    while let Some((first, others)) = left.split_first() {
        let (here, behind) = left.split_at(1 + count_at(others, first.at));
        vertices.push(Vertex {
            at: first.at,
            uses: here,
        })?;
        left = behind;
    }
    Ok(vertices)
}
