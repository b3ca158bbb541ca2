//! The vertices of a map that are near each other.
ghost use Rattle.compare.specs.Quality.FoundNear.{AreNearOf};
ghost use Rattle.std.specs.Prelude.{IfOk};

use crate::quality::pairs::{NearPlace, count_near, first_near};
use crate::quality::uses::vertex_uses;
use crate::quality::vertices::vertices_of;
use std::alloc::{AllocError, Global};
use topo::Topology;

/// How many pairs of vertices are near each other, and the first of them.
#[derive(Drop)]
pub struct NearVertices {
    /// How many pairs there are.
    pub count: u128,
    /// The first pairs, by the position of the one vertex, then of the other.
    pub first: Vec<(NearPlace, NearPlace)>,
}

/// The pairs of vertices of a map that lie at most so many grid steps apart in both directions, where one feature has
/// only the one, and another only the other: how many there are, and at most so many of the first. Such pairs come
/// from borders that were drawn twice, and leave slivers and gaps.
///
/// Features are numbered from 0 through all layers, in the order of the layers and of their geometries. Those of all
/// layers count. A feature's vertices are its points, and the positions of its lines and rings.
///
/// It takes memory as the features written out do, and n log n steps of that for a fixed distance.
pub fn near_vertices(
    alloc: Global,
    topology: &Topology,
    steps: u32,
    most: usize,
) -> Result<NearVertices, AllocError>
    ensures { IfOk result (AreNearOf topology.now steps most) }
{
    let uses = vertex_uses(alloc, topology)?;
    let vertices = vertices_of(alloc, &uses)?;
    let first = first_near(alloc, &vertices, steps, most)?;
    Ok(NearVertices {
        count: count_near(&vertices, steps),
        first,
    })
}
