//! The vertices of features in order.
ghost use Rattle.snapping.specs.NearlyShared.Joined.{AreClusters};
ghost use Rattle.snapping.specs.NearlyShared.Shared.{AreCounts};
ghost use Rattle.std.specs.List.Sorted.{IsPermutation};
ghost use Rattle.std.specs.Prelude.{IfOk};

use crate::nearly_shared::clusters::{Clusters, clusters_of};
use crate::nearly_shared::counts::{VertexCounts, count_shared, first_places};
use compare::quality::pairs::{count_near, first_near};
use compare::quality::uses::sort_uses;
use compare::quality::vertex::VertexUse;
use compare::quality::vertices::vertices_of;
use std::alloc::{AllocError, Global};
use std::marker::Model;

/// The vertices of features in order, each with the number of its feature.
#[derive(Drop)]
pub struct VertexIndex {
    uses: Vec<VertexUse>,
}

impl Model for VertexIndex {
    ghost use Rattle.compare.specs.Quality.Uses.{use_cmp};
    ghost use Rattle.compare.specs.declared.quality.vertex.VertexUse.{VertexUse as Used};
    ghost use Rattle.std.specs.List.Sorted.{IsSorted};
    ghost use Rattle.std.specs.Prelude.{List};

    ghost Value = { List Used };

    ghost view = { λ i. i.uses.items };

    ghost invariant = { λ i. IsSorted use_cmp i.uses.items };
}

impl VertexIndex {
    /// The index of uses in any order.
    pub(crate) fn of(uses: Vec<VertexUse>) -> VertexIndex
        ensures { IsPermutation uses.items result }
    {
        let mut uses = uses;
        sort_uses(&mut uses);
        VertexIndex { uses }
    }

    /// How many vertices more than one feature has, and how many pairs of vertices are nearly shared: at most so many
    /// steps apart in both directions, where one feature has only the one, and another only the other.
    pub fn count(&self, alloc: Global, steps: u32) -> Result<VertexCounts, AllocError>
        ensures { IfOk result (AreCounts self.now steps) }
    {
        let vertices = vertices_of(alloc, &self.uses)?;
        let first = first_near(alloc, &vertices, steps, 1)?;
        Ok(VertexCounts {
            shared: count_shared(&vertices),
            near: count_near(&vertices, steps),
            first: first_places(&first),
        })
    }

    /// What becomes of vertices that are nearly shared at so many steps, where they are joined. It takes memory as the
    /// pairs of these do, of which a vertex is in (2 * steps + 1)^2 - 1 at most, and n log n steps of that.
    pub fn clusters(&self, alloc: Global, steps: u32) -> Result<Clusters, AllocError>
        ensures { IfOk result (AreClusters self.now steps) }
    {
        let vertices = vertices_of(alloc, &self.uses)?;
        let pairs = first_near(alloc, &vertices, steps, usize::MAX)?;
        clusters_of(alloc, &pairs, steps)
    }
}
