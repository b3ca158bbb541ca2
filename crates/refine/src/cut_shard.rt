//! A shard that keeps a topology.
ghost use Rattle.merging.specs.Laws.{union-Commutes, union-Associates, union-IsIdempotent};
ghost use Rattle.shapes.specs.Union.{union};
ghost use Rattle.std.specs.Prelude.{◌≡◌};

pub use crate::cut::Cut;
use crate::cut::{join_shards, join_shards_owned};
use crate::fault::JoinFault;
use faults::{Fault, OutOfMemory};
use grid::transform::Grid;
use merging::Shard;
use shapes::feature_map::FeatureMap;
use std::alloc::Global;
use topo::topology::Topology;

impl Shard for Cut {
    ghost grid_of = { λ s. s.grid };

    ghost map_of = { λ s. s.map };

    ghost joined = { λ a b c. c.map ≡ union a.map b.map };

    fn grid(&self) -> Grid {
        self.topology().grid()
    }

    fn from_map(alloc: Global, grid: &Grid, map: &FeatureMap) -> Result<Cut, OutOfMemory> {
        let topology = Topology::build(alloc, grid, map)?;
        Ok(Cut::of_topology(topology))
    }

    fn of_text(alloc: Global, bytes: &[u8]) -> Result<Cut, Fault> {
        let topology = topo_io::read_topology(alloc, bytes)?;
        Ok(Cut::of_topology(topology))
    }

    fn bbox(&self) -> Option<(i64, i64, i64, i64)> {
        self.topology().bbox()
    }

    fn copy(&self, alloc: Global) -> Result<Cut, OutOfMemory> {
        let topology = self.topology().share(alloc)?;
        Ok(Cut::of_topology(topology))
    }

    fn join(&self, alloc: Global, other: &Cut) -> Result<Cut, JoinFault> {
        join_shards(alloc, self, other)
    }

    fn join_owned(self, alloc: Global, other: Cut) -> Result<Cut, JoinFault> {
        join_shards_owned(alloc, self, other)
    }

    fn text(&self, alloc: Global) -> Result<Vec<u8>, OutOfMemory> {
        topo_io::text_of(alloc, self.topology())
    }

    ghost commutes = { union-Commutes (λ s. s.map) };

    ghost associates = { union-Associates (λ s. s.map) };

    ghost idempotent = { union-IsIdempotent (λ s. s.map) };
}
