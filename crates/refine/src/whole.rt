//! A shard that keeps its map.
ghost use Rattle.merging.specs.Laws.{union-Commutes, union-Associates, union-IsIdempotent};
ghost use Rattle.shapes.specs.Union.{union};
ghost use Rattle.std.specs.Prelude.{◌≡◌};

use crate::fault::JoinFault;
use faults::{Fault, OutOfMemory};
use grid::transform::Grid;
use merging::Shard;
use merging::shard::same_grid;
use shapes::feature_map::FeatureMap;
use std::alloc::Global;
use topo::topology::Topology;

/// A shard that keeps its map and builds its topology when it is written.
#[derive(Drop)]
pub struct Whole {
    grid: Grid,
    map: FeatureMap,
}

impl Shard for Whole {
    ghost grid_of = { λ s. s.grid };

    ghost map_of = { λ s. s.map };

    ghost joined = { λ a b c. c.map ≡ union a.map b.map };

    fn grid(&self) -> Grid {
        self.grid
    }

    fn from_map(_alloc: Global, grid: &Grid, map: &FeatureMap) -> Result<Whole, OutOfMemory> {
        let map = map.copy()?;
        Ok(Whole { grid: *grid, map })
    }

    fn of_text(alloc: Global, bytes: &[u8]) -> Result<Whole, Fault> {
        let (grid, map) = topo_io::read(alloc, bytes)?;
        Ok(Whole { grid, map })
    }

    fn copy(&self, _alloc: Global) -> Result<Whole, OutOfMemory> {
        let map = self.map.copy()?;
        Ok(Whole {
            grid: self.grid,
            map,
        })
    }

    fn join(&self, _alloc: Global, other: &Whole) -> Result<Whole, JoinFault> {
        if !same_grid(&self.grid, &other.grid) {
            return Err(JoinFault::OtherGrid);
        }
        let map = self.map.union(&other.map)?;
        Ok(Whole {
            grid: self.grid,
            map,
        })
    }

    fn text(&self, alloc: Global) -> Result<Vec<u8>, OutOfMemory> {
        let topology = Topology::build(alloc, &self.grid, &self.map)?;
        topo_io::text_of(alloc, &topology)
    }

    ghost commutes = { union-Commutes (λ s. s.map) };

    ghost associates = { union-Associates (λ s. s.map) };

    ghost idempotent = { union-IsIdempotent (λ s. s.map) };
}
