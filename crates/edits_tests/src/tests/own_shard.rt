//! A shard that another crate makes: it has the five calls that each needs, and texts are merged over it.
ghost use Rattle.merging.specs.Laws.{union-Commutes, union-Associates, union-IsIdempotent};
ghost use Rattle.shapes.specs.Union.{union};
ghost use Rattle.std.specs.Prelude.{◌≡◌};

use crate::tests::inputs::{GROUPINGS, ON_SCALE_TWO, plan_of};
use crate::tests::merges::texts;
use faults::OutOfMemory;
use grid::transform::Grid;
use merging::Shard;
use merging::shard::same_grid;
use refine::fault::{JoinFault, MergeFault};
use refine::merge::merge_as;
use refine::whole::Whole;
use refused_calls::texts::{FIRST, SECOND, THIRD, THREE};
use shapes::feature_map::FeatureMap;
use std::alloc::Global;
use std::test::Fail;

/// A grid beside a map.
#[derive(Drop)]
struct OwnShard {
    grid: Grid,
    map: FeatureMap,
}

impl Shard for OwnShard {
    ghost grid_of = { λ s. s.grid };

    ghost map_of = { λ s. s.map };

    ghost joined = { λ a b c. c.map ≡ union a.map b.map };

    fn grid(&self) -> Grid {
        self.grid
    }

    fn from_map(_alloc: Global, grid: &Grid, map: &FeatureMap) -> Result<OwnShard, OutOfMemory> {
        let map = map.copy()?;
        Ok(OwnShard { grid: *grid, map })
    }

    fn copy(&self, alloc: Global) -> Result<OwnShard, OutOfMemory> {
        OwnShard::from_map(alloc, &self.grid, &self.map)
    }

    fn join(&self, _alloc: Global, other: &OwnShard) -> Result<OwnShard, JoinFault> {
        if !same_grid(&self.grid, &other.grid) {
            return Err(JoinFault::OtherGrid);
        }
        let map = self.map.union(&other.map)?;
        Ok(OwnShard {
            grid: self.grid,
            map,
        })
    }

    fn text(&self, alloc: Global) -> Result<Vec<u8>, OutOfMemory> {
        let whole = Whole::from_map(alloc, &self.grid, &self.map)?;
        whole.text(alloc)
    }

    ghost commutes = { union-Commutes (λ s. s.map) };

    ghost associates = { union-Associates (λ s. s.map) };

    ghost idempotent = { union-IsIdempotent (λ s. s.map) };
}

#[test]
fn texts_are_merged_over_a_shard_of_ones_own(rt: HostRuntime) -> Result<(), Fail> {
    let list = texts(rt.alloc(), &[SECOND, THIRD, FIRST])?;
    for grouping in GROUPINGS {
        let plan = plan_of(rt.alloc(), grouping, 3)?;
        let text = merge_as::<OwnShard>(rt.alloc(), &list, &plan)?;
        assert!(rt; text.as_slice() == THREE.as_bytes(), "{grouping:?}");
    }
    Ok(())
}

#[test]
fn shards_of_ones_own_on_two_grids_are_refused(rt: HostRuntime) -> Result<(), Fail> {
    let list = texts(rt.alloc(), &[FIRST, ON_SCALE_TWO])?;
    let plan = plan_of(rt.alloc(), GROUPINGS[0], 2)?;
    let merged = merge_as::<OwnShard>(rt.alloc(), &list, &plan);
    assert!(rt; matches!(merged, Err(MergeFault::OtherGrid(1))));
    Ok(())
}
