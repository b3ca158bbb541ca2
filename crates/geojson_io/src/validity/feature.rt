//! Faults of features.
ghost use Rattle.reading.specs.FaultLists.Found.{AreFound, pairs_of};
ghost use Rattle.geojson_io.specs.Features.{element_of_features_faults, feature_members};
ghost use Rattle.serde_json.specs.View.{view};
ghost use Rattle.std.specs.Prelude.{IfOk};

use crate::validity::geometry::GeometryOrNull;
use faults::OutOfMemory;
use faults::fault::{Fault, FaultKind};
use grid::transform::Grid;
use reading::fault_lists::found::{Wanted, is_enough, join, one};
use reading::fault_lists::info::judge_info;
use reading::fault_lists::judge::Judge;
use reading::fault_lists::members::judge_option;
use reading::fault_lists::types::type_fault;
use reading::part::judge_type;
use serde_json::Value;
use std::alloc::Global;

/// The members of a feature.
#[tactic(auto, using(reading::proofs::FaultListsLemmas::Kept::found_enough))]
pub fn judge_feature(
    alloc: Global,
    wanted: Wanted,
    grid: &Grid,
    value: &Value,
) -> Result<Vec<Fault>, OutOfMemory>
    ensures { IfOk result (λ fs. AreFound wanted (feature_members grid.now (view value.now)) (pairs_of fs.items)) }
{
    let of = GeometryOrNull { grid: *grid };
    let geometry = judge_option(alloc, wanted, &of, value, "geometry")?;
    if is_enough(wanted, &geometry) {
        return Ok(geometry);
    }
    let info = judge_info(alloc, wanted, value)?;
    let found = join(geometry, info)?;
    Ok(found)
}

/// An element of a FeatureCollection.
#[derive(Clone, Copy)]
pub struct FeatureIn {
    pub grid: Grid,
}

impl Judge for FeatureIn {
    ghost faults = { λ p. element_of_features_faults p.grid };

    #[tactic(auto, using(reading::proofs::FaultListsLemmas::Wholes::found_leaf))]
    fn judge(
        &self,
        alloc: Global,
        wanted: Wanted,
        value: &Value,
    ) -> Result<Vec<Fault>, OutOfMemory> {
        if !value.is_object() {
            return Ok(one(alloc, FaultKind::WrongKind)?);
        }
        match judge_type(value, "Feature") {
            Ok(()) => judge_feature(alloc, wanted, &self.grid, value),
            Err(kind) => Ok(type_fault(alloc, kind)?),
        }
    }
}
