//! Faults of geometries.
ghost use Rattle.reading.specs.FaultLists.Found.{AreFound, pairs_of};
ghost use Rattle.geojson_io.specs.Geometries.{coordinates_faults, geometry_faults, typed_geometry_faults};
ghost use Rattle.reading.specs.Parts.{unless_null};
ghost use Rattle.serde_json.specs.View.{view};
ghost use Rattle.std.specs.Prelude.{IfOk};

use crate::reader::position::Position;
use crate::validity::position::{LineOn, RingOn};
use faults::OutOfMemory;
use faults::fault::{Fault, FaultKind};
use grid::transform::Grid;
use reading::fault_lists::found::{Wanted, one};
use reading::fault_lists::judge::Judge;
use reading::fault_lists::members::judge_member;
use reading::fault_lists::shape::{ShapeParts, judge_shape};
use reading::fault_lists::types::type_fault;
use reading::geometry::GeometryType;
use serde_json::Value;
use std::alloc::Global;

/// The member `coordinates` of a geometry of that type.
#[derive(Clone, Copy)]
struct CoordinatesOf {
    grid: Grid,
    kind: GeometryType,
}

impl Judge for CoordinatesOf {
    ghost faults = { λ p. coordinates_faults p.grid p.kind };

    #[tactic(auto, using(reading::proofs::FaultListsLemmas::Wholes::found_leaf))]
    fn judge(
        &self,
        alloc: Global,
        wanted: Wanted,
        value: &Value,
    ) -> Result<Vec<Fault>, OutOfMemory> {
        let grid = self.grid;
        let parts = ShapeParts {
            position: Position { grid },
            line: LineOn { grid },
            ring: RingOn { grid },
        };
        judge_shape(alloc, wanted, &parts, self.kind, value)
    }
}

/// A geometry whose type is known.
pub fn judge_geometry(
    alloc: Global,
    wanted: Wanted,
    grid: &Grid,
    kind: GeometryType,
    value: &Value,
) -> Result<Vec<Fault>, OutOfMemory>
    ensures { IfOk result (λ fs. AreFound wanted (typed_geometry_faults grid.now kind (view value.now)) (pairs_of fs.items)) }
{
    let of = CoordinatesOf { grid: *grid, kind };
    judge_member(alloc, wanted, &of, value, "coordinates")
}

/// The member `geometry` of a feature: null, or a geometry.
#[derive(Clone, Copy)]
pub struct GeometryOrNull {
    pub grid: Grid,
}

impl Judge for GeometryOrNull {
    ghost faults = { λ p. unless_null (geometry_faults p.grid) };

    #[tactic(auto, using(reading::proofs::FaultListsLemmas::Wholes::found_leaf))]
    fn judge(
        &self,
        alloc: Global,
        wanted: Wanted,
        value: &Value,
    ) -> Result<Vec<Fault>, OutOfMemory> {
        if value.is_null() {
            return Ok(Vec::new(alloc));
        }
        if !value.is_object() {
            return Ok(one(alloc, FaultKind::WrongKind)?);
        }
        match GeometryType::of(value) {
            Ok(kind) => judge_geometry(alloc, wanted, &self.grid, kind, value),
            Err(kind) => Ok(type_fault(alloc, kind)?),
        }
    }
}
