//! Faults of positions, lines and rings of absolute numbers.
ghost use Rattle.reading.specs.FaultLists.Found.{AreFound, AtMostOne, pairs_of};
ghost use Rattle.geojson_io.specs.Positions.{axis_faults, coordinate_faults, position_faults, outline_at_faults, line_at_faults, ring_at_faults};
ghost use Rattle.reading.specs.Outlines.{outline_faults};
ghost use Rattle.serde_json.specs.View.{view};
ghost use Rattle.std.specs.Prelude.{IfOk};

use crate::reader::position::Position;
use faults::OutOfMemory;
use faults::fault::{Fault, FaultKind};
use grid::transform::{Axis, AxisFault, Grid};
use lines::line::Line;
use lines::ring::Ring;
use reading::fault_lists::found::{Wanted, one};
use reading::fault_lists::judge::{Judge, judge_list, judge_pair};
use reading::fault_lists::shape::judge_outline;
use reading::number::whole_number;
use reading::outline::Outline;
use reading::shape::Positions;
use serde_json::Value;
use std::alloc::Global;

/// An element of a position.
#[derive(Clone, Copy)]
struct NumberOn {
    axis: Axis,
}

#[tactic(auto, using(reading::proofs::FaultListsLemmas::Kept::one_none))]
fn judge_number(alloc: Global, axis: &Axis, a: i64) -> Result<Vec<Fault>, OutOfMemory>
    ensures { IfOk result (λ fs. AtMostOne (axis_faults axis.now a) (pairs_of fs.items)) }
{
    match axis.to_grid(a) {
        Ok(_) => Ok(Vec::new(alloc)),
        Err(AxisFault::OffGrid) => Ok(one(alloc, FaultKind::OffGrid)?),
        Err(AxisFault::OutOfRange) => Ok(one(alloc, FaultKind::OutOfRange)?),
    }
}

impl Judge for NumberOn {
    ghost faults = { λ p. coordinate_faults p.axis };

    #[tactic(auto, using(reading::proofs::FaultListsLemmas::Wholes::found_leaf))]
    fn judge(
        &self,
        alloc: Global,
        wanted: Wanted,
        value: &Value,
    ) -> Result<Vec<Fault>, OutOfMemory> {
        match whole_number(value) {
            Ok(a) => Ok(judge_number(alloc, &self.axis, a)?),
            Err(kind) => Ok(one(alloc, kind)?),
        }
    }
}

impl Judge for Position {
    ghost faults = { λ p. position_faults p.grid };

    #[tactic(auto, using(reading::proofs::FaultListsLemmas::Wholes::found_leaf))]
    fn judge(
        &self,
        alloc: Global,
        wanted: Wanted,
        value: &Value,
    ) -> Result<Vec<Fault>, OutOfMemory> {
        let x = NumberOn {
            axis: self.grid.x_axis(),
        };
        let y = NumberOn {
            axis: self.grid.y_axis(),
        };
        judge_pair(alloc, wanted, &x, &y, value)
    }
}

// Positions without a fault are not read where memory is refused.
fn judge_positions<O: Outline>(
    alloc: Global,
    position: &Position,
    value: &Value,
) -> Result<Vec<Fault>, OutOfMemory>
    ensures { IfOk result (λ fs. AtMostOne (outline_at_faults position.now.grid (λ ps. outline_faults (O.fault ps)) (view value.now)) (pairs_of fs.items)) }
{
    match position.read_positions(alloc, value) {
        Ok(positions) => Ok(judge_outline::<O>(alloc, positions)?),
        Err(_) => Err(OutOfMemory),
    }
}

/// A list of positions, of which a line or a ring is asked where none of them has a fault.
#[tactic(auto, using(reading::proofs::FaultListsLemmas::Wholes::found_leaf, reading::proofs::FaultListsLemmas::Wholes::unless_found))]
fn judge_list_of<O: Outline>(
    alloc: Global,
    wanted: Wanted,
    grid: &Grid,
    value: &Value,
) -> Result<Vec<Fault>, OutOfMemory>
    ensures { IfOk result (λ fs. AreFound wanted (outline_at_faults grid.now (λ ps. outline_faults (O.fault ps)) (view value.now)) (pairs_of fs.items)) }
{
    let position = Position { grid: *grid };
    let found = judge_list(alloc, wanted, &position, value)?;
    if found.is_empty() {
        return Ok(judge_positions::<O>(alloc, &position, value)?);
    }
    Ok(found)
}

/// A line on a grid.
#[derive(Clone, Copy)]
pub struct LineOn {
    pub grid: Grid,
}

impl Judge for LineOn {
    ghost faults = { λ p. line_at_faults p.grid };

    #[tactic(auto, using(reading::proofs::FaultListsLemmas::Wholes::found_leaf))]
    fn judge(
        &self,
        alloc: Global,
        wanted: Wanted,
        value: &Value,
    ) -> Result<Vec<Fault>, OutOfMemory> {
        judge_list_of::<Line>(alloc, wanted, &self.grid, value)
    }
}

/// A ring on a grid.
#[derive(Clone, Copy)]
pub struct RingOn {
    pub grid: Grid,
}

impl Judge for RingOn {
    ghost faults = { λ p. ring_at_faults p.grid };

    #[tactic(auto, using(reading::proofs::FaultListsLemmas::Wholes::found_leaf))]
    fn judge(
        &self,
        alloc: Global,
        wanted: Wanted,
        value: &Value,
    ) -> Result<Vec<Fault>, OutOfMemory> {
        judge_list_of::<Ring>(alloc, wanted, &self.grid, value)
    }
}
