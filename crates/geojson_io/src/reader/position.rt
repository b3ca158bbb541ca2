//! Positions: pairs of absolute numbers.
ghost use Rattle.geojson_io.specs.Positions.{axis_faults, number_or_zero, coordinate_faults, grid_number, position_faults, position_of, positions_of, outline_at_faults};
ghost use Rattle.grid.specs.Computed.{axis_number};
ghost use Rattle.grid.specs.Place.{IsGridNumber};
ghost use Rattle.reading.specs.Fault.{LeastOrWant};
ghost use Rattle.std.specs.Prelude.{◌≡◌, [], IfOk, IfErr, OnOk};

use faults::fault::{Fault, FaultKind};
use grid::pos::Pos;
use grid::transform::{Axis, AxisFault, Grid};
use reading::number::whole_number;
use reading::part::{Part, read_list, read_pair};
use reading::shape::Positions;
use serde_json::Value;
use std::alloc::Global;

/// An element of a position: the absolute number of a grid number.
#[derive(Clone, Copy)]
pub struct Coordinate {
    axis: Axis,
}

fn on_axis(alloc: Global, axis: &Axis, a: i64) -> Result<i64, Fault>
    ensures ok { OnOk result (axis_faults axis.now a ≡ []) }
    ensures made { IfOk result (λ n. n ≡ number_or_zero (axis_number axis.now a)) }
    ensures inside { IfOk result IsGridNumber }
    ensures err { IfErr result (λ f. LeastOrWant (axis_faults axis.now a) f) }
{
    match axis.to_grid(a) {
        Ok(number) => Ok(number),
        Err(AxisFault::OffGrid) => Err(Fault::here(alloc, FaultKind::OffGrid)),
        Err(AxisFault::OutOfRange) => Err(Fault::here(alloc, FaultKind::OutOfRange)),
    }
}

impl Part for Coordinate {
    type Made = i64;

    ghost faults = { λ p. coordinate_faults p.axis };

    ghost means = { λ p d n. (n ≡ grid_number p.axis d) × IsGridNumber n };

    fn read(&self, alloc: Global, value: &Value) -> Result<i64, Fault> {
        match whole_number(value) {
            Ok(a) => on_axis(alloc, &self.axis, a),
            Err(kind) => Err(Fault::here(alloc, kind)),
        }
    }
}

/// A position on a grid.
#[derive(Clone, Copy)]
pub struct Position {
    pub grid: Grid,
}

impl Part for Position {
    type Made = Pos;

    ghost faults = { λ p. position_faults p.grid };

    ghost means = { λ p d x. x ≡ position_of p.grid d };

    fn read(&self, alloc: Global, value: &Value) -> Result<Pos, Fault> {
        let x = Coordinate {
            axis: self.grid.x_axis(),
        };
        let y = Coordinate {
            axis: self.grid.y_axis(),
        };
        let (x, y) = read_pair(alloc, &x, &y, value)?;
        match Pos::new(x, y) {
            Some(position) => Ok(position),
            None => unreachable!(),
        }
    }
}

impl Positions for Position {
    ghost position_faults = { λ p. position_faults p.grid };

    ghost position = { λ p. position_of p.grid };

    ghost list_faults = { λ p. outline_at_faults p.grid };

    ghost positions = { λ p. positions_of p.grid };

    fn read_position(&self, alloc: Global, value: &Value) -> Result<Pos, Fault> {
        self.read(alloc, value)
    }

    fn read_positions(&self, alloc: Global, value: &Value) -> Result<Vec<Pos>, Fault> {
        read_list(alloc, self, value)
    }
}
