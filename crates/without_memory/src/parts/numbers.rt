//! Positions, grids and kinds of faults.

use chains::marking::{first_mark, is_marked};
use chains::{ArcRef, Segment};
use faults::{Fault, FaultKind};
use grid::{Axis, AxisFault, Grid, GridFault, Pos};
use lines::neighbours::has_equal_neighbours;
use lines::pair::PositionPair;
use lines::position_filter::index_among;
use refused_calls::handed::Handed;
use refused_calls::outcome::Tally;
use refused_calls::rows;
use refused_calls::tables::both;
use std::alloc::Global;

/// Two positions.
#[derive(Clone, Copy)]
struct Two {
    low: Pos,
    high: Pos,
}

impl Two {
    fn new() -> Option<Two> {
        Some(Two {
            low: Pos::new(3, -4)?,
            high: Pos::new(3, 4)?,
        })
    }

    fn is_within(self) -> bool {
        Pos::new(1_099_511_627_777, 0).is_none() && Pos::new(0, -1_099_511_627_777).is_none()
    }

    fn is_ordered(self) -> bool {
        self.low < self.high && self.low != self.high && self.high > self.low
    }

    fn has_ends(self) -> bool {
        PositionPair::of(self.high, self.low).ends() == (self.low, self.high)
    }

    fn is_segment(self) -> bool {
        match Segment::new(self.high, self.low) {
            Some(segment) => segment.ends() == (self.low, self.high),
            None => false,
        }
    }

    fn is_no_segment(self) -> bool {
        Segment::new(self.low, self.low).is_none()
    }

    fn test(self, rt: &HostRuntime, tally: &mut Tally) {
        rows!(rt, tally;
            "Pos::new" => self.is_within(),
            "Pos::x" => self.low.x() == 3,
            "Pos::y" => self.low.y() == -4,
            "Pos in order" => self.is_ordered(),
            "PositionPair::of" => self.has_ends(),
            "PositionPair::ends" => self.has_ends(),
            "Segment::new" => self.is_no_segment(),
            "Segment::ends" => self.is_segment(),
            "lines::index_among" => index_among(1, self.low) == 0,
        );
    }
}

/// An axis of scale 10 from -500 on, on which 3 is at -470.
fn test_axis(rt: &HostRuntime, tally: &mut Tally, axis: Axis) {
    rows!(rt, tally;
        "Axis::new" => Axis::new(0, 0).is_none() && Axis::new(10, -500) == Some(axis),
        "Axis::scale" => axis.scale() == 10,
        "Axis::translate" => axis.translate() == -500,
        "Axis::to_absolute" => axis.to_absolute(3) == -470,
        "Axis::fits" => axis.fits(3) && !axis.fits(1_099_511_627_777),
        "Axis::to_grid" => axis.to_grid(-470) == Ok(3) && axis.to_grid(-471) == Err(AxisFault::OffGrid),
    );
}

/// A grid of that axis, and of one of scale 1 from 0 on, and a position on it.
#[derive(Clone, Copy)]
struct Placed {
    grid: Grid,
    position: Pos,
}

impl Placed {
    fn new() -> Option<Placed> {
        Some(Placed {
            grid: Grid::new(10, 1, -500, 0)?,
            position: Pos::new(3, 4)?,
        })
    }

    fn is_found(self) -> bool {
        self.grid.to_grid(-470, 4) == Ok(self.position)
            && self.grid.to_grid(-471, 4) == Err(GridFault::OffGrid(0))
            && self.grid.to_grid(-470, 1_099_511_627_777) == Err(GridFault::OutOfRange(1))
    }

    fn test(self, rt: &HostRuntime, tally: &mut Tally) {
        test_axis(rt, tally, self.grid.x_axis());
        rows!(rt, tally;
            "Grid::new" => Grid::new(0, 1, 0, 0).is_none(),
            "Grid::scale" => self.grid.scale() == (10, 1),
            "Grid::translate" => self.grid.translate() == (-500, 0),
            "Grid::x_axis" => self.grid.x_axis().scale() == 10,
            "Grid::y_axis" => self.grid.y_axis().scale() == 1,
            "Grid::to_absolute" => self.grid.to_absolute(self.position) == (-470, 4),
            "Grid::fits" => self.grid.fits(self.position),
            "Grid::to_grid" => self.is_found(),
        );
    }
}

fn is_fault_here(alloc: Global) -> bool {
    let fault = Fault::here(alloc, FaultKind::NoLayer);
    fault.kind == FaultKind::NoLayer && fault.path.is_empty()
}

/// The arc of number 2, read backwards.
fn is_backwards(used: ArcRef) -> bool {
    used.arc == 2 && used.reversed && ArcRef::from_index(2) != used
}

fn first_marks() -> bool {
    let (mark, others) = first_mark(&[true, false]);
    mark && others.len() == 1 && !first_mark(&[]).0
}

fn test_others(rt: &HostRuntime, tally: &mut Tally, alloc: Global) {
    rows!(rt, tally;
        "FaultKind::number" => FaultKind::OutOfMemory.number() == 20,
        "FaultKind::name" => FaultKind::OutOfMemory.name() == "OutOfMemory",
        "Fault::here" => is_fault_here(alloc),
        "lines::has_equal_neighbours" => has_equal_neighbours(&[1, 2, 2]) && !has_equal_neighbours(&[2, 1, 2]),
        "ArcRef::from_index" => is_backwards(ArcRef::from_index(-3)),
        "ArcRef::index" => ArcRef::from_index(-3).index() == -3,
        "ArcRef::wide_index" => ArcRef::from_index(-3).wide_index() == -3,
        "arcs::is_marked" => is_marked(&[false, true], 1) && !is_marked(&[false, true], 0),
        "arcs::first_mark" => first_marks(),
    );
}

/// Positions and a grid.
#[derive(Clone, Copy)]
pub(crate) struct Numbers {
    two: Two,
    placed: Placed,
}

impl Handed for Numbers {
    fn make(_: Global) -> Option<Numbers> {
        let (two, placed) = both(Two::new(), Placed::new())?;
        Some(Numbers { two, placed })
    }

    fn test(self, rt: &HostRuntime, tally: &mut Tally) {
        self.two.test(rt, tally);
        self.placed.test(rt, tally);
        test_others(rt, tally, rt.alloc());
    }
}
