//! Positions, axes and grids at their limits.
use grid::{Axis, AxisFault, Grid, GridFault, Pos};
use worked_maps::rows;

/// A grid by its scale and its translate: across and along.
type Numbers = (i64, i64, i64, i64);

type Place = (i64, i64);

const ONE: Numbers = (1, 1, 0, 0);

const WIDE: Numbers = (1_000_000, 1, 0, 0);

/// Its last position is on the edge of the absolute numbers.
const NEAR: Numbers = (8192, 1, -1, 0);

/// Its last position is past the edge of the absolute numbers.
const FAR: Numbers = (8192, 1, 0, 0);

const TEN: Numbers = (10, 10, -500, 0);

/// The greatest number of a position.
const GREATEST: i64 = 1_099_511_627_776;

fn grid(numbers: Numbers) -> Option<Grid> {
    Grid::new(numbers.0, numbers.1, numbers.2, numbers.3)
}

fn position(place: Place) -> Option<Pos> {
    Pos::new(place.0, place.1)
}

const OUT: Result<Place, GridFault> = Err(GridFault::OutOfRange(0));

/// Grids, absolute numbers, and the position that they are converted to.
const CONVERTED: &[(&str, Numbers, Place, Result<Place, GridFault>)] = rows! {
    "the greatest", ONE, (GREATEST, 0), Ok((GREATEST, 0));
    "past the greatest", ONE, (1_099_511_627_777, 0), OUT;
    "the least", ONE, (-GREATEST, 7), Ok((-GREATEST, 7));
    "the last of a wide grid", WIDE, (9_007_199_254_000_000, 0), Ok((9_007_199_254, 0));
    "past a wide grid", WIDE, (9_007_199_255_000_000, 0), OUT;
    "the greatest absolute number", NEAR, (9_007_199_254_740_991, 0), Ok((GREATEST, 0));
    "past the greatest absolute number", FAR, (9_007_199_254_740_992, 0), OUT;
    "the least corner", TEN, (-10_000_000_500, -10_000_000_000), Ok((-1_000_000_000, -1_000_000_000));
    "the greatest corner", TEN, (9_999_999_500, 10_000_000_000), Ok((1_000_000_000, 1_000_000_000));
    "the greatest number of 64 bits, out of range", (1, 1, -1_000_000_000_000, 0), (i64::MAX, 0), OUT;
    "the greatest number of 64 bits, off the grid", (10, 10, -1_000_000_000_000, 0), (i64::MAX, 0), Err(GridFault::OffGrid(0));
    "the least number of 64 bits, off the grid", (10, 10, -1_000_000_000_000, 0), (i64::MIN, 0), Err(GridFault::OffGrid(0));
    "off the grid along", (10, 10, -1_000_000_000_000, 0), (0, 5), Err(GridFault::OffGrid(1));
};

fn converted(numbers: Numbers, place: Place) -> Option<Result<Place, GridFault>> {
    match grid(numbers)?.to_grid(place.0, place.1) {
        Ok(position) => Some(Ok((position.x(), position.y()))),
        Err(fault) => Some(Err(fault)),
    }
}

#[test]
fn absolute_numbers_to_positions(rt: HostRuntime) {
    for (title, numbers, place, expected) in CONVERTED {
        assert!(rt; converted(*numbers, *place) == Some(*expected), "{title}");
    }
}

/// Grids, positions, and their absolute numbers; none where these are out of range.
const ABSOLUTE: &[(&str, Numbers, Place, Option<Place>)] = rows! {
    "the greatest, on the edge", NEAR, (GREATEST, 0), Some((9_007_199_254_740_991, 0));
    "the least corner", TEN, (-1_000_000_000, -1_000_000_000), Some((-10_000_000_500, -10_000_000_000));
    "past a wide grid", WIDE, (9_007_199_255, 0), None;
    "past the edge", FAR, (GREATEST, 0), None;
};

fn absolute(numbers: Numbers, place: Place) -> Option<Option<Place>> {
    let (grid, position) = (grid(numbers)?, position(place)?);
    match grid.fits(position) {
        true => Some(Some(grid.to_absolute(position))),
        false => Some(None),
    }
}

#[test]
fn positions_to_absolute_numbers(rt: HostRuntime) {
    for (title, numbers, place, expected) in ABSOLUTE {
        assert!(rt; absolute(*numbers, *place) == Some(*expected), "{title}");
    }
}

/// Places, and the numbers of the positions there; none past the limits.
const POSITIONS: &[(&str, Place, Option<Place>)] = rows! {
    "a position", (3, -4), Some((3, -4));
    "past the greatest number across", (1_099_511_627_777, 0), None;
    "past the least number along", (0, -1_099_511_627_777), None;
};

#[test]
fn numbers_of_positions(rt: HostRuntime) {
    for (title, place, expected) in POSITIONS {
        let numbers = position(*place).map(|position| (position.x(), position.y()));
        assert!(rt; numbers == *expected, "{title}");
    }
}

/// Numbers of grids, and the scale and the translate of each; none past the limits.
const GRIDS: &[(&str, Numbers, Option<(Place, Place)>)] = rows! {
    "ten by ten", TEN, Some(((10, 10), (-500, 0)));
    "no scale", (0, 1, 0, 0), None;
    "past the greatest scale", (1, 1_000_001, 0, 0), None;
    "past the least translate", (1, 1, 0, -1_000_000_000_001), None;
};

#[test]
fn numbers_of_grids(rt: HostRuntime) {
    for (title, numbers, expected) in GRIDS {
        let parts = grid(*numbers).map(|grid| (grid.scale(), grid.translate()));
        assert!(rt; parts == *expected, "{title}");
    }
}

#[test]
fn positions_are_ordered_across_first(rt: HostRuntime) {
    let apart = position((3, -4));
    assert!(rt; position((2, 9)) < apart && apart < position((3, 0)));
}

const AXIS: (i64, i64) = (1_000_000, 3);

#[test]
fn one_axis(rt: HostRuntime) {
    let axis = Axis::new(AXIS.0, AXIS.1).expect(&rt, "an axis");
    assert!(rt;
        (axis.scale(), axis.translate(), axis.to_absolute(-2)) == (AXIS.0, AXIS.1, -1_999_997)
    );
    assert!(rt; axis.to_grid(2_000_003) == Ok(2));
    assert!(rt; axis.to_grid(2) == Err(AxisFault::OffGrid));
}

#[test]
fn axes_of_grids(rt: HostRuntime) {
    let axis = Axis::new(AXIS.0, AXIS.1);
    let across = grid((AXIS.0, 2, AXIS.1, 4)).map(|grid| grid.x_axis());
    let along = grid((2, AXIS.0, 4, AXIS.1)).map(|grid| grid.y_axis());
    assert!(rt; axis.is_some() && across == axis && along == axis);
}

/// Numbers on the axis, and whether their absolute numbers are in range.
const FITTED_ON_AXIS: &[(i64, bool)] = &[
    (9_007_199_254, true),
    (9_007_199_255, false),
    (i64::MIN, false),
];

#[test]
fn numbers_that_fit_an_axis(rt: HostRuntime) {
    let axis = Axis::new(AXIS.0, AXIS.1).expect(&rt, "an axis");
    for (number, fits) in FITTED_ON_AXIS {
        assert!(rt; axis.fits(*number) == *fits, "{number}");
    }
}
