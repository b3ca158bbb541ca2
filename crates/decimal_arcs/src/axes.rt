//! Numbers of positions, along one axis (TopoJSON, sections 2.1.2 and 2.1.3).
ghost use Rattle.decimal_arcs.specs.Axes as spec;
ghost use Rattle.fast_float.specs.Text.{with_sign};
ghost use Rattle.grid.specs.Place.{IsGridNumber};
ghost use Rattle.json.specs.Value.{value_view};
ghost use Rattle.std.specs.Prelude.{◌≡◌, ◌^◌, ◌<◌, IfOk, unsigned_abs};

use crate::place::Quantization;
use decimal_maps::DecimalGrid;
use faults::fault::FaultKind;
use grid::limits::{GREATEST_GRID_NUMBER, LEAST_GRID_NUMBER};
use json::Value;
use numerals::{DecimalAxis, DecimalStep, snap_measured, whole};

/// What the numbers of an axis lead to.
#[derive(Clone, Copy, Debug)]
pub struct Reached {
    /// The sum of the differences.
    pub sum: i64,
    /// The grid number.
    pub at: i64,
    /// How far it was moved, in ten-thousandths of a step and rounded up; 0 where that isn't measured.
    pub far: u64,
}

// The whole number of steps nearest to the value at a number of an axis, and how far that is from it.
fn snapped_at(axis: &DecimalAxis, step: &DecimalStep, number: i64) -> Option<(i64, u64)>
    requires { IsGridNumber number }
    ensures { result ≡ spec.snapped_at axis.now step.now number }
{
    let _size = step.size();
    axis.snap_measured(number, step)
}

// The whole number of steps nearest to a numeral, and how far that is from it.
fn snapped_text(step: &DecimalStep, text: &str) -> Option<(i64, u64)>
    ensures { result ≡ spec.snapped_text step.now text.now }
{
    let _size = step.size();
    snap_measured(text.as_bytes(), step)
}

// A number of steps that is at most so far from 0.
fn keep_within(grid: &DecimalGrid, greatest: u64, found: Option<(i64, u64)>) -> Option<(i64, u64)>
    ensures { result ≡ spec.kept grid.now greatest found }
{
    let (steps, far) = found?;
    if steps.unsigned_abs() > greatest {
        return None;
    }
    Some((steps, if grid.measures { far } else { 0 }))
}

fn reached_by(sum: i64, found: Option<(i64, u64)>) -> Result<Option<Reached>, FaultKind>
    ensures { result ≡ spec.reached_by sum found }
{
    match found {
        Some((at, far)) => Ok(Some(Reached { sum, at, far })),
        None => Err(FaultKind::OutOfRange),
    }
}

fn with_sign(negative: bool, size: u64) -> i128
    ensures given { result ≡ with_sign negative size }
    ensures few { unsigned_abs result < 2 ^ 64 }
{
    let size = i128::from(size);
    if negative { -size } else { size }
}

// The whole number that a value is.
fn whole_number(value: &Value<'_>) -> Result<i128, FaultKind>
    ensures given { result ≡ spec.whole_number (value_view value.now) }
    ensures few { IfOk result (λ n. unsigned_abs n < 2 ^ 64) }
{
    let Some(text) = value.as_number() else {
        return Err(FaultKind::WrongKind);
    };
    match whole(text.as_bytes()) {
        Some((negative, size)) => Ok(with_sign(negative, size)),
        None => Err(FaultKind::NotWhole),
    }
}

// The grid number that a sum becomes.
fn reach(
    axis: &DecimalAxis,
    grid: &DecimalGrid,
    greatest: u64,
    sum: i128,
) -> Result<Option<Reached>, FaultKind>
    ensures { result ≡ spec.reach axis.now grid.now greatest sum }
{
    if sum < i128::from(LEAST_GRID_NUMBER) || sum > i128::from(GREATEST_GRID_NUMBER) {
        return Err(FaultKind::OutOfRange);
    }
    let sum = sum as i64;
    reached_by(
        sum,
        keep_within(grid, greatest, snapped_at(axis, &grid.step, sum)),
    )
}

// What one more difference leads to.
fn behind_sum(
    axis: &DecimalAxis,
    grid: &DecimalGrid,
    greatest: u64,
    sum: Option<i64>,
    difference: i128,
) -> Result<Option<Reached>, FaultKind>
    requires { unsigned_abs difference < 2 ^ 64 }
    ensures { result ≡ spec.behind_sum axis.now grid.now greatest sum difference }
{
    match sum {
        Some(before) => reach(axis, grid, greatest, i128::from(before) + difference),
        None => Ok(None),
    }
}

// What a whole number leads to.
fn quantized_number(
    axis: &DecimalAxis,
    grid: &DecimalGrid,
    greatest: u64,
    sum: Option<i64>,
    value: &Value<'_>,
) -> Result<Option<Reached>, FaultKind>
    ensures { result ≡ spec.quantized_number axis.now grid.now greatest sum (value_view value.now) }
{
    match whole_number(value) {
        Ok(difference) => behind_sum(axis, grid, greatest, sum, difference),
        Err(kind) => Err(kind),
    }
}

// What a number of a topology without a transform is.
fn decimal_number(
    grid: &DecimalGrid,
    greatest: u64,
    value: &Value<'_>,
) -> Result<Option<Reached>, FaultKind>
    ensures { result ≡ spec.decimal_number grid.now greatest (value_view value.now) }
{
    match value.as_number() {
        Some(text) => reached_by(
            0,
            keep_within(grid, greatest, snapped_text(&grid.step, text)),
        ),
        None => Err(FaultKind::WrongKind),
    }
}

/// What the first number of a position leads to, behind the sum of those before.
pub fn x_number(
    quantization: &Quantization,
    sum: Option<i64>,
    value: &Value<'_>,
) -> Result<Option<Reached>, FaultKind>
    ensures { result ≡ spec.x_number quantization.now sum (value_view value.now) }
{
    let grid = &quantization.grid;
    match &quantization.transform {
        Some(transform) => quantized_number(&transform.x, grid, grid.greatest_x, sum, value),
        None => decimal_number(grid, grid.greatest_x, value),
    }
}

/// The second number of a position: see `x_number`.
pub fn y_number(
    quantization: &Quantization,
    sum: Option<i64>,
    value: &Value<'_>,
) -> Result<Option<Reached>, FaultKind>
    ensures { result ≡ spec.y_number quantization.now sum (value_view value.now) }
{
    let grid = &quantization.grid;
    match &quantization.transform {
        Some(transform) => quantized_number(&transform.y, grid, grid.greatest_y, sum, value),
        None => decimal_number(grid, grid.greatest_y, value),
    }
}
