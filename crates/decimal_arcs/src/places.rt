//! Positions, each behind the sums of those before (TopoJSON, section 2.1.3).
ghost use Rattle.decimal_arcs.specs.Placed.{IsPlaced};
ghost use Rattle.decimal_arcs.specs.Places as spec;
ghost use Rattle.decimal_arcs.specs.Places.{first_sums, no_place, no_sums, place_behind, position_faults, step_faults};
ghost use Rattle.decimal_arcs.specs.Tallies.{with_place};
ghost use Rattle.grid.specs.Place.{IsGridNumber};
ghost use Rattle.json.specs.Value.{value_view, items_view};
ghost use Rattle.reading.specs.Fault.{here};
ghost use Rattle.reading.specs.FaultLists.Found.{pairs_of};
ghost use Rattle.reading.specs.Positions.{clamped, position_at};
ghost use Rattle.std.specs.Prelude.{◌≡◌, ◌≤◌, length, IfOk};

use crate::axes::{Reached, x_number, y_number};
use crate::place::{Place, Quantization};
use decimal_faults::lists::items_of;
use decimal_faults::part::Part;
use decimal_faults::position::{has_numbers, judge_heights};
use decimal_maps::{Stop, Tally};
use faults::OutOfMemory;
use faults::fault::{Fault, FaultKind};
use fixing::FixingRules;
use grid::Pos;
use grid::limits::{GREATEST_GRID_NUMBER, LEAST_GRID_NUMBER};
use json::Value;
use reading::fault_lists::found::{join, one, put_under_index};
use std::alloc::Global;

/// The sums of the differences on both axes, where they are known.
#[derive(Clone, Copy)]
pub struct RunningSums {
    pub x: Option<i64>,
    pub y: Option<i64>,
}

/// What the first two numbers of a position lead to.
#[derive(Clone, Copy)]
pub struct BothNumbers {
    pub x: Result<Option<Reached>, FaultKind>,
    pub y: Result<Option<Reached>, FaultKind>,
}

/// What was read of a position: its faults, where it is, and the sums behind it.
#[derive(Drop)]
pub struct PositionStep {
    pub faults: Vec<Fault>,
    pub place: Place,
    pub sums: RunningSums,
}

/// The sums before the first difference.
pub fn start() -> RunningSums
    ensures { result ≡ first_sums }
{
    RunningSums {
        x: Some(0),
        y: Some(0),
    }
}

fn clamp(n: i64) -> i64
    ensures given { result ≡ clamped n }
    ensures grid { IsGridNumber result }
{
    n.max(LEAST_GRID_NUMBER).min(GREATEST_GRID_NUMBER)
}

// The position of two numbers, or of the nearest grid numbers.
fn position_of(x: i64, y: i64) -> Pos
    ensures { result ≡ position_at x y }
{
    match Pos::new(clamp(x), clamp(y)) {
        Some(position) => position,
        None => unreachable!(),
    }
}

// No position, and its fault.
fn nowhere(alloc: Global, kind: FaultKind) -> Result<PositionStep, OutOfMemory>
    ensures faults { IfOk result (λ s. pairs_of s.faults.items ≡ here kind) }
    ensures place { IfOk result (λ s. s.place ≡ no_place) }
    ensures sums { IfOk result (λ s. s.sums ≡ no_sums) }
{
    let faults = one(alloc, kind)?;
    Ok(PositionStep {
        faults,
        place: Place {
            at: position_of(0, 0),
            far: 0,
            heights: 0,
        },
        sums: RunningSums { x: None, y: None },
    })
}

fn fault_in(
    alloc: Global,
    number: Result<Option<Reached>, FaultKind>,
) -> Result<Vec<Fault>, OutOfMemory>
    ensures { IfOk result (λ fs. pairs_of fs.items ≡ spec.fault_in number) }
{
    match number {
        Ok(_) => Ok(Vec::new(alloc)),
        Err(kind) => { Ok(one(alloc, kind)?) }
    }
}

fn found_in(number: Result<Option<Reached>, FaultKind>) -> Option<Reached>
    ensures { result ≡ spec.found_in number }
{
    match number {
        Ok(found) => found,
        Err(_) => None,
    }
}

fn sum_in(number: Result<Option<Reached>, FaultKind>) -> Option<i64>
    ensures { result ≡ spec.sum_in number }
{
    match found_in(number) {
        Some(found) => Some(found.sum),
        None => None,
    }
}

fn at_in(number: Result<Option<Reached>, FaultKind>) -> i64
    ensures { result ≡ spec.at_in number }
{
    match found_in(number) {
        Some(found) => found.at,
        None => 0,
    }
}

fn far_in(number: Result<Option<Reached>, FaultKind>) -> u64
    ensures { result ≡ spec.far_in number }
{
    match found_in(number) {
        Some(found) => found.far,
        None => 0,
    }
}

fn place_in(both: BothNumbers, heights: u64) -> Place
    ensures { result ≡ spec.place_in both heights }
{
    let far = far_in(both.x).max(far_in(both.y));
    Place {
        at: position_of(at_in(both.x), at_in(both.y)),
        far,
        heights,
    }
}

fn sums_in(both: BothNumbers) -> RunningSums
    ensures { result ≡ spec.sums_in both }
{
    RunningSums {
        x: sum_in(both.x),
        y: sum_in(both.y),
    }
}

// The faults of both numbers.
fn judge_both(alloc: Global, both: BothNumbers) -> Result<Vec<Fault>, OutOfMemory>
    ensures { IfOk result (λ fs. pairs_of fs.items ≡ spec.both_faults both) }
{
    let x = fault_in(alloc, both.x)?;
    let y = fault_in(alloc, both.y)?;
    let mut found = Vec::new(alloc);
    put_under_index(&mut found, x, 0)?;
    put_under_index(&mut found, y, 1)?;
    Ok(found)
}

// Two numbers or more.
fn step_by(
    alloc: Global,
    quantization: &Quantization,
    sums: RunningSums,
    values: &[Value<'_>],
) -> Result<PositionStep, OutOfMemory>
    requires { 2 ≤ length values.now }
    ensures faults { IfOk result (λ s. pairs_of s.faults.items ≡ spec.two_faults quantization.now sums (items_view values.now)) }
    ensures place { IfOk result (λ s. s.place ≡ spec.place_of_two quantization.now sums (items_view values.now)) }
    ensures sums { IfOk result (λ s. s.sums ≡ spec.sums_of_two quantization.now sums (items_view values.now)) }
{
    let x = x_number(quantization, sums.x, &values[0]);
    let y = y_number(quantization, sums.y, &values[1]);
    let both = BothNumbers { x, y };
    let numbers = judge_both(alloc, both)?;
    let heights = judge_heights(alloc, values)?;
    let faults = join(numbers, heights)?;
    Ok(PositionStep {
        faults,
        place: place_in(both, (values.len() - 2) as u64),
        sums: sums_in(both),
    })
}

/// A position behind the sums of those before.
///
/// # Errors
/// Where memory is refused.
pub fn read_step(
    alloc: Global,
    quantization: &Quantization,
    sums: RunningSums,
    value: &Value<'_>,
) -> Result<PositionStep, OutOfMemory>
    ensures faults { IfOk result (λ s. pairs_of s.faults.items ≡ step_faults quantization.now sums (value_view value.now)) }
    ensures place { IfOk result (λ s. s.place ≡ place_behind quantization.now sums (value_view value.now)) }
    ensures sums { IfOk result (λ s. s.sums ≡ spec.next_sums quantization.now sums (value_view value.now)) }
{
    let Some(values) = items_of(value) else {
        return nowhere(alloc, FaultKind::WrongKind);
    };
    if !has_numbers(&quantization.grid, values) {
        return nowhere(alloc, FaultKind::NotTwo);
    }
    step_by(alloc, quantization, sums, values)
}

// Counts a position that was rounded.
fn count_place(place: &Place, tally: &mut Tally)
    ensures { tally.new ≡ with_place place.now tally.old }
{
    tally.add_position(place.far);
    tally.heights = tally.heights.saturating_add(place.heights);
}

impl Part for Quantization {
    type Made = Pos;

    type Count = Tally;

    ghost faults = { λ q fixing. position_faults q };

    ghost means = { λ q. IsPlaced q };

    fn judge(
        &self,
        alloc: Global,
        _fixing: &FixingRules,
        value: &Value<'_>,
    ) -> Result<Vec<Fault>, OutOfMemory> {
        let step = read_step(alloc, self, start(), value)?;
        Ok(step.faults)
    }

    fn make(&self, alloc: Global, value: &Value<'_>, count: &mut Tally) -> Result<Pos, Stop> {
        let step = match read_step(alloc, self, start(), value) {
            Ok(step) => step,
            Err(_) => return Err(Stop::OutOfMemory),
        };
        if !step.faults.is_empty() {
            return Err(Stop::Unread);
        }
        count_place(&step.place, count);
        Ok(step.place.at)
    }
}
