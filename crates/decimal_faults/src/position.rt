//! Positions of decimal numerals.
ghost use Rattle.decimal_faults.specs.Parts.{each_faults};
ghost use Rattle.decimal_faults.specs.Positions.{both_faults, coordinate_faults, height_faults, may_have, numbers_faults, position_faults};
ghost use Rattle.decimal_maps.specs.Positions.{AreCoordinates, AreHeights, IsPosition};
ghost use Rattle.fixing.specs.declared.rules.FixingRules.{FixingRules as Rules};
ghost use Rattle.json.specs.Value.{value_view, items_view};
ghost use Rattle.reading.specs.FaultLists.Found.{pairs_of};
ghost use Rattle.std.specs.Prelude.{◌≡◌, ◌≢◌, ◌≤◌, [], drop, length, IfOk, OnOk, IsTrue, Err};

use crate::lists::items_of;
use crate::part::Part;
use decimal_maps::position::{coordinate_of, position_of};
use decimal_maps::{DecimalGrid, Stop, Tally};
use faults::OutOfMemory;
use faults::fault::{Fault, FaultKind};
use fixing::FixingRules;
use grid::Pos;
use json::Value;
use reading::fault_lists::found::{join, one, put_under_index};
use std::alloc::Global;

// The fault of one of the first two numbers of a position.
fn judge_coordinate(
    alloc: Global,
    grid: &DecimalGrid,
    greatest: u64,
    value: &Value<'_>,
) -> Result<Vec<Fault>, OutOfMemory>
    ensures { IfOk result (λ fs. pairs_of fs.items ≡ coordinate_faults grid.now.step greatest (value_view value.now)) }
{
    let _size = grid.step.size();
    let Some(text) = value.as_number() else {
        return Ok(one(alloc, FaultKind::WrongKind)?);
    };
    match coordinate_of(grid, greatest, text) {
        Some(_) => Ok(Vec::new(alloc)),
        None => { Ok(one(alloc, FaultKind::OutOfRange)?) }
    }
}

// The fault of a number behind the second of a position.
fn judge_height(alloc: Global, value: &Value<'_>) -> Result<Vec<Fault>, OutOfMemory>
    ensures { IfOk result (λ fs. pairs_of fs.items ≡ height_faults (value_view value.now)) }
{
    match value.as_number() {
        Some(_) => Ok(Vec::new(alloc)),
        None => { Ok(one(alloc, FaultKind::WrongKind)?) }
    }
}

/// The faults of the numbers behind the second of a position.
///
/// # Errors
/// Where memory is refused.
pub fn judge_heights(alloc: Global, values: &[Value<'_>]) -> Result<Vec<Fault>, OutOfMemory>
    ensures { IfOk result (λ fs. pairs_of fs.items ≡ each_faults height_faults 2 (items_view (drop 2 values.now))) }
{
    let mut found = Vec::new(alloc);
    for i in 2..values.len() {
        let height = judge_height(alloc, &values[i])?;
        put_under_index(&mut found, height, i)?;
    }
    Ok(found)
}

// The faults of the first two numbers of a position.
fn judge_both(
    alloc: Global,
    grid: &DecimalGrid,
    values: &[Value<'_>],
) -> Result<Vec<Fault>, OutOfMemory>
    requires { 2 ≤ length values.now }
    ensures { IfOk result (λ fs. pairs_of fs.items ≡ both_faults grid.now (items_view values.now)) }
{
    let x = judge_coordinate(alloc, grid, grid.greatest_x, &values[0])?;
    let y = judge_coordinate(alloc, grid, grid.greatest_y, &values[1])?;
    let mut found = Vec::new(alloc);
    put_under_index(&mut found, x, 0)?;
    put_under_index(&mut found, y, 1)?;
    Ok(found)
}

/// Whether a position may have so many numbers.
pub fn has_numbers(grid: &DecimalGrid, values: &[Value<'_>]) -> bool
    ensures told { result ≡ may_have grid.now (items_view values.now) }
    ensures two { IsTrue result → 2 ≤ length values.now }
{
    values.len() == 2 || (values.len() > 2 && !grid.refuses_heights)
}

// The faults of the numbers of a position.
fn judge_numbers(
    alloc: Global,
    grid: &DecimalGrid,
    values: &[Value<'_>],
) -> Result<Vec<Fault>, OutOfMemory>
    ensures { IfOk result (λ fs. pairs_of fs.items ≡ numbers_faults grid.now (items_view values.now)) }
{
    if !has_numbers(grid, values) {
        return Ok(one(alloc, FaultKind::NotTwo)?);
    }
    let both = judge_both(alloc, grid, values)?;
    let heights = judge_heights(alloc, values)?;
    let found = join(both, heights)?;
    Ok(found)
}

// Counts the numbers behind the second.
#[tactic(auto, using(crate::proofs::Heights::counted_none, crate::proofs::Heights::counted_all, crate::proofs::Heights::counted_not))]
fn count_heights(grid: &DecimalGrid, values: &[Value<'_>], tally: &mut Tally) -> Result<(), Stop>
    requires { IsTrue (may_have grid.now (items_view values.now)) }
    ensures made { OnOk result (AreHeights grid.now (items_view (drop 2 values.now)) tally.old tally.new) }
    ensures refused { result ≡ Err Stop.Unread → each_faults height_faults 2 (items_view (drop 2 values.now)) ≢ [] }
{
    for i in 2..values.len() {
        match values[i].as_number() {
            Some(_) => tally.add_height(),
            None => return Err(Stop::Unread),
        }
    }
    Ok(())
}

// The position nearest to the first two numbers, which is counted with its heights.
fn make_position(grid: &DecimalGrid, values: &[Value<'_>], tally: &mut Tally) -> Result<Pos, Stop>
    ensures made { IfOk result (λ p. AreCoordinates grid.now (items_view values.now) p tally.old tally.new) }
    ensures refused { result ≡ Err Stop.Unread → numbers_faults grid.now (items_view values.now) ≢ [] }
{
    let _size = grid.step.size();
    if !has_numbers(grid, values) {
        return Err(Stop::Unread);
    }
    let Some(x) = values[0].as_number() else {
        return Err(Stop::Unread);
    };
    let Some(y) = values[1].as_number() else {
        return Err(Stop::Unread);
    };
    let position = position_of(grid, x, y, tally)?;
    count_heights(grid, values, tally)?;
    Ok(position)
}

impl Part for DecimalGrid {
    type Made = Pos;

    type Count = Tally;

    ghost faults = { λ grid fixing. position_faults grid };

    ghost means = { λ grid. IsPosition grid };

    fn judge(
        &self,
        alloc: Global,
        _fixing: &FixingRules,
        value: &Value<'_>,
    ) -> Result<Vec<Fault>, OutOfMemory> {
        match items_of(value) {
            Some(items) => judge_numbers(alloc, self, items),
            None => { Ok(one(alloc, FaultKind::WrongKind)?) }
        }
    }

    fn make(&self, _alloc: Global, value: &Value<'_>, count: &mut Tally) -> Result<Pos, Stop> {
        match items_of(value) {
            Some(items) => make_position(self, items, count),
            None => Err(Stop::Unread),
        }
    }
}
