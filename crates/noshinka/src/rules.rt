//! The rules that the options of a rounding stand for.
ghost use Rattle.noshinka.specs.RoundOptions.{AreRules, HaveUnits, IsUnits, are_options, decimal_grid, greatest_of, numeral_of, scale_of, scale_pair};
ghost use Rattle.noshinka.specs.Rounding.{AreNames, AreUnits, IsNamesRefusal, IsScaleRefusal};
ghost use Rattle.c_calls.specs.Why.{IsBadName};
ghost use Rattle.numerals.specs.Numeral.{measure_of};
ghost use Rattle.std.specs.Prelude.{◌≡◌, ◌≤◌, IfErr, IfNone, IfOk, IfSome, map, true};

use crate::round_options::{PropertyScale, RoundOptions, fixing_of, reals_of};
use attributes::{AttributeRules, Scale};
use c_calls::borrowed::name_of;
use c_calls::options::name_if;
use c_calls::refusal::CallRefusal;
use decimal_maps::{DecimalGrid, MapRules};
use grid::Grid;
use grid::limits::{GREATEST_ABSOLUTE_NUMBER, GREATEST_GRID_NUMBER};
use numerals::DecimalStep;
use rounded_maps::grid_of_units::grid_of_units;
use rounded_maps::{BuildRules, RoundingRules};
use std::alloc::Global;

/// The step of degrees, and the unit, where none is given.
const MILLIONTH: &[u8] = b"0.000001";

/// The numeral of a step or a unit.
pub(crate) fn numeral_of(text: &[u8]) -> &[u8]
    ensures { result.now ≡ numeral_of text.now }
{
    if text.is_empty() { MILLIONTH } else { text }
}

/// A step, how many units it is, and the grid of that scale.
#[derive(Clone, Copy)]
pub(crate) struct Units {
    step: DecimalStep,
    units: u64,
    grid: Grid,
}

/// A step in units, where both are numerals and the one is a whole number of the other.
pub(crate) fn units_of(step: &[u8], unit: &[u8]) -> Option<Units>
    ensures units { IfSome result (AreUnits step.now unit.now) }
    ensures none { IfNone result (¬ HaveUnits step.now unit.now) }
{
    let step = DecimalStep::parse(numeral_of(step))?;
    let unit = DecimalStep::parse(numeral_of(unit))?;
    let units = step.over(&unit)?;
    let grid = grid_of_units(units)?;
    Some(Units { step, units, grid })
}

/// How many steps a number may be from 0, where no step is given so many.
fn greatest_of(step: &[u8], degrees: u64, units: u64) -> u64
    requires { 1 ≤ units }
    ensures { result ≡ greatest_of step.now degrees units }
{
    let most = GREATEST_ABSOLUTE_NUMBER as u64 / units;
    if step.is_empty() {
        degrees.min(most)
    } else {
        (GREATEST_GRID_NUMBER as u64).min(most)
    }
}

/// How numbers are read.
fn grid_of(options: &RoundOptions<'_>, units: &Units) -> DecimalGrid
    requires units { IsUnits options.now.step.now options.now.unit.now units.now.units }
    requires step { units.now.step ≡ measure_of (numeral_of options.now.step.now) }
    ensures { result ≡ decimal_grid options.now units.now.units }
{
    DecimalGrid {
        step: units.step,
        greatest_x: greatest_of(options.step, 180_000_000, units.units),
        greatest_y: greatest_of(options.step, 90_000_000, units.units),
        refuses_heights: options.heights == 1,
        measures: options.report == 1,
    }
}

/// The scale of a property.
fn scale_named<'a>(scale: &PropertyScale<'a>) -> Result<Scale<'a>, CallRefusal>
    ensures scale { IfOk result (λ s. scale_pair s ≡ scale_of scale.now) }
    ensures bad { IfErr result (IsBadName 0 scale.now.property.now) }
{
    Ok(Scale {
        property: name_of(0, scale.property)?,
        places: scale.zeros,
    })
}

/// The scales of properties.
#[tactic(auto, using(crate::proofs::Roundings::scales_memory))]
pub(crate) fn scales_of<'a>(
    alloc: Global,
    scales: &[PropertyScale<'a>],
) -> Result<Vec<Scale<'a>>, CallRefusal>
    ensures scales { IfOk result (λ v. map scale_pair v.items ≡ map scale_of scales.now) }
    ensures bad { IfErr result (IsScaleRefusal scales.now) }
{
    let mut named = Vec::with_capacity(alloc, scales.len())?;
    for scale in scales {
        named.push(scale_named(scale)?)?;
    }
    Ok(named)
}

/// The names that options have.
#[derive(Drop)]
pub(crate) struct RuleNames<'a> {
    id: Option<&'a str>,
    layer: Option<&'a str>,
    scales: Vec<Scale<'a>>,
}

/// The names that options have, if they are UTF-8.
#[tactic(auto, using(crate::proofs::Roundings::names_id, crate::proofs::Roundings::names_layer, crate::proofs::Roundings::names_scales))]
pub(crate) fn names_of<'a>(
    alloc: Global,
    options: &RoundOptions<'a>,
) -> Result<RuleNames<'a>, CallRefusal>
    ensures names { IfOk result (AreNames options.now) }
    ensures bad { IfErr result (IsNamesRefusal options.now) }
{
    let id = name_if(options.ids == 1, options.id)?;
    let layer = name_if(options.scope == 1, options.layer)?;
    let scales = scales_of(alloc, options.scales)?;
    Ok(RuleNames { id, layer, scales })
}

/// The rules that options stand for.
pub(crate) fn rules_of<'r>(
    options: &RoundOptions<'_>,
    units: &Units,
    names: &'r RuleNames<'_>,
) -> BuildRules<'r>
    requires chosen { are_options options.now ≡ true }
    requires units { AreUnits options.now.step.now options.now.unit.now units.now }
    requires names { AreNames options.now names.now }
    ensures { AreRules options.now result }
{
    let attributes = AttributeRules {
        id: names.id,
        scales: names.scales.as_slice(),
        reals: reals_of(options.reals),
    };
    let rounding = RoundingRules {
        map: MapRules {
            grid: grid_of(options, units),
            attributes,
        },
        fixing: fixing_of(options),
        numbers: options.number == 1,
        layer: names.layer,
    };
    BuildRules {
        rounding,
        grid: units.grid,
        join_distance: options.snap,
        counts: options.report == 1,
    }
}
