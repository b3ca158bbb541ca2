//! Absolute numbers on an axis of another transform, each as the nearest whole number.
ghost use Rattle.decimals.specs.Topology.DecimalTransform.{with_unit};
ghost use Rattle.decimals.specs.Topology.QuantizedAxis as spec;
ghost use Rattle.decimals.specs.Topology.QuantizedAxis.{IsQuantizedAxis, axis_parts, number_on};
ghost use Rattle.std.specs.Option.{SomeIff};
ghost use Rattle.std.specs.Prelude.{◌≡◌, pos, ◌*◌, ◌*ℤ◌, ◌^◌, ◌<◌, ◌≤◌, ◌-ℤ◌, min, unsigned_abs};

use numerals::{DecimalAxis, DecimalStep};
use std::marker::Model;

/// The greatest unit, 10^18.
const GREATEST_UNIT: u128 = 1_000_000_000_000_000_000;

/// From where on a scale or a translation is too great, 10^37.
const TOO_GREAT: u128 = 10_000_000_000_000_000_000_000_000_000_000_000_000;

/// An axis of a transform, and what an absolute 1 is worth. All three are over one power of ten.
#[derive(Clone, Copy, PartialEq, Eq, Debug)]
pub struct QuantizedAxis {
    unit: u64,
    scale: i128,
    translate: i128,
}

impl Model for QuantizedAxis {
    ghost use Rattle.decimals.specs.Topology.QuantizedAxis.{AxisParts, IsQuantizedAxis, axis_parts};

    ghost Value = { AxisParts };

    ghost view = { λ a. axis_parts a.unit a.scale a.translate };

    ghost invariant = { λ a. IsQuantizedAxis (axis_parts a.unit a.scale a.translate) };

    ghost inverse = { λ p. record { unit = p.unit; scale = p.scale; translate = p.translate } };
}

// A number over a size, rounded to the nearest whole number, from half on away from 0.
fn round_quotient(n: i128, d: u128) -> i128
    requires some { 1 ≤ d }
    requires few { d < 10 ^ 37 }
    requires within { unsigned_abs n < 2 * 10 ^ 37 }
    ensures value { result ≡ spec.rounded n d }
    ensures bound { unsigned_abs result < 5 * 10 ^ 37 }
{
    let size = ((2 * n.unsigned_abs() + d) / (2 * d)) as i128;
    if n < 0 { -size } else { size }
}

// A number over a size that may be below 0, rounded likewise.
fn nearest(n: i128, d: i128) -> i128
    requires some { 1 ≤ unsigned_abs d }
    requires few { unsigned_abs d < 10 ^ 37 }
    requires within { unsigned_abs n < 2 * 10 ^ 37 }
    ensures value { result ≡ spec.nearest n d }
    ensures bound { unsigned_abs result < 5 * 10 ^ 37 }
{
    if d < 0 {
        round_quotient(-n, d.unsigned_abs())
    } else {
        round_quotient(n, d.unsigned_abs())
    }
}

/// An absolute number times what an absolute 1 is worth.
#[tactic(none)]
pub(crate) fn worth(absolute: i64, unit: u64) -> i128
    requires { unit ≤ 10 ^ 18 }
    ensures value { result ≡ (absolute *ℤ pos unit) }
    ensures bound { unsigned_abs result < 10 ^ 37 }
{
    i128::from(absolute) * i128::from(unit)
}

// A size with so many zeros behind it, or `TOO_GREAT` where that is less.
fn times_power(size: u128, zeros: u32) -> u128
    requires { size ≤ 10 ^ 37 }
    ensures { result ≡ min (size * 10 ^ zeros) (10 ^ 37) }
{
    size.saturating_mul(10u128.pow(zeros.min(37)))
        .min(TOO_GREAT)
}

// A number that may be below 0 with so many zeros behind it.
fn times_power_signed(value: i128, zeros: u32) -> i128
    requires { unsigned_abs value ≤ 10 ^ 37 }
    ensures size { unsigned_abs result ≡ min (unsigned_abs value * 10 ^ zeros) (10 ^ 37) }
    ensures value { unsigned_abs value * 10 ^ zeros < 10 ^ 37 → result ≡ (value *ℤ pos (10 ^ zeros)) }
{
    let size = times_power(value.unsigned_abs(), zeros) as i128;
    if value < 0 { -size } else { size }
}

impl QuantizedAxis {
    /// An axis in decimal numbers, and what an absolute 1 is worth, over the greater of their powers of ten. None where
    /// the scale is 0 or a number is outside its limits.
    pub fn with_unit(unit: &DecimalStep, axis: &DecimalAxis) -> Option<QuantizedAxis>
        ensures { SomeIff result (IsQuantizedAxis (with_unit unit.now axis.now)) (with_unit unit.now axis.now) }
    {
        let more = axis.places().saturating_sub(unit.places());
        let less = unit.places().saturating_sub(axis.places());
        QuantizedAxis::new(
            times_power(unit.size(), more),
            times_power_signed(axis.scale(), less),
            times_power_signed(axis.translate(), less),
        )
    }

    /// The axis, or None where the scale is 0 or a number is outside its limits.
    pub fn new(unit: u128, scale: i128, translate: i128) -> Option<QuantizedAxis>
        ensures { SomeIff result (IsQuantizedAxis (axis_parts unit scale translate)) (axis_parts unit scale translate) }
    {
        if unit > GREATEST_UNIT || scale == 0 {
            return None;
        }
        if scale.unsigned_abs() >= TOO_GREAT || translate.unsigned_abs() >= TOO_GREAT {
            return None;
        }
        Some(QuantizedAxis {
            unit: unit as u64,
            scale,
            translate,
        })
    }

    /// The whole number nearest to an absolute number times the unit, less the translation, over the scale. Of two that
    /// are equally near it is the one farther from 0.
    pub fn number(&self, absolute: i64) -> i128
        ensures value { result ≡ number_on self.now absolute }
        ensures bound { unsigned_abs result < 5 * 10 ^ 37 }
    {
        nearest(worth(absolute, self.unit) - self.translate, self.scale)
    }
}
