//! The transform of a bounding box, so many numbers along each side.
ghost use Rattle.decimals.specs.Topology.BoxTransform as spec;
ghost use Rattle.decimals.specs.Topology.BoxTransform.{IsBoxAxis, box_axis, box_scale, box_scale_text, corners_or_zero};
ghost use Rattle.decimals.specs.Topology.Unit.{absolute_text};
ghost use Rattle.decimals.specs.declared.topology.fault.DecimalFault.TheVariants.{TooManyDigits};
ghost use Rattle.std.specs.Prelude.{◌≡◌, ◌*◌, ◌^◌, ◌≤◌, Err, IfOk, OnOk, string_bytes, unsigned_abs, ◌<◌};

use crate::topology::fault::DecimalFault;
use crate::topology::pairs::number_text;
use crate::topology::quantized_axis::{QuantizedAxis, worth};
use numerals::{Decimal, DecimalStep};
use std::alloc::Global;

/// How many places a scale has more than the unit.
const MORE_PLACES: u32 = 12;

/// How much of a scale a 1 of the unit's last place is, 10^12.
const PARTS: u128 = 1_000_000_000_000;

/// From which size and which count of places on a unit has too many digits, 10^6 and 18.
const GREATEST_SIZE: u128 = 1_000_000;

const MOST_PLACES: u32 = 18;

/// The corners of a bounding box, zeros where there is none.
pub(crate) fn corners_of(bbox: Option<(i64, i64, i64, i64)>) -> (i64, i64, i64, i64)
    ensures { result ≡ corners_or_zero bbox }
{
    match bbox {
        Some(corners) => corners,
        None => (0, 0, 0, 0),
    }
}

/// One axis of the transform of a bounding box, and its two numerals.
#[derive(Drop)]
pub(crate) struct BoxAxis {
    pub(crate) axis: QuantizedAxis,
    pub(crate) scale: String,
    pub(crate) translate: String,
}

// What an absolute 1 is worth, with `MORE_PLACES` places more.
fn parts_of(unit: &DecimalStep) -> u64
    requires { unit.now.size ≤ 10 ^ 6 }
    ensures value { result ≡ spec.parts_of unit.now }
    ensures bound { result ≤ 10 ^ 18 }
{
    (unit.size() * PARTS) as u64
}

// The scale from one absolute number to another in so many steps.
fn scale_of(unit: &DecimalStep, steps: u64, low: i64, high: i64) -> i128
    requires size { unit.now.size ≤ 10 ^ 6 }
    requires places { unit.now.places ≤ 18 }
    requires some { 1 ≤ steps }
    ensures value { result ≡ box_scale unit.now steps low high }
    ensures bound { unsigned_abs result < 10 ^ 38 }
{
    if low == high {
        return 10i128.pow(unit.places() + MORE_PLACES);
    }
    let span = (i128::from(high) - i128::from(low)).unsigned_abs() * (unit.size() * PARTS);
    ((span + u128::from(steps - 1)) / u128::from(steps)) as i128
}

/// The axis from one absolute number to another in so many steps.
pub(crate) fn box_axis(
    alloc: Global,
    unit: &DecimalStep,
    steps: u64,
    low: i64,
    high: i64,
) -> Result<BoxAxis, DecimalFault>
    requires { 1 ≤ steps }
    ensures axis { IfOk result (λ b. b.axis ≡ spec.box_axis unit.now steps low high) }
    ensures scale { IfOk result (λ b. string_bytes b.scale ≡ box_scale_text unit.now steps low high) }
    ensures translate { IfOk result (λ b. string_bytes b.translate ≡ absolute_text unit.now low) }
    ensures within { OnOk result (IsBoxAxis unit.now steps low high) }
    ensures refused { result ≡ Err DecimalFault.TooManyDigits → ¬ (IsBoxAxis unit.now steps low high) }
{
    if unit.size() > GREATEST_SIZE || unit.places() > MOST_PLACES {
        return Err(DecimalFault::TooManyDigits);
    }
    let (scale, parts) = (scale_of(unit, steps, low, high), parts_of(unit));
    let Some(axis) = QuantizedAxis::new(u128::from(parts), scale, worth(low, parts)) else {
        return Err(DecimalFault::TooManyDigits);
    };
    let Some(number) = Decimal::new(scale, unit.places() + MORE_PLACES) else {
        return Err(DecimalFault::TooManyDigits);
    };
    let scale = number.to_text(alloc)?;
    let translate = number_text(alloc, unit, low)?;
    Ok(BoxAxis {
        axis,
        scale,
        translate,
    })
}
