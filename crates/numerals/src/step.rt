//! The step of a grid.
ghost use Rattle.fast_float.specs.Text.{scan, tens_down};
ghost use Rattle.numerals.specs.Numeral.{IsMeasure, IsOver, IsUnsigned, measure, measure_of};
ghost use Rattle.std.specs.Prelude.{◌≡◌, ◌↔◌, ℕ, ◌<◌, ◌^◌, IsSome, IfSome, Some};

use crate::digits::{places_of, size_of};
use crate::fraction::times_power;
use fast_float::Numeral;
use std::marker::Model;

/// The greatest size of a step, 10^12.
pub const GREATEST_SIZE: u64 = 1_000_000_000_000;

/// How many units a step is at most, 10^6.
const MOST_UNITS: u128 = 1_000_000;

/// The step of a grid: `size` over the power of ten `10^places`, as 25 and 2 for 0.25. Sizes are from 1 to
/// `GREATEST_SIZE`.
#[derive(Clone, Copy, PartialEq, Eq, Debug)]
pub struct DecimalStep {
    size: u64,
    places: u32,
}

impl Model for DecimalStep {
    ghost use Rattle.numerals.specs.Numeral.{Measure, IsMeasure, measure};

    ghost Value = { Measure };

    ghost view = { λ s. measure s.size s.places };

    ghost invariant = { λ s. IsMeasure (measure s.size s.places) };

    ghost inverse = { λ m. record { size = m.size; places = m.places } };
}

impl DecimalStep {
    /// The step, or None where the size is outside its limits.
    pub fn new(size: u64, places: u32) -> Option<DecimalStep>
        ensures given { IfSome result (λ s. s ≡ measure size places) }
        ensures exact { IsSome result ↔ IsMeasure (measure size places) }
    {
        if size < 1 || size > GREATEST_SIZE {
            return None;
        }
        Some(DecimalStep { size, places })
    }

    /// The step that a numeral with no sign writes, as 0.25 or 1e-6, or None where the text is none or the size
    /// is outside its limits, digits as they are written: 0.250 has the size 250.
    pub fn parse(text: &[u8]) -> Option<DecimalStep>
        ensures given { IfSome result (λ s. s ≡ measure_of text.now) }
        ensures exact { IsSome result ↔ (IsUnsigned text.now × IsMeasure (measure_of text.now) × (tens_down (scan text.now) < 2 ^ 32)) }
    {
        let numeral = Numeral::scan(text);
        if !numeral.has_digits() || numeral.len() < text.len() {
            return None;
        }
        let (size, places) = (size_of(&numeral), places_of(&numeral));
        if size > GREATEST_SIZE as u128 || places > u32::MAX as u128 {
            return None;
        }
        DecimalStep::new(size as u64, places as u32)
    }

    /// How many units the step is, where that is a whole number from 1 to 1,000,000.
    pub fn over(&self, unit: &DecimalStep) -> Option<u64>
        ensures { (k : ℕ) → (result ≡ Some k) ↔ IsOver self.now unit.now k }
    {
        let (places, unit_places) = (u64::from(self.places()), u64::from(unit.places()));
        let all = times_power(self.size(), unit_places.saturating_sub(places));
        let each = times_power(unit.size(), places.saturating_sub(unit_places));
        let count = all / each;
        if count < 1 || count > MOST_UNITS || count * each != all {
            return None;
        }
        Some(count as u64)
    }

    /// The step times the power of ten of its places.
    pub fn size(&self) -> u128
        ensures value { result ≡ self.now.size }
        ensures limits { IsMeasure self.now }
    {
        u128::from(self.size)
    }

    /// How many places the step has.
    pub fn places(&self) -> u32
        ensures { result ≡ self.now.places }
    {
        self.places
    }
}
