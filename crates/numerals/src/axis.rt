//! The axes of a topology's transform, in decimal numbers.
ghost use Rattle.grid.specs.Place.{IsGridNumber};
ghost use Rattle.numerals.specs.Axis as spec;
ghost use Rattle.numerals.specs.Axis.{IsAxis, IsFit, IsSnappedAt, axis_of, common_numerator, distance_at, value_at};
ghost use Rattle.numerals.specs.Numeral.{parts_of};
ghost use Rattle.std.specs.Option.{SomeIff};
ghost use Rattle.std.specs.Prelude.{◌≡◌, ◌↔◌, ℕ, ℤ, ◌-◌, ◌^◌, ◌<◌, min, IsTrue, Some};

use crate::digits::{places_of, size_of, with_zeros};
use crate::fraction::parts_of;
use crate::rounding::{nearest_with_distance, without_sign};
use crate::step::DecimalStep;
use fast_float::Numeral;
use std::marker::Model;

// From where on a number has more than 25 digits, 10^25.
const LONG: u128 = 10_000_000_000_000_000_000_000_000;

/// An axis: the number `n` of an arc's position is worth `(n * scale + translate) / 10^places`. Both numbers have at
/// most 25 digits.
#[derive(Clone, Copy, PartialEq, Eq, Debug)]
pub struct DecimalAxis {
    scale: i128,
    translate: i128,
    places: u32,
}

impl Model for DecimalAxis {
    ghost use Rattle.numerals.specs.Axis.{Axis, IsAxis};

    ghost Value = { Axis };

    ghost view = { λ a. record { scale = a.scale; translate = a.translate; places = a.places } };

    ghost invariant = { λ a. IsAxis (record { scale = a.scale; translate = a.translate; places = a.places }) };

    ghost inverse = { λ a. record { scale = a.scale; translate = a.translate; places = a.places } };
}

impl DecimalAxis {
    /// The axis of a scale and a translation, two numerals, over the power of ten that both have in common. None where
    /// one of them is not fit for that (`is_fit`).
    pub fn parse(scale: &[u8], translate: &[u8]) -> Option<DecimalAxis>
        ensures { SomeIff result (IsFit scale.now translate.now × IsFit translate.now scale.now) (axis_of scale.now translate.now) }
    {
        Some(DecimalAxis {
            scale: common(scale, translate)?,
            translate: common(translate, scale)?,
            places: few_places(scale).max(few_places(translate)),
        })
    }

    /// The scale times the power of ten of the axis' places.
    pub fn scale(&self) -> i128
        ensures value { result ≡ self.now.scale }
        ensures limits { IsAxis self.now }
    {
        self.scale
    }

    /// The translation times the power of ten of the axis' places.
    pub fn translate(&self) -> i128
        ensures { result ≡ self.now.translate }
    {
        self.translate
    }

    /// How many places both have.
    pub fn places(&self) -> u32
        ensures { result ≡ self.now.places }
    {
        self.places
    }

    /// The whole number of steps that is nearest to the value at a number of the axis, of two that are equally near the
    /// one farther from 0, and how far the value is from it, in ten-thousandths of a step, rounded up. None where that is
    /// no grid number.
    pub fn snap_measured(&self, number: i64, step: &DecimalStep) -> Option<(i64, u64)>
        requires { IsGridNumber number }
        ensures { (p : ℤ) (d : ℕ) → (result ≡ Some (p, d))
            ↔ (IsSnappedAt self.now step.now number p × IsGridNumber p × (d ≡ distance_at self.now step.now number)) }
    {
        let value = self.value(number);
        let (parts, is_exact) = parts_of(value.unsigned_abs(), u64::from(self.places), step);
        nearest_with_distance(value < 0, parts, is_exact)
    }

    // The value at a number of the axis, times the power of ten of its places.
    fn value(&self, number: i64) -> i128
        requires { IsGridNumber number }
        ensures given { result ≡ value_at self.now number }
        ensures limits { IsAxis self.now }
    {
        i128::from(number) * self.scale + self.translate
    }
}

// How many places a numeral has, or 2^32 - 1 where that is less.
fn few_places(text: &[u8]) -> u32
    ensures { result ≡ min (spec.places_of text.now) (2 ^ 32 - 1) }
{
    let (_, unsigned) = without_sign(text);
    places_of(&Numeral::scan(unsigned)).min(u32::MAX as u128) as u32
}

// A numeral's value times the power of ten that it and another have in common.
fn common(text: &[u8], other: &[u8]) -> Option<i128>
    ensures { SomeIff result (IsFit text.now other.now) (common_numerator text.now other.now) }
{
    let (negative, unsigned) = without_sign(text);
    let (_, beside) = without_sign(other);
    let numeral = Numeral::scan(unsigned);
    let places = places_of(&numeral);
    if !numeral.has_digits() || numeral.len() < unsigned.len() || places > u32::MAX as u128 {
        return None;
    }
    let more = places_of(&Numeral::scan(beside)).saturating_sub(places);
    let size = with_zeros(size_of(&numeral), more);
    if size >= LONG {
        return None;
    }
    Some(if negative {
        -(size as i128)
    } else {
        size as i128
    })
}

/// Whether a text is a numeral with fewer than 2^32 places, and of at most 25 digits over the power of ten that it and
/// another have in common.
pub fn is_fit(text: &[u8], other: &[u8]) -> bool
    ensures { IsTrue result ↔ IsFit text.now other.now }
{
    common(text, other).is_some()
}
