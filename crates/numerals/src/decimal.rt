//! Decimal numbers that are printed.
ghost use Rattle.numerals.specs.Amount.{amount, amount_text, over_power, pointed, shortest, steps_amount};
ghost use Rattle.std.specs.Option.{SomeIff};
ghost use Rattle.std.specs.Prelude.{◌≡◌, ◌+◌, ◌≤◌, ◌++◌, IfOk, OnOk, codes, drop, length, replicate, take, string_bytes};
ghost use Rattle.std.specs.Str.{IsAscii};

use crate::step::DecimalStep;
use itoa::Buffer;
use std::alloc::{AllocError, Global};
use std::marker::Model;

/// How many digits a decimal number may have behind its point.
pub const GREATEST_PLACES: u32 = 30;

/// A decimal number: `value` over the power of ten `10^places`, as -25 and 1 for -2.5.
#[derive(Clone, Copy, PartialEq, Eq, Debug)]
pub struct Decimal {
    value: i128,
    places: u32,
}

impl Model for Decimal {
    ghost use Rattle.numerals.specs.Amount.{Amount, IsAmount, amount};

    ghost Value = { Amount };

    ghost view = { λ d. amount d.value d.places };

    ghost invariant = { λ d. IsAmount (amount d.value d.places) };

    ghost inverse = { λ a. record { value = a.value; places = a.places } };
}

impl Decimal {
    /// So much over a power of ten, or None where that has more than `GREATEST_PLACES` places.
    pub fn new(value: i128, places: u32) -> Option<Decimal>
        ensures { SomeIff result (places ≤ 30) (amount value places) }
    {
        if places > GREATEST_PLACES {
            return None;
        }
        Some(Decimal { value, places })
    }

    /// So many steps, or None where the step has more than `GREATEST_PLACES` places.
    pub fn of_steps(steps: i64, step: &DecimalStep) -> Option<Decimal>
        ensures { SomeIff result (step.now.places ≤ 30) (steps_amount step.now steps) }
    {
        let size = step.size() as i128;
        let value = i128::from(steps) * size;
        Decimal::new(value, step.places())
    }

    /// The number over a power of ten, or None where it then has more than `GREATEST_PLACES` places.
    pub fn over_power(self, places: u32) -> Option<Decimal>
        ensures { SomeIff result (self.places + places ≤ 30) (over_power places self) }
    {
        Decimal::new(self.value, self.places.checked_add(places)?)
    }

    /// The number as JSON has it, with no exponent and no zeros at the end of its fraction: `-2.5`.
    pub fn to_text(self, alloc: Global) -> Result<String, AllocError>
        ensures { IfOk result (λ t. string_bytes t ≡ amount_text self) }
    {
        let (size, places) = without_zeros(self.value.unsigned_abs(), self.places);
        let mut buffer = Buffer::new();
        let digits = buffer.format(size);
        let sign = if self.value < 0 { "-" } else { "" };
        let mut text = String::from_str(alloc, sign)?;
        push_digits(&mut text, digits, places as usize)?;
        Ok(text)
    }
}

// A size over 10^places without the zeros at the end of its fraction.
fn without_zeros(size: u128, places: u32) -> (u128, u32)
    ensures size { result.0 ≡ (shortest places size).size }
    ensures places { result.1 ≡ (shortest places size).places }
{
    let (mut size, mut places) = (size, places);
    while places > 0 && size % 10 == 0 {
        size /= 10;
        places -= 1;
    }
    (size, places)
}

// Digits with a point before the last so many.
fn push_digits(text: &mut String, digits: &str, places: usize) -> Result<(), AllocError>
    requires { IsAscii digits.now }
    ensures { OnOk result (string_bytes text.new ≡ string_bytes text.old ++ pointed digits.now places) }
{
    if places == 0 {
        return text.push_str(digits);
    }
    if places < digits.len() {
        return push_split(text, digits, digits.len() - places);
    }
    text.push_str("0.")?;
    push_zeros(text, places - digits.len())?;
    text.push_str(digits)
}

// Digits with a point behind the first so many.
fn push_split(text: &mut String, digits: &str, whole: usize) -> Result<(), AllocError>
    requires ascii { IsAscii digits.now }
    requires within { whole ≤ length digits.now }
    ensures { OnOk result (string_bytes text.new ≡ string_bytes text.old ++ (take whole digits.now ++ (codes "." ++ drop whole digits.now))) }
{
    let (front, back) = digits.split_at(whole);
    text.push_str(front)?;
    text.push_str(".")?;
    text.push_str(back)
}

fn push_zeros(text: &mut String, zeros: usize) -> Result<(), AllocError>
    ensures { OnOk result (string_bytes text.new ≡ string_bytes text.old ++ replicate zeros 48) }
{
    for _ in 0..zeros {
        text.push_str("0")?;
    }
    Ok(())
}
