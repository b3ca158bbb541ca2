//! Short numerals, read and rounded by machine words.
ghost use Rattle.numerals.specs.Distance.{AreTenThousandths};
ghost use Rattle.numerals.specs.Numeral.{IsMeasure};
ghost use Rattle.numerals.specs.Nearest.{IsRounded};
ghost use Rattle.numerals.specs.Quotient.{IsSameFraction};
ghost use Rattle.numerals.specs.Short.{IsFront, IsShort};
ghost use Rattle.std.specs.Prelude.{◌≡◌, ◌*◌, ◌^◌, IfSome, IsSome};

use crate::fraction::{parts_of, round_fraction, word_parts, word_power};
use crate::step::DecimalStep;

/// From where on a machine word may not hold one more digit, 10^17.
const FULL: u64 = 100_000_000_000_000_000;

/// A numeral with no sign and no exponent, of so few digits that a machine word holds their number.
#[derive(Clone, Copy)]
pub(crate) struct Short {
    /// All digits as one number.
    digits: u64,
    /// How many of them are behind the point.
    places: usize,
}

// The number of the digits that a text begins with, behind those of `value`, as many as a machine word holds, and the
// rest of the text.
fn front(value: u64, text: &[u8]) -> (u64, &[u8])
    ensures { IsFront value text.now result.0 result.1.now }
{
    let mut number = value;
    let mut left = text;
    while let Some((byte, behind)) = left.split_first() {
        let digit = byte.wrapping_sub(b'0');
        if digit > 9 || number >= FULL {
            return (number, left);
        }
        number = number * 10 + u64::from(digit);
        left = behind;
    }
    (number, left)
}

/// The short numeral that a text is. None where it is none, and for some that begin with a point.
pub(crate) fn read_short(text: &[u8]) -> Option<Short>
    ensures { IfSome result (λ s. IsShort text.now s.digits s.places) }
{
    let (whole, left) = front(0, text);
    if left.len() >= text.len() {
        return None;
    }
    let Some((point, behind)) = left.split_first() else {
        return Some(Short {
            digits: whole,
            places: 0,
        });
    };
    if *point != b'.' {
        return None;
    }
    let (digits, rest) = front(whole, behind);
    if !rest.is_empty() {
        return None;
    }
    Some(Short {
        digits,
        places: behind.len(),
    })
}

impl Short {
    /// All digits as one number.
    pub(crate) fn digits(&self) -> u64
        ensures { result ≡ self.now.digits }
    {
        self.digits
    }

    /// How many of them are behind the point.
    pub(crate) fn places(&self) -> usize
        ensures { result ≡ self.now.places }
    {
        self.places
    }

    // A fraction of the same worth as it in steps, where machine words hold one.
    fn fraction(&self, step: &DecimalStep) -> Option<(u64, u64)>
        ensures limits { IsSome result → IsMeasure step.now }
        ensures given { IfSome result (λ f. IsSameFraction (self.now.digits * 10 ^ step.now.places) (step.now.size * 10 ^ self.now.places) f.0 f.1) }
    {
        let (size, places) = (step.size() as u64, step.places() as usize);
        if places <= self.places {
            let below = size.checked_mul(word_power(self.places - places)?)?;
            return Some((self.digits, below));
        }
        let above = self.digits.checked_mul(word_power(places - self.places)?)?;
        Some((above, size))
    }

    /// How many steps are nearest to it, of two that are equally near the more. None where machine words don't hold its
    /// fraction.
    pub(crate) fn nearest(&self, step: &DecimalStep) -> Option<u64>
        ensures limits { IsSome result → IsMeasure step.now }
        ensures given { IfSome result (λ q. IsRounded (self.now.digits * 10 ^ step.now.places) (step.now.size * 10 ^ self.now.places) q) }
    {
        let (above, below) = self.fraction(step)?;
        Some(round_fraction(above, below))
    }

    /// It in ten-thousandths of a step, rounded down, and whether it is just that.
    pub(crate) fn ten_thousandths(&self, step: &DecimalStep) -> (u64, bool)
        ensures limits { IsMeasure step.now }
        ensures given { AreTenThousandths (self.now.digits * 10 ^ step.now.places) (step.now.size * 10 ^ self.now.places) result.0 result.1 }
    {
        match self.few_ten_thousandths(step) {
            Some(parts) => parts,
            None => parts_of(u128::from(self.digits), self.places as u64, step),
        }
    }

    // `ten_thousandths` where machine words hold it.
    fn few_ten_thousandths(&self, step: &DecimalStep) -> Option<(u64, bool)>
        ensures limits { IsSome result → IsMeasure step.now }
        ensures given { IfSome result (λ r. AreTenThousandths (self.now.digits * 10 ^ step.now.places) (step.now.size * 10 ^ self.now.places) r.0 r.1) }
    {
        let (above, below) = self.fraction(step)?;
        word_parts(above, below)
    }
}
