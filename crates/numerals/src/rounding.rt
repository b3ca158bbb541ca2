//! Numerals to whole numbers of steps.
ghost use Rattle.fast_float.specs.Text.{digits_of, scan, tens_up, tens_down, with_sign};
ghost use Rattle.grid.specs.Place.{IsGridNumber};
ghost use Rattle.numerals.specs.Distance.{AreTenThousandths, away, distance_of, rounded_up};
ghost use Rattle.numerals.specs.Nearest.{IsNearest, IsRounded};
ghost use Rattle.numerals.specs.Numeral.{IsMeasure, IsNumeral, IsSnapped, IsUnsigned, unsigned_text};
ghost use Rattle.std.specs.Prelude.{◌≡◌, ◌↔◌, ℕ, ℤ, ◌+◌, ◌*◌, ◌^◌, ◌<◌, ◌≤◌, IfSome, IsSome, Some};
ghost use Rattle.std.specs.Str.Parse.{starts_with_minus};

use crate::digits::{floor_at, is_nothing_behind};
use crate::fraction::FAR;
use crate::short::read_short;
use crate::step::DecimalStep;
use fast_float::Numeral;
use grid::limits::GREATEST_GRID_NUMBER;

/// Whether a minus is in front, and the text without it.
pub(crate) fn without_sign(text: &[u8]) -> (bool, &[u8])
    ensures sign { result.0 ≡ starts_with_minus text.now }
    ensures rest { result.1.now ≡ unsigned_text text.now }
{
    match text {
        [b'-', rest @ ..] => (true, rest),
        _ => (false, text),
    }
}

fn with_sign(negative: bool, steps: u64) -> i64
    requires { steps ≤ 2 ^ 40 }
    ensures { result ≡ with_sign negative steps }
{
    let steps = steps as i64;
    if negative { -steps } else { steps }
}

// A numeral with no sign in ten-thousandths of a step, rounded down, and whether it is just that.
fn all_ten_thousandths(numeral: &Numeral<'_>, step: &DecimalStep) -> (u64, bool)
    ensures limits { IsMeasure step.now }
    ensures given { AreTenThousandths (digits_of numeral.now * 10 ^ (tens_up numeral.now + step.now.places)) (step.now.size * 10 ^ tens_down numeral.now) result.0 result.1 }
{
    let places = u64::from(step.places()) + 4;
    let (size, parts) = (step.size(), floor_at(numeral, places));
    let is_exact = is_nothing_behind(numeral, places);
    (
        (parts / size).min(FAR) as u64,
        is_exact && parts % size == 0,
    )
}

// A text with no sign in ten-thousandths of a step, as above. None where it is no numeral.
fn ten_thousandths(unsigned: &[u8], step: &DecimalStep) -> Option<(u64, bool)>
    ensures limits { IsSome result → IsMeasure step.now }
    ensures exact { IsSome result ↔ IsUnsigned unsigned.now }
    ensures given { IfSome result (λ r. AreTenThousandths (digits_of (scan unsigned.now) * 10 ^ (tens_up (scan unsigned.now) + step.now.places))
        (step.now.size * 10 ^ tens_down (scan unsigned.now)) r.0 r.1) }
{
    if let Some(short) = read_short(unsigned) {
        return Some(short.ten_thousandths(step));
    }
    let numeral = Numeral::scan(unsigned);
    if !numeral.has_digits() || numeral.len() < unsigned.len() {
        return None;
    }
    Some(all_ten_thousandths(&numeral, step))
}

// How many ten-thousandths, rounded up, a number of so many is from the nearest whole one.
fn from_nearest(parts: u64, is_exact: bool) -> u64
    requires { parts < 10 ^ 17 }
    ensures { (n d : ℕ) → 0 < d → AreTenThousandths n d parts is_exact → result ≡ rounded_up (10000 * away n d) d }
{
    let before = parts % 10_000;
    let after = if is_exact { before } else { before + 1 };
    after.min(10_000 - before)
}

/// The grid number nearest to a number of which the size is so many ten-thousandths, and how far the number is from
/// it. None where it is no grid number.
pub(crate) fn nearest_with_distance(
    negative: bool,
    parts: u64,
    is_exact: bool,
) -> Option<(i64, u64)>
    requires { parts ≤ 10 ^ 17 }
    ensures { (n d : ℕ) → 0 < d → AreTenThousandths n d parts is_exact
        → (p : ℤ) (x : ℕ) → (result ≡ Some (p, x)) ↔ (IsNearest (with_sign negative n) d p × IsGridNumber p × (x ≡ rounded_up (10000 * away n d) d)) }
{
    let steps = (parts + 5000) / 10_000;
    if steps > GREATEST_GRID_NUMBER as u64 {
        return None;
    }
    Some((with_sign(negative, steps), from_nearest(parts, is_exact)))
}

/// The whole number of steps that is nearest to a decimal numeral, as 30 for `7.48` at the step 0.25, and how far the
/// numeral is from it, in ten-thousandths of a step, rounded up: 800. Of two that are equally near it is the one
/// farther from 0. None where the text is no numeral or the number is no grid number.
pub fn snap_measured(text: &[u8], step: &DecimalStep) -> Option<(i64, u64)>
    ensures { (p : ℤ) (d : ℕ) → (result ≡ Some (p, d))
        ↔ (IsNumeral text.now × IsSnapped step.now text.now p × IsGridNumber p × (d ≡ distance_of step.now text.now)) }
{
    let (negative, unsigned) = without_sign(text);
    let (parts, is_exact) = ten_thousandths(unsigned, step)?;
    nearest_with_distance(negative, parts, is_exact)
}

// How many steps are nearest to a text with no sign, where it is a short numeral and machine words hold its fraction.
fn nearest_short(unsigned: &[u8], step: &DecimalStep) -> Option<u64>
    ensures limits { IsSome result → IsMeasure step.now }
    ensures unsigned { IsSome result → IsUnsigned unsigned.now }
    ensures given { IfSome result (λ q. IsRounded (digits_of (scan unsigned.now) * 10 ^ (tens_up (scan unsigned.now) + step.now.places))
        (step.now.size * 10 ^ tens_down (scan unsigned.now)) q) }
{
    read_short(unsigned)?.nearest(step)
}

/// The whole number of steps that is nearest to a decimal numeral, as 30 for `7.413` at the step 0.25; of two
/// that are equally near the one farther from 0. None where the text is no numeral or the number is no
/// grid number.
pub fn snap(text: &[u8], step: &DecimalStep) -> Option<i64>
    ensures { (p : ℤ) → (result ≡ Some p) ↔ (IsNumeral text.now × IsSnapped step.now text.now p × IsGridNumber p) }
{
    let (negative, unsigned) = without_sign(text);
    if let Some(steps) = nearest_short(unsigned, step) {
        if steps > GREATEST_GRID_NUMBER as u64 {
            return None;
        }
        return Some(with_sign(negative, steps));
    }
    match snap_measured(text, step) {
        Some((steps, _)) => Some(steps),
        None => None,
    }
}
