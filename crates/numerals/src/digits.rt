//! Whole numbers of decimal digits, up to a cap.
ghost use Rattle.fast_float.specs.Text.{digits_of, tens_up, tens_down};
ghost use Rattle.numerals.specs.Floor as spec;
ghost use Rattle.numerals.specs.Floor.{IsKept, first_digits, floor_of};
ghost use Rattle.std.specs.Prelude.{◌≡◌, ◌↔◌, IsTrue, drop, ◌≤◌, ◌*◌, ◌^◌, ◌++◌, min};
ghost use Rattle.std.specs.Str.Parse.{digits_value, digits_value_after, AllDigits};

use fast_float::Numeral;

/// What greater numbers are read as, 10^30.
pub(crate) const CAP: u128 = 1_000_000_000_000_000_000_000_000_000_000;

// From where on a machine word may not hold one more digit, 10^17.
const FULL: u64 = 100_000_000_000_000_000;

// The number of the first digits behind those of `value`, as many as a machine word holds, and the digits left.
fn in_word(value: u64, digits: &[u8]) -> (u64, &[u8])
    requires { AllDigits 10 digits.now }
    ensures value { digits_value_after 10 result.0 result.1.now ≡ digits_value_after 10 value digits.now }
    ensures digits { AllDigits 10 result.1.now }
{
    let mut number = value;
    let mut left = digits;
    while let Some((digit, behind)) = left.split_first() {
        if number >= FULL {
            return (number, left);
        }
        number = number * 10 + u64::from(*digit - b'0');
        left = behind;
    }
    (number, left)
}

// The number that digits write behind a value. Where a machine word may be too small for it, all digits are left.
fn in_words(value: u128, digits: &[u8]) -> (u128, &[u8])
    requires value { value ≤ CAP }
    requires digits { AllDigits 10 digits.now }
    ensures value { digits_value_after 10 result.0 result.1.now ≡ digits_value_after 10 value digits.now }
    ensures digits { AllDigits 10 result.1.now }
    ensures within { result.0 ≤ CAP }
{
    if value >= u128::from(FULL) {
        return (value, digits);
    }
    let (number, left) = in_word(value as u64, digits);
    (u128::from(number), left)
}

// The number that the digits write behind those of `value`, or `CAP` where that is less.
fn capped_behind(value: u128, digits: &[u8]) -> u128
    requires value { value ≤ CAP }
    requires digits { AllDigits 10 digits.now }
    ensures { result ≡ min (digits_value_after 10 value digits.now) CAP }
{
    let mut capped = value;
    for digit in digits {
        capped = (capped * 10 + u128::from(*digit - b'0')).min(CAP);
    }
    capped
}

// `capped_behind`, with as many digits as a machine word holds read first.
fn capped_number(value: u128, digits: &[u8]) -> u128
    requires value { value ≤ CAP }
    requires digits { AllDigits 10 digits.now }
    ensures { result ≡ min (digits_value_after 10 value digits.now) CAP }
{
    let (number, left) = in_words(value, digits);
    capped_behind(number, left)
}

/// The value with so many zeros behind it, or `CAP` where that is less.
pub(crate) fn with_zeros(value: u128, zeros: u128) -> u128
    requires { value ≤ CAP }
    ensures { result ≡ min (value * 10 ^ zeros) CAP }
{
    match zeros {
        0 => value,
        1 => (value * 10).min(CAP),
        _ => with_many_zeros(value, zeros),
    }
}

// `with_zeros` by a power of ten.
fn with_many_zeros(value: u128, zeros: u128) -> u128
    requires { value ≤ CAP }
    ensures { result ≡ min (value * 10 ^ zeros) CAP }
{
    value
        .saturating_mul(10u128.pow(zeros.min(30) as u32))
        .min(CAP)
}

// The first so many of the digits, with zeros where there are fewer, or `CAP` where that is less.
fn first(whole: &[u8], fraction: &[u8], kept: u128) -> u128
    requires whole { AllDigits 10 whole.now }
    requires fraction { AllDigits 10 fraction.now }
    ensures { result ≡ min (first_digits (whole.now ++ fraction.now) kept) CAP }
{
    let of_whole = kept.min(whole.len() as u128);
    let of_fraction = (kept - of_whole).min(fraction.len() as u128);
    let value = capped_number(0, &whole[..of_whole as usize]);
    let value = capped_number(value, &fraction[..of_fraction as usize]);
    with_zeros(value, kept - of_whole - of_fraction)
}

// How many digits stand before the point, once it is moved by the exponent and so many places.
fn kept_of(numeral: &Numeral<'_>, places: u64) -> u128
    ensures { IsKept places numeral.now result }
{
    let (whole, fraction) = (numeral.whole(), numeral.fraction());
    let exponent = capped_number(0, numeral.exponent());
    let all = (whole.len() as u128 + fraction.len() as u128) + u128::from(places);
    if numeral.is_exponent_negative() {
        all.saturating_sub(fraction.len() as u128 + exponent)
    } else {
        all + exponent - fraction.len() as u128
    }
}

/// The numeral over 10^-places, rounded down, or `CAP` where that is less.
pub(crate) fn floor_at(numeral: &Numeral<'_>, places: u64) -> u128
    ensures value { result ≡ min (floor_of places numeral.now) CAP }
    ensures digits { AllDigits 10 (numeral.now.whole ++ numeral.now.fraction) }
{
    first(
        numeral.whole(),
        numeral.fraction(),
        kept_of(numeral, places),
    )
}

/// All digits as one number, with the zeros of a positive exponent, or `CAP` where that is less.
pub(crate) fn size_of(numeral: &Numeral<'_>) -> u128
    ensures { result ≡ min (digits_of numeral.now * 10 ^ tens_up numeral.now) CAP }
{
    let value = capped_number(capped_number(0, numeral.whole()), numeral.fraction());
    if numeral.is_exponent_negative() {
        return value;
    }
    with_zeros(value, capped_number(0, numeral.exponent()))
}

/// How many places the digits are behind the point, with those of a negative exponent, or `CAP` where
/// that is less.
pub(crate) fn places_of(numeral: &Numeral<'_>) -> u128
    ensures { result ≡ min (tens_down numeral.now) CAP }
{
    let digits = numeral.fraction().len() as u128;
    if !numeral.is_exponent_negative() {
        return digits;
    }
    (digits + capped_number(0, numeral.exponent())).min(CAP)
}

// Whether all digits are zeros.
fn is_nothing(digits: &[u8]) -> bool
    requires { AllDigits 10 digits.now }
    ensures { IsTrue result ↔ (digits_value 10 digits.now ≡ 0) }
{
    for digit in digits {
        if *digit != b'0' {
            return false;
        }
    }
    true
}

/// Whether no digit but zeros is behind those of which `floor_at` makes its result.
pub(crate) fn is_nothing_behind(numeral: &Numeral<'_>, places: u64) -> bool
    ensures { IsTrue result ↔ (digits_value 10 (drop (spec.kept_of places numeral.now) (numeral.now.whole ++ numeral.now.fraction)) ≡ 0) }
{
    let (whole, fraction) = (numeral.whole(), numeral.fraction());
    let kept = kept_of(numeral, places);
    let of_whole = kept.min(whole.len() as u128);
    let of_fraction = (kept - of_whole).min(fraction.len() as u128);
    is_nothing(&whole[of_whole as usize..]) && is_nothing(&fraction[of_fraction as usize..])
}
