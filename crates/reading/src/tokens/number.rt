//! The numbers that texts of numbers write.
ghost use Rattle.serde_json.specs.Find.{as_i64, of_integer};
ghost use Rattle.serde_json.specs.Read.{number_of, number_from, float_of};
ghost use Rattle.serde_json.specs.View.{number_view};
ghost use Rattle.std.specs.Prelude.{◌≡◌, ◌==◌, ◌<◌, ◌^◌, length, slice_index, drop, true, false, Some, IfSome, IsTrue, is_some, option_map, unsigned_abs};
ghost use Rattle.std.specs.Str.Parse.{AllDigits, digits_value};

use fast_float::Numeral;
use serde_json::Number;

#[inline(always)]
fn has_minus(bytes: &[u8]) -> bool
    ensures value { result ≡ (slice_index bytes.now 0 == 45) }
    ensures len { IsTrue result → 0 < length bytes.now }
{
    !bytes.is_empty() && bytes[0] == b'-'
}

#[inline(always)]
fn behind_first(bytes: &[u8]) -> &[u8]
    requires { 0 < length bytes.now }
    ensures { result.now ≡ drop 1 bytes.now }
{
    &bytes[1..]
}

// The number that one to 18 digits write, which needs no test for overflow.
#[inline(always)]
fn few_digits(bytes: &[u8]) -> Option<u64>
    ensures digits { IfSome result (λ _. AllDigits 10 bytes.now) }
    ensures some { IfSome result (λ _. 0 < length bytes.now) }
    ensures value { IfSome result (λ n. n ≡ digits_value 10 bytes.now) }
    ensures small { IfSome result (λ n. n < 10 ^ 18) }
{
    let count = bytes.len();
    if count == 0 || count > 18 {
        return None;
    }
    let mut n = 0u64;
    for i in 0..count {
        let digit = bytes[i].wrapping_sub(b'0');
        if digit > 9 {
            return None;
        }
        n = n * 10 + digit as u64;
    }
    Some(n)
}

/// The whole number that a number's text writes with at most 18 digits. It is none for all other
/// texts, and for `-0`, which `serde_json` reads as a float.
#[inline(always)]
pub fn whole(text: &str) -> Option<i64>
    ensures number { IfSome result (λ n. number_of text.now ≡ Some (of_integer n)) }
    ensures whole { IfSome result (λ n. as_i64 (of_integer n) ≡ Some n) }
    ensures small { IfSome result (λ n. unsigned_abs n < 10 ^ 18) }
{
    let bytes = text.as_bytes();
    if has_minus(bytes) {
        let size = few_digits(behind_first(bytes))?;
        if size == 0 {
            return None;
        }
        Some(-(size as i64))
    } else {
        let size = few_digits(bytes)?;
        Some(size as i64)
    }
}

fn parse_float(negative: bool, numeral: &Numeral<'_>) -> Option<Number>
    ensures { option_map number_view result ≡ float_of negative numeral.now }
{
    Number::from_f64(numeral.to_float::<f64>(negative))
}

fn parse_unsigned(numeral: &Numeral<'_>) -> Option<Number>
    ensures { option_map number_view result ≡ number_from false numeral.now }
{
    match numeral.to_u64() {
        Some(n) => Number::from_u128(n as u128),
        None => parse_float(false, numeral),
    }
}

fn parse_negative(numeral: &Numeral<'_>) -> Option<Number>
    ensures { option_map number_view result ≡ number_from true numeral.now }
{
    if let Some(n) = numeral.to_i64(true) {
        if n < 0 {
            return Number::from_i128(n as i128);
        }
    }
    parse_float(true, numeral)
}

/// The number that any number's text writes, as `serde_json` reads it: a whole number where it fits
/// 64 bits, and else the nearest float. It is none where it is too large for a float.
///
/// `read_number` gives the same, and is faster where the number has few digits.
#[inline(never)]
pub fn parse_number(text: &str) -> Option<Number>
    ensures { option_map number_view result ≡ number_of text.now }
{
    let bytes = text.as_bytes();
    if has_minus(bytes) {
        parse_negative(&Numeral::scan(behind_first(bytes)))
    } else {
        parse_unsigned(&Numeral::scan(bytes))
    }
}

/// The number that a number's text writes, or none where it is too large for a float.
#[inline(always)]
pub fn read_number(text: &str) -> Option<Number>
    ensures { option_map number_view result ≡ number_of text.now }
{
    match whole(text) {
        Some(n) => Number::from_i128(n as i128),
        None => parse_number(text),
    }
}

/// Whether `serde_json` reads a number's text: it refuses those that are too large for a float.
#[inline(always)]
pub fn is_number(text: &str) -> bool
    ensures { result ≡ is_some (number_of text.now) }
{
    whole(text).is_some() || parse_number(text).is_some()
}
