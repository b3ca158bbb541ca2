//! Numerals as whole numbers, and as texts.
ghost use Rattle.attributes.specs.Numerals.{has_fraction, in_64_bits, integer_of, point_cut, scaled, signed_of, spelled, whole_of, written_whole, zeros_cut};
ghost use Rattle.fast_float.specs.Text.{with_sign};
ghost use Rattle.numerals.specs.Numeral.{parts_of};
ghost use Rattle.serde_json.specs.View.{number_view};
ghost use Rattle.std.specs.Prelude.{◌≡◌, ◌≤◌, length, option_and_then, option_map};

use crate::rules::Reals;
use fast_float::Numeral;
use numerals::{DecimalStep, snap, whole};
use reading::tokens::number::read_number;
use serde_json::Number;

// The whole number of 64 bits that a numeral is written as, with no fraction and no exponent, and not `-0`: as
// `serde_json` reads it.
fn written_whole(text: &str) -> Option<Number>
    ensures { option_map number_view result ≡ written_whole text.now }
{
    match read_number(text) {
        Some(number) => if number.is_f64() { None } else { Some(number) },
        None => None,
    }
}

// The number of that sign and that size, if it has 64 bits.
fn number_of(negative: bool, size: u64) -> Option<Number>
    ensures { option_map number_view result ≡ in_64_bits (with_sign negative size) }
{
    if !negative {
        return Some(Number::from(size));
    }
    if size > 1 << 63 {
        return None;
    }
    Some(Number::from(-(size as i128) as i64))
}

// The whole number of 64 bits that a numeral is worth, however it is written.
fn whole_value(text: &str) -> Option<Number>
    ensures { option_map number_view result ≡ option_and_then in_64_bits (integer_of text.now) }
{
    match whole(text.as_bytes()) {
        Some((negative, size)) => number_of(negative, size),
        None => None,
    }
}

/// The whole number of 64 bits that a numeral is.
pub fn whole_number(rule: Reals, text: &str) -> Option<Number>
    ensures { option_map number_view result ≡ whole_of rule text.now }
{
    match rule {
        Reals::Text => written_whole(text),
        Reals::Whole | Reals::Refuse => whole_value(text),
    }
}

/// The whole number of 64 signed bits that a numeral is.
pub fn signed_number(rule: Reals, text: &str) -> Option<i64>
    ensures { result ≡ signed_of rule text.now }
{
    match whole_number(rule, text) {
        Some(number) => number.as_i64(),
        None => None,
    }
}

/// The whole number that is nearest to 10^places times a numeral, or None where the text is no numeral or there is none
/// within the limits of grid numbers.
pub fn scale(text: &str, places: u32) -> Option<i64>
    ensures { result ≡ scaled places text.now }
{
    match DecimalStep::new(1, places) {
        Some(step) => snap(text.as_bytes(), &step),
        None => None,
    }
}

// How many bytes are left without the zeros at the end.
fn without_zeros(bytes: &[u8]) -> usize
    ensures value { result ≡ zeros_cut bytes.now (length bytes.now) }
    ensures within { result ≤ length bytes.now }
{
    let mut kept = bytes.len();
    while kept > 0 && bytes[kept - 1] == b'0' {
        kept -= 1;
    }
    kept
}

// How many of the first so many bytes are left without zeros and a point at the end.
fn without_point(bytes: &[u8], kept: usize) -> usize
    requires { kept ≤ length bytes.now }
    ensures value { result ≡ point_cut bytes.now kept }
    ensures within { result ≤ kept }
{
    if kept > 0 && bytes[kept - 1] == b'.' {
        kept - 1
    } else {
        kept
    }
}

/// The parts of a numeral that may have a minus in front.
pub fn scan(bytes: &[u8]) -> Numeral<'_>
    ensures { result ≡ parts_of bytes.now }
{
    match bytes {
        [b'-', rest @ ..] => Numeral::scan(rest),
        _ => Numeral::scan(bytes),
    }
}

fn has_fraction(bytes: &[u8]) -> bool
    ensures { result ≡ has_fraction bytes.now }
{
    let numeral = scan(bytes);
    numeral.has_point() && numeral.exponent().is_empty()
}

/// The numeral without the zeros that end its fraction, as `8810.04` for `8810.0400` and `99` for `99.0`. With an
/// exponent it stays as it is written.
pub fn spell(text: &str) -> &str
    ensures { result.now ≡ spelled text.now }
{
    let bytes = text.as_bytes();
    if !has_fraction(bytes) {
        return text;
    }
    let kept = without_point(bytes, without_zeros(bytes));
    match text.split_at_checked(kept) {
        Some((front, _)) => front,
        None => text,
    }
}
