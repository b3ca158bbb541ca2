//! Numerals that are worth whole numbers.
ghost use Rattle.fast_float.specs.Text.{digits_of, scan, tens_up, tens_down};
ghost use Rattle.numerals.specs.Numeral.{IsUnsigned};
ghost use Rattle.numerals.specs.Whole as spec;
ghost use Rattle.numerals.specs.Whole.{IsWhole};
ghost use Rattle.std.specs.Prelude.{◌≡◌, ◌↔◌, ℕ, Bool, ◌*◌, ◌^◌, ◌<◌, Some};

use crate::rounding::without_sign;
use crate::short::read_short;
use fast_float::Numeral;

// The whole number below 2^64 that a text with no sign is worth.
fn whole_size(unsigned: &[u8]) -> Option<u64>
    ensures { (k : ℕ) → (result ≡ Some k) ↔ (IsUnsigned unsigned.now × (k * 10 ^ tens_down (scan unsigned.now) ≡ digits_of (scan unsigned.now) * 10 ^ tens_up (scan unsigned.now)) × (k < 2 ^ 64)) }
{
    if let Some(short) = read_short(unsigned) {
        if short.places() == 0 {
            return Some(short.digits());
        }
    }
    let numeral = Numeral::scan(unsigned);
    if !numeral.has_digits() || numeral.len() < unsigned.len() {
        return None;
    }
    numeral.whole_u64()
}

/// Whether a minus is in front, and the size, of the whole number that a numeral is worth, however it is written:
/// `5.0`, `1e3`, `120e-1`. 0 has no minus. None where the text is no numeral, or its value is not whole, or 2^64 or
/// more.
pub fn whole(text: &[u8]) -> Option<(bool, u64)>
    ensures exact { (negative : Bool) (size : ℕ) → (result ≡ Some (negative, size)) ↔ IsWhole text.now negative size }
    ensures given { result ≡ spec.whole_of text.now }
{
    let (negative, unsigned) = without_sign(text);
    let size = whole_size(unsigned)?;
    Some((negative && size > 0, size))
}
