//! Decimal texts.
ghost use Rattle.attributes.specs.Columns.{is_decimal, is_fraction};
ghost use Rattle.std.specs.Prelude.{◌≡◌};

use crate::numeral::scan;
use json::is_number;

/// Whether a text is a number of JSON (RFC 8259, section 6).
pub fn is_decimal(text: &str) -> bool
    ensures { result ≡ is_decimal text.now }
{
    is_number(text)
}

/// Whether it is one that has a point or an exponent.
pub fn is_fraction(text: &str) -> bool
    ensures { result ≡ is_fraction text.now }
{
    let numeral = scan(text.as_bytes());
    is_decimal(text) && (numeral.has_point() || !numeral.exponent().is_empty())
}
