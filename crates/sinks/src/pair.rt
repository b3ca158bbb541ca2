//! Two numbers in brackets, put together from the end so that they are one piece.
ghost use Rattle.sinks.specs.Texts.{pair_text};
ghost use Rattle.std.specs.Fmt.{signed_decimal};
ghost use Rattle.std.specs.Prelude.{◌≡◌, ◌<◌, ◌≤◌, ◌+◌, ◌∷◌, ◌++◌, codes, drop, length};

use itoa::write_digits;

/// The length of the longest pair: two numbers of twenty bytes, a comma and two brackets.
pub(crate) const LONGEST_PAIR: usize = 43;

/// The length of the longest pair after a comma.
pub(crate) const LONGEST_AFTER_COMMA: usize = 44;

/// Writes a byte so that it ends at `end`, and answers where it starts.
fn write_byte(byte: u8, bytes: &mut [u8], end: usize) -> usize
    requires { (0 < end) × (end ≤ length bytes.old) }
    ensures start { result + 1 ≡ end }
    ensures written { drop result bytes.new ≡ byte ∷ drop end bytes.old }
{
    bytes[end - 1] = byte;
    end - 1
}

/// Writes a number so that it ends at `end`, and answers where it starts.
fn write_number(number: i64, bytes: &mut [u8], end: usize) -> usize
    requires { (20 ≤ end) × (end ≤ length bytes.old) }
    ensures start { (result ≤ end) × (end ≤ result + 20) }
    ensures written { drop result bytes.new ≡ signed_decimal number ++ drop end bytes.old }
{
    let start = write_digits(number.unsigned_abs(), bytes, end);
    if number >= 0 {
        return start;
    }
    write_byte(b'-', bytes, start)
}

/// Writes two numbers in brackets so that they end at `end`, and answers where they start.
fn write_pair_to(x: i64, y: i64, bytes: &mut [u8], end: usize) -> usize
    requires { (43 ≤ end) × (end ≤ length bytes.old) }
    ensures start { (result ≤ end) × (end ≤ result + 43) }
    ensures written { drop result bytes.new ≡ pair_text x y ++ drop end bytes.old }
{
    let last = write_byte(b']', bytes, end);
    let comma = write_number(y, bytes, last);
    let middle = write_byte(b',', bytes, comma);
    let first = write_number(x, bytes, middle);
    write_byte(b'[', bytes, first)
}

/// Writes two numbers in brackets so that they end where the bytes end, and answers where they start.
pub(crate) fn write_pair(x: i64, y: i64, bytes: &mut [u8; LONGEST_PAIR]) -> usize
    ensures within { result ≤ 43 }
    ensures written { drop result bytes.new ≡ pair_text x y }
{
    write_pair_to(x, y, bytes, LONGEST_PAIR)
}

/// Writes a comma and two numbers in brackets so that they end where the bytes end, and answers where they start.
pub(crate) fn write_pair_after_comma(x: i64, y: i64, bytes: &mut [u8; LONGEST_AFTER_COMMA]) -> usize
    ensures within { result ≤ 44 }
    ensures written { drop result bytes.new ≡ codes "," ++ pair_text x y }
{
    let first = write_pair_to(x, y, bytes, LONGEST_AFTER_COMMA);
    write_byte(b',', bytes, first)
}
