//! Fractions rounded to whole numbers, and to ten-thousandths.
ghost use Rattle.numerals.specs.Distance.{AreTenThousandths};
ghost use Rattle.numerals.specs.Nearest.{IsRounded};
ghost use Rattle.numerals.specs.Numeral.{IsMeasure};
ghost use Rattle.std.specs.Prelude.{◌≡◌, ◌+◌, ◌-◌, ◌*◌, ◌^◌, ◌<◌, ◌≤◌, min, IfSome};

use crate::step::DecimalStep;

/// What more ten-thousandths are counted as, 10^17.
pub(crate) const FAR: u128 = 100_000_000_000_000_000;

/// 10^n, or None where a machine word may not hold it.
pub(crate) fn word_power(n: usize) -> Option<u64>
    ensures { IfSome result (λ t. t ≡ 10 ^ n) }
{
    if n > 19 {
        return None;
    }
    Some(10u64.pow(n as u32))
}

/// A fraction rounded to the nearest whole number, upward from half on.
pub(crate) fn round_fraction(above: u64, below: u64) -> u64
    requires { 0 < below }
    ensures { IsRounded above below result }
{
    let steps = above / below;
    let rest = above % below;
    if rest >= below - rest {
        steps + 1
    } else {
        steps
    }
}

/// A fraction in ten-thousandths, rounded down, and whether it is just that. None where a machine word may not hold
/// them.
pub(crate) fn word_parts(above: u64, below: u64) -> Option<(u64, bool)>
    requires { 0 < below }
    ensures { IfSome result (λ r. AreTenThousandths above below r.0 r.1) }
{
    let all = above.checked_mul(10_000)?;
    let parts = all / below;
    Some((parts.min(FAR as u64), parts * below == all))
}

/// The number times 10^n, or at least 10^38 where it is more than that.
pub(crate) fn times_power(number: u128, n: u64) -> u128
    ensures { result ≡ min (number * 10 ^ min n 38) (2 ^ 128 - 1) }
{
    number.saturating_mul(10u128.pow(n.min(38) as u32))
}

/// A number over `10^places` in ten-thousandths of a step, rounded down, and whether it is just that.
pub(crate) fn parts_of(number: u128, places: u64, step: &DecimalStep) -> (u64, bool)
    requires size { number < 10 ^ 38 }
    ensures limits { IsMeasure step.now }
    ensures given { AreTenThousandths (number * 10 ^ step.now.places) (step.now.size * 10 ^ places) result.0 result.1 }
{
    let step_places = u64::from(step.places()) + 4;
    let above = times_power(number, step_places.saturating_sub(places));
    let below = times_power(step.size(), places.saturating_sub(step_places));
    let parts = above / below;
    (parts.min(FAR) as u64, parts * below == above)
}
