//! Number elements.
ghost use Rattle.faults.specs.Fault.{Pair};
ghost use Rattle.reading.specs.Fault.{here};
ghost use Rattle.reading.specs.Numbers.{element_faults, whole_of};
ghost use Rattle.serde_json.specs.View.{view};
ghost use Rattle.std.specs.Prelude.{◌≡◌, ℤ, List, IfOk, IfErr};

use faults::fault::FaultKind;
use serde_json::Value;

/// The whole number of 64 bits that a value is, or why it is none.
pub fn whole_number(value: &Value) -> Result<i64, FaultKind>
    ensures whole { IfOk result (λ n. whole_of (view value.now) ≡ n) }
    ensures ok { IfOk result (λ n. (more : ℤ → List Pair) → element_faults more (view value.now) ≡ more n) }
    ensures err { IfErr result (λ k. (more : ℤ → List Pair) → element_faults more (view value.now) ≡ here k) }
{
    let Some(number) = value.as_number() else {
        return Err(FaultKind::WrongKind);
    };
    match number.as_i64() {
        Some(a) => Ok(a),
        None => Err(FaultKind::NotWhole),
    }
}
