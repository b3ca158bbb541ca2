//! The names of faults.
ghost use Rattle.faults.specs.Fault.{number_of};
ghost use Rattle.noshinka.specs.FaultNames.{IsFaultName, IsNameless};
ghost use Rattle.std.specs.Prelude.{◌≡◌, ◌<◌, ◌⊎◌, IfErr, IfNone, IfOk, IfSome};

use c_calls::refusal::CallRefusal;
use faults::FaultKind;
use std::alloc::Global;

/// The kind of fault with a number.
fn kind_of(number: u32) -> Option<FaultKind>
    ensures kind { IfSome result (λ k. number_of k ≡ number) }
    ensures none { IfNone result ((number ≡ 0) ⊎ (21 < number)) }
{
    match number {
        1 => Some(FaultKind::NotJson),
        2 => Some(FaultKind::Missing),
        3 => Some(FaultKind::WrongKind),
        4 => Some(FaultKind::UnknownType),
        5 => Some(FaultKind::NotWhole),
        6 => Some(FaultKind::OutOfRange),
        7 => Some(FaultKind::OffGrid),
        8 => Some(FaultKind::TooShort),
        9 => Some(FaultKind::NotClosed),
        10 => Some(FaultKind::Revisit),
        11 => Some(FaultKind::NoArc),
        12 => Some(FaultKind::Broken),
        13 => Some(FaultKind::PropertyNumber),
        14 => Some(FaultKind::PropertyDepth),
        15 => Some(FaultKind::NoTransform),
        16 => Some(FaultKind::NotTwo),
        17 => Some(FaultKind::OtherGrid),
        18 => Some(FaultKind::BadPlan),
        19 => Some(FaultKind::NoLayer),
        20 => Some(FaultKind::OutOfMemory),
        21 => Some(FaultKind::Write),
        _ => None,
    }
}

/// The name of the fault with a number.
pub(crate) fn fault_name(alloc: Global, number: u32) -> Result<Vec<u8>, CallRefusal>
    ensures name { IfOk result (λ t. IsFaultName number t.items) }
    ensures refused { IfErr result (IsNameless number) }
{
    let Some(kind) = kind_of(number) else {
        return Err(CallRefusal::BadChoice);
    };
    Ok(Vec::from_slice(alloc, kind.name().as_bytes())?)
}
