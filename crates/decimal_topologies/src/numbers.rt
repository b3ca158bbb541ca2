//! Numbers of arcs (TopoJSON, section 2.1.4).
ghost use Rattle.decimal_topologies.specs.Stitching.{ref_at as at_number, ref_of as named, within as among};
ghost use Rattle.json.specs.Value.{value_view};
ghost use Rattle.std.specs.Prelude.{◌≡◌};

use faults::fault::FaultKind;
use json::Value;
use numerals::whole;

/// An arc by its number, in its direction or backwards.
#[derive(Clone, Copy, Debug)]
pub struct ArcRef {
    pub arc: usize,
    pub backwards: bool,
}

// The arc that a whole number names.
fn ref_at(negative: bool, size: u64) -> ArcRef
    ensures { result ≡ at_number negative size }
{
    if negative {
        ArcRef {
            arc: size.saturating_sub(1) as usize,
            backwards: true,
        }
    } else {
        ArcRef {
            arc: size as usize,
            backwards: false,
        }
    }
}

// The used arc, where there are so many arcs that it is one of them.
fn within(count: usize, used: ArcRef) -> Result<ArcRef, FaultKind>
    ensures { result ≡ among count used }
{
    if used.arc < count {
        Ok(used)
    } else {
        Err(FaultKind::NoArc)
    }
}

/// The arc that a value names, of so many.
///
/// # Errors
/// The kind of the value's fault.
pub fn ref_of(count: usize, value: &Value<'_>) -> Result<ArcRef, FaultKind>
    ensures { result ≡ named count (value_view value.now) }
{
    let Some(text) = value.as_number() else {
        return Err(FaultKind::WrongKind);
    };
    match whole(text.as_bytes()) {
        Some((negative, size)) => within(count, ref_at(negative, size)),
        None => Err(FaultKind::NotWhole),
    }
}
