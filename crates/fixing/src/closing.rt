//! Open rings, closed.
ghost use Rattle.fixing.specs.Left.{closed_counted, closed_list, closes as closes_ring};
ghost use Rattle.std.specs.Prelude.{◌≡◌, IfOk, OnOk};

use crate::rules::{Fixes, FixingRules};
use grid::pos::Pos;
use std::alloc::AllocError;

/// Whether the rules close a ring.
fn closes(ring: &[Pos], rules: &FixingRules) -> bool
    ensures { result ≡ closes_ring rules.now ring.now }
{
    rules.closes_rings && ring.first() != ring.last()
}

/// The list of a ring. Where the rules close it, it ends with its first position.
pub(crate) fn close(ring: Vec<Pos>, rules: &FixingRules) -> Result<Vec<Pos>, AllocError>
    ensures { IfOk result (λ closed. closed.items ≡ closed_list rules.now ring.items) }
{
    let mut ring = ring;
    if closes(ring.as_slice(), rules) {
        if let Some(first) = ring.first().copied() {
            ring.push(first)?;
        }
    }
    Ok(ring)
}

/// `close`, and counts the rings that it closed.
pub(crate) fn close_counted(
    ring: Vec<Pos>,
    rules: &FixingRules,
    fixes: &mut Fixes,
) -> Result<Vec<Pos>, AllocError>
    ensures closed { IfOk result (λ closed. closed.items ≡ closed_list rules.now ring.items) }
    ensures fixes { OnOk result (fixes.new ≡ closed_counted rules.now ring.items fixes.old) }
{
    if closes(ring.as_slice(), rules) {
        fixes.closed = fixes.closed.saturating_add(1);
    }
    close(ring, rules)
}
