//! Lines and rings, checked and fixed one by one.
ghost use Rattle.fixing.specs.Left.{all_counted, all_left, closed_left, closed_list, closed_need as needed_of_closed, counted, left_by as lists_left, line_counted, lines_left, need_of as needed, parts_of, unfixed};
ghost use Rattle.lines.specs.Reading.{collapsed, line_fault, ring_fault};
ghost use Rattle.lines.specs.Seen.{positions_of};
ghost use Rattle.lines.specs.Turned.{position_cmp};
ghost use Rattle.std.specs.Prelude.{◌≡◌, ◌≢◌, IfErr, IfOk, OnOk, None, Some, map};
ghost use Rattle.theory.specs.Lists.{Each};

use crate::broken::Broken;
use crate::closing::close;
use crate::lists::only;
use crate::loops::loops_of;
use crate::rules::{Collapsed, Fixes, FixingRules};
use crate::runs::runs_of;
use faults::OutOfMemory;
use grid::pos::Pos;
use lines::items::Items;
use lines::line::Line;
use lines::ring::Ring;
use lines::shape_fault::ShapeFault;
use std::alloc::{AllocError, Global};

/// What is to be done with a line or ring.
#[derive(Clone, Copy)]
enum Fix {
    Nothing,
    Drop,
    Split,
}

/// What the rules say of a fault.
fn need_of(fault: ShapeFault, rules: &FixingRules) -> Result<Fix, Broken>
    ensures ok { IfOk result (λ need. needed rules.now (Some fault) ≡ Some need) }
    ensures refused { IfErr result (λ e. e ≡ Broken.Refused → needed rules.now (Some fault) ≡ None) }
    ensures memory { IfErr result (λ e. fault ≡ ShapeFault.OutOfMemory → e ≡ Broken.OutOfMemory) }
{
    match fault {
        ShapeFault::TooShort => match rules.collapsed {
            Collapsed::Refuse => Err(Broken::Refused),
            Collapsed::Null | Collapsed::Drop => Ok(Fix::Drop),
        },
        ShapeFault::Revisit if rules.splits_folded => Ok(Fix::Split),
        ShapeFault::Revisit | ShapeFault::NotClosed => Err(Broken::Refused),
        ShapeFault::OutOfMemory => Err(Broken::OutOfMemory),
    }
}

fn closed_need(alloc: Global, closed: &[Pos], rules: &FixingRules) -> Result<Fix, Broken>
    ensures ok { IfOk result (λ need. needed_of_closed rules.now closed.now ≡ Some need) }
    ensures refused { IfErr result (λ e. e ≡ Broken.Refused → needed_of_closed rules.now closed.now ≡ None) }
{
    let copy = closed.to_vec(alloc)?;
    match Ring::from_closed(alloc, copy) {
        Ok(_) => Ok(Fix::Nothing),
        Err(fault) => need_of(fault, rules),
    }
}

/// A fault, if the rules don't fix it.
fn unfixed_fault(fault: ShapeFault, rules: &FixingRules) -> Result<Option<ShapeFault>, OutOfMemory>
    ensures unfixed { IfOk result (λ left. left ≡ unfixed rules.now (Some fault)) }
    ensures memory { IfOk result (λ _. fault ≢ ShapeFault.OutOfMemory) }
{
    match fault {
        ShapeFault::TooShort => match rules.collapsed {
            Collapsed::Refuse => Ok(Some(ShapeFault::TooShort)),
            Collapsed::Null | Collapsed::Drop => Ok(None),
        },
        ShapeFault::Revisit if rules.splits_folded => Ok(None),
        ShapeFault::Revisit => Ok(Some(ShapeFault::Revisit)),
        ShapeFault::NotClosed => Ok(Some(ShapeFault::NotClosed)),
        ShapeFault::OutOfMemory => Err(OutOfMemory),
    }
}

/// The fault of a line that the rules don't fix, if it has one.
pub fn unfixed_line(
    alloc: Global,
    positions: Vec<Pos>,
    rules: &FixingRules,
) -> Result<Option<ShapeFault>, OutOfMemory>
    ensures { IfOk result (λ fault. fault ≡ unfixed rules.now (line_fault position_cmp positions.items)) }
{
    match Line::from_positions(alloc, positions) {
        Ok(_) => Ok(None),
        Err(fault) => unfixed_fault(fault, rules),
    }
}

/// The fault of a ring that the rules don't fix, if it has one. The ring is a list of positions that ends with its first, if it
/// isn't open.
pub fn unfixed_ring(
    alloc: Global,
    ring: Vec<Pos>,
    rules: &FixingRules,
) -> Result<Option<ShapeFault>, OutOfMemory>
    ensures { IfOk result (λ fault. fault ≡ unfixed rules.now (ring_fault position_cmp (closed_list rules.now ring.items))) }
{
    let closed = close(ring, rules)?;
    match Ring::from_closed(alloc, closed) {
        Ok(_) => Ok(None),
        Err(fault) => unfixed_fault(fault, rules),
    }
}

/// Whether a list is a line or a ring.
#[derive(Clone, Copy)]
enum Linework {
    Line,
    Ring,
}

/// The lists that are left of a line or ring of which that is to be done.
fn left_by(
    alloc: Global,
    need: Fix,
    list: Vec<Pos>,
    kind: Linework,
    fixes: &mut Fixes,
) -> Result<Vec<Items<Pos>>, AllocError>
    ensures left { IfOk result (λ lists. lists.items ≡ lists_left need list.items (parts_of kind list.items)) }
    ensures fixes { OnOk result (fixes.new ≡ counted (Some need) fixes.old) }
{
    match need {
        Fix::Nothing => only(alloc, Items::from_vec(list)),
        Fix::Drop => {
            fixes.collapsed = fixes.collapsed.saturating_add(1);
            Ok(Vec::new(alloc))
        }
        Fix::Split => {
            fixes.folded = fixes.folded.saturating_add(1);
            match kind {
                Linework::Line => runs_of(alloc, list),
                Linework::Ring => loops_of(alloc, list.as_slice()),
            }
        }
    }
}

/// The lines of lists without a fault.
fn lines_of(alloc: Global, lists: Vec<Items<Pos>>) -> Result<Vec<Line>, AllocError>
    requires { Each (λ l. line_fault position_cmp l ≡ None) lists.items }
    ensures { IfOk result (λ lines. map positions_of lines.items ≡ map (collapsed position_cmp) lists.items) }
{
    let mut lines = Vec::with_capacity(alloc, lists.len())?;
    for list in lists {
        lines.push(Line::from_sound(list.into_vec()))?;
    }
    Ok(lines)
}

/// The lines that are left of a line.
pub(crate) fn fix_line(
    alloc: Global,
    positions: Vec<Pos>,
    rules: &FixingRules,
    fixes: &mut Fixes,
) -> Result<Vec<Line>, Broken>
    ensures left { IfOk result (λ lines. lines_left rules.now positions.items ≡ Some (map positions_of lines.items)) }
    ensures fixes { OnOk result (fixes.new ≡ line_counted rules.now positions.items fixes.old) }
    ensures refused { IfErr result (λ e. e ≡ Broken.Refused → lines_left rules.now positions.items ≡ None) }
{
    let copy = positions.as_slice().to_vec(alloc)?;
    match Line::from_positions(alloc, copy) {
        Ok(line) => Ok(only(alloc, line)?),
        Err(fault) => {
            let need = need_of(fault, rules)?;
            let lists = left_by(alloc, need, positions, Linework::Line, fixes)?;
            Ok(lines_of(alloc, lists)?)
        }
    }
}

/// The lines that are left of some lines.
pub(crate) fn fix_lines(
    alloc: Global,
    lines: Vec<Items<Pos>>,
    rules: &FixingRules,
    fixes: &mut Fixes,
) -> Result<Vec<Line>, Broken>
    ensures left { IfOk result (λ made. all_left (lines_left rules.now) lines.items ≡ Some (map positions_of made.items)) }
    ensures fixes { OnOk result (fixes.new ≡ all_counted (line_counted rules.now) lines.items fixes.old) }
    ensures refused { IfErr result (λ e. e ≡ Broken.Refused → all_left (lines_left rules.now) lines.items ≡ None) }
{
    let mut fixed = Vec::with_capacity(alloc, lines.len())?;
    for line in lines {
        let mut parts = fix_line(alloc, line.into_vec(), rules, fixes)?;
        fixed.append(&mut parts)?;
    }
    Ok(fixed)
}

/// The closed lists of the rings that are left of a closed list.
pub(crate) fn fix_closed(
    alloc: Global,
    closed: Vec<Pos>,
    rules: &FixingRules,
    fixes: &mut Fixes,
) -> Result<Vec<Items<Pos>>, Broken>
    ensures left { IfOk result (λ parts. closed_left rules.now closed.items ≡ Some parts.items) }
    ensures fixes { OnOk result (fixes.new ≡ counted (needed_of_closed rules.now closed.items) fixes.old) }
    ensures refused { IfErr result (λ e. e ≡ Broken.Refused → closed_left rules.now closed.items ≡ None) }
{
    let need = closed_need(alloc, closed.as_slice(), rules)?;
    Ok(left_by(alloc, need, closed, Linework::Ring, fixes)?)
}
