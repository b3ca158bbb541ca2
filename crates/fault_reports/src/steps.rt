//! Errors of a text that are sorted by path, and those of them whose paths go through a member or an element.
use faults::{Fault, Step};
use std::cmp::Ordering;

/// A range of errors whose paths agree in their first steps, `depth` of them.
#[derive(Clone, Copy)]
pub(crate) struct Range {
    pub(crate) from: usize,
    pub(crate) to: usize,
    pub(crate) depth: usize,
}

impl Range {
    pub(crate) fn is_empty(&self) -> bool {
        self.from >= self.to
    }
}

/// A step that is looked for.
#[derive(Clone, Copy)]
pub(crate) enum Sought<'s> {
    Name(&'s str),
    Index(usize),
}

/// How a path's step compares with the one that is looked for. A path that ends before comes first.
fn compare_step(fault: &Fault, depth: usize, sought: Sought<'_>) -> Ordering {
    match fault.path.as_slice().get(depth) {
        None => Ordering::Less,
        Some(step) => match (step, sought) {
            (Step::Name(name), Sought::Name(wanted)) => name.as_str().cmp(wanted),
            (Step::Index(index), Sought::Index(wanted)) => index.cmp(&wanted),
            (Step::Name(_), Sought::Index(_)) => Ordering::Less,
            (Step::Index(_), Sought::Name(_)) => Ordering::Greater,
        },
    }
}

/// Whether the error comes before those that go through the step, or, where these are passed too, before those behind them.
fn is_before(fault: &Fault, depth: usize, sought: Sought<'_>, is_passed: bool) -> bool {
    match compare_step(fault, depth, sought) {
        Ordering::Less => true,
        Ordering::Equal => is_passed,
        Ordering::Greater => false,
    }
}

/// Where those that go through the step begin in a range, or end.
fn bound(faults: &[Fault], range: Range, sought: Sought<'_>, is_end: bool) -> usize {
    let mut low = range.from;
    let mut high = range.to;
    'search: while low < high {
        let middle = low + (high - low) / 2;
        let is_low = match faults.get(middle) {
            Some(fault) => is_before(fault, range.depth, sought, is_end),
            None => false,
        };
        if is_low {
            low = middle + 1;
        } else {
            high = middle;
        }
    }
    low
}

/// Those errors of a range that go through a step.
pub(crate) fn through(faults: &[Fault], range: Range, sought: Sought<'_>) -> Range {
    Range {
        from: bound(faults, range, sought, false),
        to: bound(faults, range, sought, true),
        depth: range.depth.saturating_add(1),
    }
}
