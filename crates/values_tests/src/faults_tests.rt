//! Faults, their numbers and their paths.
use faults::{Fault, FaultKind, OutOfMemory, Step};
use std::alloc::Global;

/// Kinds of faults, with their numbers and names.
const KINDS: &[(FaultKind, u8, &str)] = &[
    (FaultKind::NotJson, 1, "NotJson"),
    (FaultKind::NotClosed, 9, "NotClosed"),
    (FaultKind::NoArc, 11, "NoArc"),
    (FaultKind::Write, 21, "Write"),
];

#[test]
fn numbers_and_names(rt: HostRuntime) {
    for (kind, number, name) in KINDS {
        assert!(rt; kind.number() == *number && kind.name() == *name, "{name}");
    }
}

/// Whether a path goes into a member and into an element of it.
fn is_path(path: &[Step], name: &str, index: usize) -> bool {
    match path {
        [Step::Name(text), Step::Index(place)] => text.as_str() == name && *place == index,
        _ => false,
    }
}

/// Kinds of faults, an index and a name that are put in front of their paths, and whether the paths have them then.
const STEPS: &[(FaultKind, usize, &str, bool)] = &[
    (FaultKind::NotWhole, 0, "coordinates", true),
    (FaultKind::OutOfMemory, 3, "arcs", false),
];

#[test]
fn steps_are_put_in_front_but_at_want_of_memory(rt: HostRuntime) {
    for (kind, index, name, has_steps) in STEPS {
        let fault = Fault::here(rt.alloc(), *kind).under_index(*index);
        let fault = fault.under_name(rt.alloc(), *name);
        let is_as_expected = match *has_steps {
            true => is_path(fault.path.as_slice(), *name, *index),
            false => fault.path.is_empty(),
        };
        assert!(rt; fault.kind == *kind && is_as_expected, "{name}");
    }
}

fn copy_or_refuse(text: &str, alloc: Global) -> Result<String, OutOfMemory> {
    Ok(String::from_str(alloc, text)?)
}

#[test]
fn refusals_of_memory_become_one_error(rt: HostRuntime) {
    assert!(rt; copy_or_refuse("a", rt.alloc()).is_ok());
}
