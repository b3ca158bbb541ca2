//! Sessions: a topology that is edited by joins and removals, and its text. Expected texts are worked
//! out by hand.
use crate::tests::inputs::{ON_SCALE_TWO, is_text_of, map_of, topology_of};
use refine::{Edit, EditsFault, JoinFault, Session};
use refused_calls::texts::{FIRST, NO_LAYERS, SECOND, SHARED_EDGE};
use std::alloc::Global;
use std::process::Abort;
use std::test::Fail;
use worked_maps::{boxed, unit_grid};

fn start(alloc: Global) -> Result<Box<Session>, Fail> {
    boxed(alloc, Session::start(alloc, &unit_grid()?))
}

/// An edit, by the text of the topology that is joined or taken out.
#[derive(Clone, Copy)]
enum Step {
    Join(&'static str),
    Remove(&'static str),
}

fn edit(alloc: Global, step: Step) -> Result<Edit, Fail> {
    match step {
        Step::Join(text) => Ok(Edit::Join(Box::into_inner(topology_of(alloc, text)?))),
        Step::Remove(text) => Ok(Edit::Remove(map_of(alloc, text)?)),
    }
}

fn edits(alloc: Global, steps: &[Step]) -> Result<Vec<Edit>, Fail> {
    let mut made = Vec::new(alloc);
    for step in steps {
        made.push(edit(alloc, *step)?)?;
    }
    Ok(made)
}

/// The session's text is as expected, and so is that of the topology that it lends.
fn assert_text(
    rt: &impl Abort,
    alloc: Global,
    session: &Session,
    expected: &str,
) -> Result<(), Fail> {
    let text = session.text()?;
    assert!(rt; text.as_slice() == expected.as_bytes(), "{expected}");
    let is_borrowed = is_text_of(alloc, session.topology(), expected)?;
    assert!(rt; is_borrowed, "{expected}");
    Ok(())
}

/// An edit, what it is refused for, and the text of the session after it.
#[derive(Clone, Copy)]
struct Row {
    step: Step,
    fault: Option<JoinFault>,
    text: &'static str,
}

const ONE_BY_ONE: &[Row] = &[
    Row {
        step: Step::Join(FIRST),
        fault: None,
        text: FIRST,
    },
    Row {
        step: Step::Join(SECOND),
        fault: None,
        text: SHARED_EDGE,
    },
    Row {
        step: Step::Remove(FIRST),
        fault: None,
        text: SECOND,
    },
    Row {
        step: Step::Join(ON_SCALE_TWO),
        fault: Some(JoinFault::OtherGrid),
        text: SECOND,
    },
];

/// What an edit of a session is refused for.
fn applied(alloc: Global, session: &mut Session, step: Step) -> Result<Option<JoinFault>, Fail> {
    let edit = edit(alloc, step)?;
    Ok(session.apply(&edit).err())
}

fn assert_row(
    rt: &impl Abort,
    alloc: Global,
    session: &mut Session,
    row: &Row,
) -> Result<(), Fail> {
    let fault = applied(alloc, session, row.step)?;
    assert!(rt; fault == row.fault, "{}", row.text);
    assert_text(rt, alloc, session, row.text)
}

#[test]
fn edits_one_by_one(rt: HostRuntime) -> Result<(), Fail> {
    let mut session = start(rt.alloc())?;
    assert_text(&rt, rt.alloc(), &*session, NO_LAYERS)?;
    for row in ONE_BY_ONE {
        assert_row(&rt, rt.alloc(), &mut *session, row)?;
    }
    Ok(())
}

/// A list of edits, the place and the reason of its refusal, and the text of the session after it.
#[derive(Clone, Copy)]
struct List {
    steps: &'static [Step],
    fault: Option<(usize, JoinFault)>,
    text: &'static str,
}

/// The edits before the refused one stand.
const UP_TO_A_REFUSAL: List = List {
    steps: &[
        Step::Join(FIRST),
        Step::Join(ON_SCALE_TWO),
        Step::Join(SECOND),
    ],
    fault: Some((1, JoinFault::OtherGrid)),
    text: FIRST,
};

const REMOVAL_ON_ANOTHER_GRID: List = List {
    steps: &[
        Step::Join(SHARED_EDGE),
        Step::Remove(ON_SCALE_TWO),
        Step::Remove(SECOND),
    ],
    fault: None,
    text: FIRST,
};

/// The place and the reason of a refusal.
fn refusal(applied: Result<(), EditsFault>) -> Option<(usize, JoinFault)> {
    match applied {
        Ok(()) => None,
        Err(EditsFault { place, fault }) => Some((place, fault)),
    }
}

fn assert_list(rt: &impl Abort, alloc: Global, list: &List) -> Result<(), Fail> {
    let edits = edits(alloc, list.steps)?;
    let mut session = start(alloc)?;
    let fault = refusal(session.apply_all(edits.as_slice()));
    assert!(rt; fault == list.fault);
    assert_text(rt, alloc, &*session, list.text)
}

#[test]
fn edits_up_to_a_refusal(rt: HostRuntime) -> Result<(), Fail> {
    assert_list(&rt, rt.alloc(), &UP_TO_A_REFUSAL)
}

#[test]
fn a_removal_is_on_any_grid(rt: HostRuntime) -> Result<(), Fail> {
    assert_list(&rt, rt.alloc(), &REMOVAL_ON_ANOTHER_GRID)
}
