//! Sessions: an edit for which memory is refused leaves them as they were.

use faults::OutOfMemory;
use grid::Grid;
use refine::{Edit, EditsFault, JoinFault, Session};
use refused_calls::calls;
use refused_calls::calls::{Borrowed, change};
use refused_calls::comparing::same_map;
use refused_calls::inputs::{built, is_of, read};
use refused_calls::outcome::{Answer, Outcome, Tally};
use refused_calls::texts::{FIRST, NO_LAYERS, SECOND, SHARED_EDGE};
use shapes::FeatureMap;
use std::alloc::Global;

/// The texts of a session after none, one, two and three edits.
const TEXTS: [&str; 4] = [NO_LAYERS, FIRST, SHARED_EDGE, SECOND];

/// Two squares that are joined and the first of which is taken out again, and a copy of what goes.
#[derive(Drop)]
struct Edits {
    grid: Grid,
    list: Vec<Edit>,
    copy: FeatureMap,
}

fn joins(alloc: Global) -> Option<Vec<Edit>> {
    let mut list = Vec::new(alloc);
    for text in [FIRST, SECOND] {
        list.push(Edit::Join(built(alloc, text)?)).ok()?;
    }
    Some(list)
}

fn removal(alloc: Global) -> Option<Edit> {
    Some(Edit::Remove(read(alloc, FIRST)?))
}

impl Edits {
    fn of(alloc: Global) -> Option<Edits> {
        let grid = Grid::new(1, 1, 0, 0)?;
        let mut list = joins(alloc)?;
        list.push(removal(alloc)?).ok()?;
        let copy = read(alloc, FIRST)?;
        Some(Edits { grid, list, copy })
    }

    /// A session after so many of the edits.
    fn session_after(&self, alloc: Global, count: usize) -> Option<Session> {
        let mut session = Session::start(alloc, &self.grid).ok()?;
        self.are_applied(&mut session, count).then_some(session)
    }

    /// Applies so many of the edits, and tells whether each was done.
    fn are_applied(&self, session: &mut Session, count: usize) -> bool {
        for edit in self.list.as_slice().iter().take(count) {
            if session.apply(edit).is_err() {
                return false;
            }
        }
        true
    }
}

impl Borrowed for Edits {
    fn is_as_before(&self) -> bool {
        match self.list.as_slice() {
            [Edit::Join(first), Edit::Join(second), Edit::Remove(map)] => {
                is_of(first, FIRST) && is_of(second, SECOND) && same_map(map, &self.copy)
            }
            _ => false,
        }
    }
}

/// Whether a session is as it is after so many of the edits.
fn is_after(session: &Session, count: usize) -> bool {
    match TEXTS.get(count) {
        Some(text) => is_of(session.topology(), text),
        None => false,
    }
}

fn start(alloc: Global, edits: &Edits) -> Answer {
    match Session::start(alloc, &edits.grid) {
        Ok(session) => Answer::of(is_after(&session, 0)),
        Err(OutOfMemory) => Answer::Wanting,
    }
}

fn apply(session: &mut Session, edits: &Edits, place: usize) -> Answer {
    let Some(edit) = edits.list.get(place) else {
        return Answer::Wrong;
    };
    match session.apply(edit) {
        Ok(()) => Answer::of(is_after(session, place.saturating_add(1))),
        Err(JoinFault::OutOfMemory) => Answer::Wanting,
        Err(JoinFault::OtherGrid) => Answer::Wrong,
    }
}

/// Applies the edit at a place to a session after the edits before it.
fn test_apply(alloc: Global, edits: &Edits, place: usize) -> Outcome {
    change(
        edits,
        edits.session_after(alloc, place),
        |session| apply(session, edits, place),
        |session| is_after(session, place),
    )
}

fn join(alloc: Global, edits: &Edits) -> Outcome {
    test_apply(alloc, edits, 0)
}

fn join_beside(alloc: Global, edits: &Edits) -> Outcome {
    test_apply(alloc, edits, 1)
}

fn remove(alloc: Global, edits: &Edits) -> Outcome {
    test_apply(alloc, edits, 2)
}

/// The edits behind a place are all applied.
fn apply_rest(session: &mut Session, edits: &Edits, place: usize) -> Answer {
    let Some(rest) = edits.list.as_slice().get(place..) else {
        return Answer::Wrong;
    };
    match session.apply_all(rest) {
        Ok(()) => Answer::of(is_after(session, edits.list.len())),
        Err(fault) => match fault.fault {
            JoinFault::OutOfMemory => Answer::Wanting,
            JoinFault::OtherGrid => Answer::Wrong,
        },
    }
}

fn test_all_edits(alloc: Global, edits: &Edits) -> Outcome {
    let Some(mut session) = edits.session_after(alloc, 0) else {
        return Outcome::Unprepared;
    };
    match session.apply_all(edits.list.as_slice()) {
        Ok(()) => Outcome::of_first(
            Answer::of(is_after(&session, edits.list.len())),
            edits.is_as_before(),
        ),
        Err(fault) => after_fault(&mut session, edits, fault),
    }
}

/// A session after a list of edits that was not done to its end: those before the fault stand, and the
/// others are done when they are asked for again.
fn after_fault(session: &mut Session, edits: &Edits, fault: EditsFault) -> Outcome {
    match fault.fault {
        JoinFault::OutOfMemory => {
            if is_after(session, fault.place) && edits.is_as_before() {
                return Outcome::of_second(apply_rest(session, edits, fault.place));
            }
            Outcome::Wrong
        }
        JoinFault::OtherGrid => Outcome::Wrong,
    }
}

/// The text of a session, which stays as it is.
fn text(session: &Session) -> Answer {
    match session.text() {
        Ok(text) => {
            Answer::of(text.as_slice() == SHARED_EDGE.as_bytes() && is_after(session, 2))
        }
        Err(OutOfMemory) => Answer::Wanting,
    }
}

fn test_text(alloc: Global, edits: &Edits) -> Outcome {
    change(
        edits,
        edits.session_after(alloc, 2),
        |session| text(session),
        |session| is_after(session, 2),
    )
}

/// Makes each call of sessions.
pub(crate) fn test(rt: &HostRuntime, tally: &mut Tally) {
    if let Some(edits) = tally.borrowed(rt, "a session", "its edits", Edits::of) {
        tally.ask(rt, "a session", &edits, "Session::start", start);
        calls!(tally.test(rt, "a session", &edits);
            "Session::apply of a first join" => join,
            "Session::apply of a second join" => join_beside,
            "Session::apply of a removal" => remove,
            "Session::apply_all" => test_all_edits,
            "Session::text" => test_text,
        );
    }
}
