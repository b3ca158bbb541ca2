//! What features are made of.

use faults::OutOfMemory;
use grid::Pos;
use refused_calls::calls;
use refused_calls::comparing::are_at;
use refused_calls::inputs::positions;
use refused_calls::outcome::{Answer, Tally};
use shapes::{Line, Props, Ring, ShapeFault, Spelled};
use std::alloc::Global;

/// The unit square, which comes back to its first place.
const SQUARE: [(i64, i64); 5] = [(1, 0), (1, 1), (0, 1), (0, 0), (1, 0)];

/// Its vertices from the least one on.
const VERTICES: [(i64, i64); 4] = [(0, 0), (1, 0), (1, 1), (0, 1)];

/// What a call answers that is handed the places of the square.
fn judge<T: Drop, F: Fn(Global, Vec<Pos>) -> Result<T, ShapeFault>, R: Fn(&T) -> bool>(
    alloc: Global,
    make: F,
    is_right: R,
) -> Answer
    requires makes { F.IsAlwaysCallable make }
    requires judges { R.IsAlwaysCallable is_right }
{
    let Some(square) = positions(alloc, &SQUARE) else {
        return Answer::Unasked;
    };
    match make(alloc, square) {
        Ok(made) => Answer::of(is_right(&made)),
        Err(ShapeFault::OutOfMemory) => Answer::Wanting,
        Err(_) => Answer::Wrong,
    }
}

fn ring(alloc: Global, _: &()) -> Answer {
    judge(alloc, Ring::from_closed, |ring: &Ring| {
        are_at(ring.vertices(), &VERTICES)
    })
}

fn line(alloc: Global, _: &()) -> Answer {
    judge(alloc, Line::from_positions, |line: &Line| {
        are_at(line.positions(), &SQUARE)
    })
}

fn name(alloc: Global, _: &()) -> Answer {
    match Spelled::new(alloc, "a\"b") {
        Ok(name) => Answer::of(name.text() == "a\"b" && name.spelling() == "\"a\\\"b\""),
        Err(OutOfMemory) => Answer::Wanting,
    }
}

fn properties(alloc: Global, _: &()) -> Answer {
    match Props::empty(alloc) {
        Ok(properties) => Answer::of(properties.is_empty() && properties.text() == "{}"),
        Err(OutOfMemory) => Answer::Wanting,
    }
}

/// Makes each of these parts.
pub(crate) fn test(rt: &HostRuntime, tally: &mut Tally) {
    calls!(tally.ask(rt, "parts of features", &());
        "Ring::from_closed" => ring,
        "Line::from_positions" => line,
        "Spelled::new" => name,
        "Props::empty" => properties,
    );
}
