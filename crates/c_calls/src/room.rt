//! Where a call puts its answer.
ghost use Rattle.c_calls.specs.Ends.{IsDone, IsEnd, IsRefused};
ghost use Rattle.std.specs.Prelude.{◌≡◌, ◌↔◌, ◌<◌, ◌≤◌, IfErr, IfOk, IsTrue, cond, length, take};

use crate::outcome::CallOutcome;
use crate::refusal::{CallRefusal, outcome_of};
use std::alloc::Global;

/// Puts a text at the front of the room, if it fits.
pub fn put_text(text: &[u8], room: &mut [u8]) -> bool
    ensures fits { IsTrue result ↔ (length text.now ≤ length room.old) }
    ensures put { length text.now ≤ length room.old → take (length text.now) room.new ≡ text.now }
    ensures untouched { length room.old < length text.now → room.new ≡ room.old }
    ensures size { length room.new ≡ length room.old }
{
    if room.len() < text.len() {
        return false;
    }
    room[..text.len()].copy_from_slice(text);
    true
}

/// Puts an answer at the front of the room, if it fits.
fn put_answer(text: &[u8], room: &mut [u8]) -> CallOutcome
    ensures { IsDone text.now result room.old room.new }
{
    let is_put = put_text(text, room);
    CallOutcome {
        status: if is_put { 0 } else { 6 },
        fault: if is_put { 0 } else { 21 },
        place: 0,
        length: text.len(),
    }
}

/// Puts what was made at the front of the room, or says why nothing was made.
pub fn answer(alloc: Global, made: Result<Vec<u8>, CallRefusal>, room: &mut [u8]) -> CallOutcome
    ensures done { IfOk made (λ t. IsDone t.items result room.old room.new) }
    ensures refused { IfErr made (λ r. IsRefused r result room.old room.new) }
{
    match made {
        Ok(text) => put_answer(text.as_slice(), room),
        Err(refusal) => refusal.outcome(alloc, room),
    }
}

/// Says what was found, or why nothing was found.
pub fn verdict(alloc: Global, found: Result<bool, CallRefusal>, room: &mut [u8]) -> CallOutcome
    ensures said { IfOk found (λ b. IsEnd (cond b 0 1) 0 0 result) }
    ensures refused { IfErr found (λ r. IsRefused r result room.old room.new) }
{
    match found {
        Ok(true) => outcome_of(0, 0, 0),
        Ok(false) => outcome_of(1, 0, 0),
        Err(refusal) => refusal.outcome(alloc, room),
    }
}
