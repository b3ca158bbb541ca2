//! Calls that are made where memory may be refused: what they answer, what comes of them, the worked
//! texts that are lent to them, and comparisons with copies. What the programs share that
//! tests/growths.py runs.
#![tactic(auto)]

pub mod calls;
pub mod comparing;
pub mod handed;
pub mod inputs;
pub mod outcome;
pub mod tables;
pub mod texts;
