//! Tests of `normalize`.
mod arc_lists;
mod drawn;
mod texts;
