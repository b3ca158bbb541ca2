//! Tables of tests.

/// Words after the program's name.
pub type Words = &'static [&'static str];

/// Files: the name of each, and its text.
pub type Texts = &'static [(&'static str, &'static str)];

/// A table of which each row is a tuple of values, and ends in `;`.
#[macro_export]
macro_rules! rows {
    ($($($value:expr),+;)+) => {
        &[$(($($value),+)),+]
    };
}
