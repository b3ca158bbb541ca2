//! Tables of tests.

/// A table of which each row is a tuple of values, and ends in `;`.
#[macro_export]
macro_rules! rows {
    ($($($value:expr),+;)+) => {
        &[$(($($value),+)),+]
    };
}
