//! The limits of whole numbers, all of them this project's: each range has both its ends.

/// The greatest grid number, 2^40, in steps of the grid.
pub const GREATEST_GRID_NUMBER: i64 = 1 << 40;

/// The least grid number, -2^40, in steps of the grid.
pub const LEAST_GRID_NUMBER: i64 = -GREATEST_GRID_NUMBER;

/// The greatest absolute number, 2^53 - 1, in the unit of the coordinates: up to it each whole number is
/// a number of JSON that no reader rounds.
pub const GREATEST_ABSOLUTE_NUMBER: i64 = (1 << 53) - 1;

/// The least absolute number, -(2^53 - 1), in the unit of the coordinates.
pub const LEAST_ABSOLUTE_NUMBER: i64 = -GREATEST_ABSOLUTE_NUMBER;

/// The least scale, in units of the coordinates for each step of the grid.
pub const LEAST_SCALE: i64 = 1;

/// The greatest scale, in units of the coordinates for each step of the grid.
pub const GREATEST_SCALE: i64 = 1_000_000;

/// The greatest translation, 10^12, in the unit of the coordinates.
pub const GREATEST_TRANSLATION: i64 = 1_000_000_000_000;

/// The least translation, -10^12, in the unit of the coordinates.
pub const LEAST_TRANSLATION: i64 = -GREATEST_TRANSLATION;
