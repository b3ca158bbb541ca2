//! What the numbers, ids and properties of a map become.
use attributes::AttributeRules;
use numerals::DecimalStep;

/// A grid of whole numbers of steps.
#[derive(Clone, Copy)]
pub struct DecimalGrid {
    pub step: DecimalStep,
    /// How many steps a first number may be from 0 at most.
    pub greatest_x: u64,
    /// How many steps a second number may be from 0 at most.
    pub greatest_y: u64,
    /// Whether a position of more than two numbers is a fault.
    pub refuses_heights: bool,
    /// Whether it is counted how many positions are moved, and how far.
    pub measures: bool,
}

/// How a map is read.
#[derive(Clone, Copy)]
pub struct MapRules<'r> {
    pub grid: DecimalGrid,
    pub attributes: AttributeRules<'r>,
}
