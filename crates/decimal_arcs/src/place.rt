//! Positions of a topology, and what they are rounded by.
use decimal_maps::DecimalGrid;
use grid::Pos;
use numerals::DecimalAxis;

/// A position that was rounded.
#[derive(Clone, Copy, Debug)]
pub struct Place {
    pub at: Pos,
    /// How far, in ten-thousandths of a step and rounded up, it was moved along an axis at most; 0 where it isn't
    /// measured.
    pub far: u64,
    /// How many numbers were behind the second.
    pub heights: u64,
}

/// The transform of a topology (TopoJSON, section 2.1.2): by what each of the two numbers of a position is multiplied, and
/// what is added then.
#[derive(Clone, Copy)]
pub struct NumeralTransform {
    pub x: DecimalAxis,
    pub y: DecimalAxis,
}

/// How the numbers of a topology become positions on a grid.
#[derive(Clone, Copy)]
pub struct Quantization {
    pub grid: DecimalGrid,
    /// Without one, positions are those that the numbers are, as in GeoJSON.
    pub transform: Option<NumeralTransform>,
}
