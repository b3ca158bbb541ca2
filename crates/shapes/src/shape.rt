//! Ids and shapes.
use crate::fitting::FitsGrid;
use crate::form::Form;
use crate::spelled::Spelled;
use faults::OutOfMemory;
use grid::transform::Grid;
use lines::line::Line;
use lines::ring::Ring;
use std::alloc::Global;

/// The id of a feature: none, a whole number of 64 bits, or a text (RFC 7946, section 3.2).
/// Ordered so: none, then numbers, then texts by their UTF-8 bytes.
#[derive(PartialEq, Eq, PartialOrd, Ord, Drop, Debug)]
pub enum Id {
    None,
    Number(i64),
    Text(Spelled),
}

impl Id {
    ghost use Rattle.std.specs.Prelude.{◌≡◌, IfOk};

    /// An equal id, or out of memory.
    pub fn copy(&self, alloc: Global) -> Result<Id, OutOfMemory>
        ensures { IfOk result (λ id. id ≡ self.now) }
    {
        match self {
            Id::None => Ok(Id::None),
            Id::Number(number) => Ok(Id::Number(*number)),
            Id::Text(text) => Ok(Id::Text(text.copy(alloc)?)),
        }
    }
}

/// The shape of a feature, over positions of a grid (RFC 7946, section 3.1).
/// Shapes are ordered by type, as `Form` lists them, and then by their lists of positions.
pub type Shape = Form<Line, Ring>;

impl Shape {
    ghost use Rattle.shapes.specs.Fitting.{ShapeFits};
    ghost use Rattle.std.specs.Prelude.{◌↔◌, IsTrue};

    /// Whether each position of the shape fits the grid.
    pub fn fits(&self, grid: &Grid) -> bool
        ensures { IsTrue result ↔ ShapeFits grid.now self.now }
    {
        match self {
            Shape::Null => true,
            Shape::Point(position) => position.fits_grid(grid),
            Shape::MultiPoint(positions) => positions.fits_grid(grid),
            Shape::Line(line) => line.fits_grid(grid),
            Shape::MultiLine(lines) => lines.fits_grid(grid),
            Shape::Polygon(rings) => rings.fits_grid(grid),
            Shape::MultiPolygon(polygons) => polygons.fits_grid(grid),
        }
    }
}
