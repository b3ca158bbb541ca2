//! Whether all positions fit a grid.
ghost use Rattle.grid.specs.Fits.{Fits};
ghost use Rattle.grid.specs.Place.{Transform};
ghost use Rattle.lines.specs.Seen.{positions_of, vertices_of};
ghost use Rattle.std.specs.List.{AllByRecursion};
ghost use Rattle.std.specs.Prelude.{◌↔◌, IsTrue};

use grid::pos::Pos;
use grid::transform::Grid;
use lines::items::Items;
use lines::line::Line;
use lines::ring::Ring;

/// What has positions that may fit a grid.
pub(crate) trait FitsGrid {
    // Each position of the value fits.
    ghost fits_on: { Transform → Self → Type 0 };

    fn fits_grid(&self, grid: &Grid) -> bool
        ensures { IsTrue result ↔ fits_on grid.now self.now };
}

impl FitsGrid for Pos {
    ghost fits_on = { Fits };

    fn fits_grid(&self, grid: &Grid) -> bool {
        grid.fits(*self)
    }
}

impl FitsGrid for Line {
    ghost fits_on = { λ g l. AllByRecursion (Fits g) (positions_of l) };

    fn fits_grid(&self, grid: &Grid) -> bool {
        each_fits(grid, self.positions())
    }
}

impl FitsGrid for Ring {
    ghost fits_on = { λ g r. AllByRecursion (Fits g) (vertices_of r) };

    fn fits_grid(&self, grid: &Grid) -> bool {
        each_fits(grid, self.vertices())
    }
}

impl<T: FitsGrid> FitsGrid for Items<T> {
    ghost fits_on = { λ g ts. AllByRecursion (T.fits_on g) ts };

    fn fits_grid(&self, grid: &Grid) -> bool {
        each_fits(grid, self.as_slice())
    }
}

fn each_fits<T: FitsGrid>(grid: &Grid, items: &[T]) -> bool
    ensures { IsTrue result ↔ AllByRecursion (T.fits_on grid.now) items.now }
{
    for item in items {
        if !item.fits_grid(grid) {
            return false;
        }
    }
    true
}
