//! The grid of whole numbers of units.
ghost use Rattle.grid.specs.Place.{IsScale};
ghost use Rattle.rounded_maps.specs.Written.{of_units};
ghost use Rattle.std.specs.Prelude.{◌≡◌, ◌↔◌, IfSome, IsSome, pos};

use grid::Grid;

/// The grid of steps that are so many units each: their whole numbers are scaled by it, and not translated. None where no
/// grid has this scale.
pub fn grid_of_units(step: u64) -> Option<Grid>
    ensures given { IfSome result (λ grid. grid ≡ of_units (pos step)) }
    ensures exact { IsSome result ↔ IsScale (pos step) }
{
    match i64::try_from(step) {
        Ok(step) => Grid::new(step, step, 0, 0),
        Err(_) => None,
    }
}
