//! The box around positions.
ghost use Rattle.grid.specs.Place.{IsTransform, Transform, absolute as absolute_number};
ghost use Rattle.std.specs.Int.{int_min, int_max};
ghost use Rattle.std.specs.Prelude.{◌≡◌, ◌<◌, ◌^◌, Some, None, ◌++◌, length};
ghost use Rattle.theory.specs.Lists.{gathered, joined};
ghost use Rattle.topo.specs.Box.{widened_at, numbers_of, box_by, box_of, AreGridNumbers};
ghost use Rattle.topo.specs.Kept.{kept_box};
ghost use Rattle.topo.specs.Points.{geometry_points, layer_points};

use crate::geom::Geom;
use crate::topology::Layer;
use chains::table::ArcTable;
use grid::{Grid, Pos};

/// Least x, least y, greatest x and greatest y: a box widened in grid numbers, and converted once.
type Corners = (i64, i64, i64, i64);

fn wider(corners: Corners, x: i64, y: i64) -> Corners
    ensures west { result.0 ≡ int_min corners.0 x }
    ensures south { result.1 ≡ int_min corners.1 y }
    ensures east { result.2 ≡ int_max corners.2 x }
    ensures north { result.3 ≡ int_max corners.3 y }
{
    (
        corners.0.min(x),
        corners.1.min(y),
        corners.2.max(x),
        corners.3.max(y),
    )
}

fn widen_corners(corners: Option<Corners>, x: i64, y: i64) -> Corners
    ensures { result ≡ widened_at corners (x, y) }
{
    match corners {
        None => (x, y, x, y),
        Some(corners) => wider(corners, x, y),
    }
}

fn widened_by(corners: Option<Corners>, p: Pos) -> Corners
    ensures { result ≡ widened_at corners (numbers_of p) }
{
    widen_corners(corners, p.x(), p.y())
}

fn around(mut corners: Option<Corners>, positions: &[Pos]) -> Option<Corners>
    ensures { result ≡ box_by numbers_of corners positions.now }
{
    for p in positions {
        corners = Some(widened_by(corners, *p));
    }
    corners
}

fn around_arcs(arcs: &ArcTable) -> Option<Corners>
    ensures corners { result ≡ box_by numbers_of None (joined arcs.now.arcs) }
    ensures few { length arcs.now.arcs < 2 ^ 63 }
{
    let mut corners = None;
    for arc in arcs.iter() {
        corners = around(corners, arc);
    }
    corners
}

fn around_geometries(mut corners: Option<Corners>, geometries: &[Geom]) -> Option<Corners>
    ensures { result ≡ box_by numbers_of corners (gathered geometry_points geometries.now) }
{
    for geometry in geometries {
        corners = around(corners, geometry.body.points());
    }
    corners
}

/// The box of grid numbers around the arcs and the points of the layers.
fn around_all(arcs: &ArcTable, layers: &[Layer]) -> Option<Corners>
    ensures corners { result ≡ box_by numbers_of None (joined arcs.now.arcs ++ gathered layer_points layers.now) }
    ensures few { length arcs.now.arcs < 2 ^ 63 }
{
    let mut corners = around_arcs(arcs);
    for layer in layers {
        corners = around_geometries(corners, layer.geometries());
    }
    corners
}

fn absolute(grid: &Grid, corners: Corners) -> Corners
    requires { AreGridNumbers corners }
    ensures west { result.0 ≡ absolute_number grid.now.x corners.0 }
    ensures south { result.1 ≡ absolute_number grid.now.y corners.1 }
    ensures east { result.2 ≡ absolute_number grid.now.x corners.2 }
    ensures north { result.3 ≡ absolute_number grid.now.y corners.3 }
    ensures limits { IsTransform grid.now }
{
    let (x, y) = (grid.x_axis(), grid.y_axis());
    (
        x.to_absolute(corners.0),
        y.to_absolute(corners.1),
        x.to_absolute(corners.2),
        y.to_absolute(corners.3),
    )
}

/// The box around the arcs and the points of the layers, in absolute numbers; None where there are none.
/// 64 bits number the arcs of a table.
pub(crate) fn bounds(grid: &Grid, arcs: &ArcTable, layers: &[Layer]) -> Option<Corners>
    ensures corners { result ≡ box_of grid.now (joined arcs.now.arcs ++ gathered layer_points layers.now) }
    ensures few { length arcs.now.arcs < 2 ^ 63 }
{
    match around_all(arcs, layers) {
        Some(corners) => Some(absolute(grid, corners)),
        None => None,
    }
}

/// What a topology keeps of its box: the box that was found, or that it is sought when it is asked for.
#[derive(Clone, Copy)]
pub(crate) enum Bbox {
    Known(Option<Corners>),
    Unknown,
}

impl Bbox {
    /// What is kept where no position is walked: with no arcs and no layers there is no box, and any
    /// other one is sought.
    pub(crate) fn unknown_box(arcs: &ArcTable, layers: &[Layer]) -> Bbox
        ensures kept { (g : Transform) → kept_box g arcs.now layers.now result ≡ box_of g (joined arcs.now.arcs ++ gathered layer_points layers.now) }
        ensures few { length arcs.now.arcs < 2 ^ 63 }
    {
        if arcs.len() == 0 && layers.is_empty() {
            return Bbox::Known(None);
        }
        Bbox::Unknown
    }
}
