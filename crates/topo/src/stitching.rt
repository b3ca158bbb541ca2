//! Features put together from arcs.
ghost use Rattle.grid.specs.declared.pos.Pos.{Pos as index};
ghost use Rattle.shapes.specs.declared.feature.Feature as features;
ghost use Rattle.shapes.specs.Shapes as shapes;
ghost use Rattle.std.specs.Prelude.{◌≡◌, IfOk, List};
ghost use Rattle.theory.specs.Lists.{Pairwise};
ghost use Rattle.topo.specs.Features.{HasFeature, IsFeatureOf, IsKnownOf, IsLineOf, IsRingOf, IsShapeOf};
ghost use Rattle.topo.specs.Walked.{walked};

use crate::geom::{Body, Geom, copy_positions};
use crate::walk::Walk;
use chains::table::{ArcRef, ArcTable};
use faults::OutOfMemory;
use grid::Pos;
use lines::items::Items;
use lines::line::Line;
use lines::ring::Ring;
use shapes::feature::Feature;
use shapes::shape::Shape;
use std::alloc::Global;

/// The positions of a list of arcs, in a vector of their own.
fn walked_positions(
    alloc: Global,
    arcs: &ArcTable,
    refs: &[ArcRef],
) -> Result<Vec<Pos>, OutOfMemory>
    ensures { IfOk result (λ v. v.items ≡ walked arcs.now.arcs refs.now) }
{
    let mut positions = Vec::new(alloc);
    for p in Walk::over(arcs, refs) {
        positions.push(*p)?;
    }
    Ok(positions)
}

/// What used arcs stitch to, or lists of them.
trait Stitch: Sized + Drop {
    /// What it is stitched from.
    type Used;

    ghost stitches_by: { List (List index) → Self → Self.Used → Type 0 };

    /// What stitches by these, where anything does.
    fn stitch(alloc: Global, arcs: &ArcTable, used: &Self::Used) -> Result<Self, OutOfMemory>
        requires { (s : Self) × stitches_by arcs.now.arcs s used.now }
        ensures { IfOk result (λ made. (s : Self) → stitches_by arcs.now.arcs s used.now → made ≡ s) };
}

impl Stitch for Line {
    type Used = Items<ArcRef>;

    ghost stitches_by = { IsLineOf };

    fn stitch(alloc: Global, arcs: &ArcTable, used: &Self::Used) -> Result<Line, OutOfMemory> {
        Ok(Line::from_sound(walked_positions(alloc, arcs, used.as_slice())?))
    }
}

impl Stitch for Ring {
    type Used = Items<ArcRef>;

    ghost stitches_by = { IsRingOf };

    fn stitch(alloc: Global, arcs: &ArcTable, used: &Self::Used) -> Result<Ring, OutOfMemory> {
        Ok(Ring::from_sound(walked_positions(alloc, arcs, used.as_slice())?))
    }
}

fn each_stitched<S: Stitch>(
    alloc: Global,
    arcs: &ArcTable,
    lists: &[S::Used],
) -> Result<Vec<S>, OutOfMemory>
    requires { (ss : List S) × Pairwise (S.stitches_by arcs.now.arcs) ss lists.now }
    ensures { IfOk result (λ made. (ss : List S) → Pairwise (S.stitches_by arcs.now.arcs) ss lists.now → made.items ≡ ss) }
{
    let mut made = Vec::with_capacity(alloc, lists.len())?;
    for used in lists {
        made.push(S::stitch(alloc, arcs, used)?)?;
    }
    Ok(made)
}

impl<S: Stitch> Stitch for Items<S> {
    type Used = Items<S::Used>;

    ghost stitches_by = { λ arcs. Pairwise (S.stitches_by arcs) };

    fn stitch(alloc: Global, arcs: &ArcTable, used: &Self::Used) -> Result<Items<S>, OutOfMemory> {
        Ok(Items::from_vec(each_stitched(alloc, arcs, used.as_slice())?))
    }
}

fn stitched_shape(alloc: Global, arcs: &ArcTable, body: &Body) -> Result<Shape, OutOfMemory>
    requires { (s : shapes.Shape) × IsShapeOf arcs.now.arcs s body.now }
    ensures { IfOk result (λ made. (s : shapes.Shape) → IsShapeOf arcs.now.arcs s body.now → made ≡ s) }
{
    match body {
        Body::Null => Ok(Shape::Null),
        Body::Point(p) => Ok(Shape::Point(*p)),
        Body::MultiPoint(ps) => Ok(Shape::MultiPoint(copy_positions(alloc, ps.as_slice())?)),
        Body::Line(used) => Ok(Shape::Line(Line::stitch(alloc, arcs, used)?)),
        Body::MultiLine(lists) => Ok(Shape::MultiLine(Items::stitch(alloc, arcs, lists)?)),
        Body::Polygon(lists) => Ok(Shape::Polygon(Items::stitch(alloc, arcs, lists)?)),
        Body::MultiPolygon(lists) => Ok(Shape::MultiPolygon(Items::stitch(alloc, arcs, lists)?)),
    }
}

/// The feature that a geometry by these arcs stitches to: the geometry's id and properties, and
/// its lines and rings put together from the arcs (TopoJSON section 2.1.4).
///
/// # Errors
/// Where memory is refused.
pub fn feature(alloc: Global, arcs: &ArcTable, geometry: &Geom) -> Result<Feature, OutOfMemory>
    requires { (f : features.Feature) × IsFeatureOf arcs.now.arcs f geometry.now }
    ensures { IfOk result (λ made. (f : features.Feature) → IsFeatureOf arcs.now.arcs f geometry.now → made ≡ f) }
{
    let id = geometry.id.copy(alloc)?;
    let props = geometry.props.copy(alloc)?;
    let shape = stitched_shape(alloc, arcs, &geometry.body)?;
    Ok(Feature { id, props, shape })
}

/// The feature of a geometry, which may be known already: then it is not stitched again.
///
/// # Errors
/// Where memory is refused.
pub fn known_feature(
    alloc: Global,
    arcs: &ArcTable,
    geometry: &Geom,
    known: Option<Feature>,
) -> Result<Feature, OutOfMemory>
    requires there { HasFeature arcs.now.arcs geometry.now }
    requires known { IsKnownOf arcs.now.arcs geometry.now known }
    ensures { IfOk result (λ f. IsFeatureOf arcs.now.arcs f geometry.now) }
{
    match known {
        Some(made) => Ok(made),
        None => feature(alloc, arcs, geometry),
    }
}
