//! Shapes whose positions are moved to where their vertices are joined.
ghost use Rattle.grid.specs.declared.pos.Pos as position;
ghost use Rattle.shapes.specs.Forms.{form_map};
ghost use Rattle.snapping.specs.NearlyShared.Joined.{target_in};
ghost use Rattle.snapping.specs.NearlyShared.Moved.{Moves, moved_line, moved_ring, moved_shape};
ghost use Rattle.std.specs.Prelude.{◌≡◌, ◌↔◌, IfOk, IsTrue, List, map};

use crate::nearly_shared::clusters::Clusters;
use crate::nearly_shared::vertices::add_uses_of_shape;
use faults::OutOfMemory;
use fixing::RawShape;
use grid::pos::Pos;
use lines::items::Items;
use lines::line::Line;
use lines::ring::Ring;
use shapes::form_map::Become;
use shapes::shape::Shape;
use std::alloc::Global;

impl Clusters {
    /// Whether a vertex of a shape is moved.
    pub fn moves_any(&self, alloc: Global, shape: &Shape) -> Result<bool, OutOfMemory>
        ensures { IfOk result (λ b. IsTrue b ↔ Moves (target_in self.now) shape.now) }
    {
        let mut uses = Vec::new(alloc);
        add_uses_of_shape(&mut uses, 0, shape)?;
        for used in &uses {
            if self.target(used.at) != used.at {
                return Ok(true);
            }
        }
        Ok(false)
    }
}

/// Positions, each where it is moved to.
fn join_positions(
    alloc: Global,
    clusters: &Clusters,
    positions: &[Pos],
) -> Result<Vec<Pos>, OutOfMemory>
    ensures { IfOk result (λ v. v.items ≡ map (target_in clusters.now) positions.now) }
{
    let mut moved = Vec::with_capacity(alloc, positions.len())?;
    for position in positions {
        moved.push(clusters.target(*position))?;
    }
    Ok(moved)
}

/// Lines and rings, each position where it is moved to.
#[derive(Drop)]
struct Joining<'a> {
    clusters: &'a Clusters,
}

impl<'a> Become<Line> for Joining<'a> {
    type Made = Items<Pos>;

    ghost Seen = { List position.Pos };

    ghost seen = { λ list. list };

    ghost becomes = { λ j line. moved_line (target_in j.clusters.now) line };

    fn make(&self, alloc: Global, old: &Line) -> Result<Items<Pos>, OutOfMemory> {
        Ok(Items::from_vec(join_positions(alloc, self.clusters, old.positions())?))
    }
}

impl<'a> Become<Ring> for Joining<'a> {
    type Made = Items<Pos>;

    ghost Seen = { List position.Pos };

    ghost seen = { λ list. list };

    ghost becomes = { λ j ring. moved_ring (target_in j.clusters.now) ring };

    /// A ring's positions, of which the last repeats the first.
    fn make(&self, alloc: Global, old: &Ring) -> Result<Items<Pos>, OutOfMemory> {
        let mut moved = join_positions(alloc, self.clusters, old.vertices())?;
        if let Some(first) = moved.first().copied() {
            moved.push(first)?;
        }
        Ok(Items::from_vec(moved))
    }
}

/// A shape with the points that it has, and the positions of its lines and rings where they are moved to.
fn join_parts(alloc: Global, shape: &Shape, clusters: &Clusters) -> Result<RawShape, OutOfMemory>
    ensures { IfOk result (λ raw. raw ≡ form_map (moved_line (target_in clusters.now)) (moved_ring (target_in clusters.now)) shape.now) }
{
    let joining = Joining { clusters };
    let made = shape.try_map(alloc, &joining, &joining)?;
    Ok(made)
}

/// A shape with each position where it is moved to, to be fixed again: lines and rings may be folded or too short.
pub fn join_shape(alloc: Global, shape: Shape, clusters: &Clusters) -> Result<RawShape, OutOfMemory>
    ensures { IfOk result (λ raw. raw ≡ moved_shape (target_in clusters.now) shape) }
{
    match &shape {
        Shape::Point(position) => Ok(RawShape::Point(clusters.target(*position))),
        Shape::MultiPoint(positions) => {
            let moved = join_positions(alloc, clusters, positions.as_slice())?;
            Ok(RawShape::MultiPoint(Items::from_vec(moved)))
        }
        _ => join_parts(alloc, &shape, clusters),
    }
}
