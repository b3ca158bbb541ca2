//! The vertices of features, each with the number of its feature.
ghost use Rattle.shapes.specs.Forms.{lines_in, rings_in};
ghost use Rattle.snapping.specs.NearlyShared.Uses.{shapes_uses, line_uses, ring_uses, shape_uses};
ghost use Rattle.compare.specs.Quality.Uses.{places_uses, use_cmp};
ghost use Rattle.std.specs.List.Sorted.{IsPermutation};
ghost use Rattle.std.specs.Prelude.{◌≡◌, ◌+◌, ◌++◌, [], length, IfOk, OnOk};
ghost use Rattle.theory.specs.Lists.{gathered};

use crate::nearly_shared::index::VertexIndex;
use compare::quality::uses::add_places;
use compare::quality::vertex::VertexUse;
use shapes::shape::Shape;
use std::alloc::{AllocError, Global};

/// The vertices of features, each with the number of its feature.
#[derive(Drop)]
pub struct Vertices {
    uses: Vec<VertexUse>,
    /// How many features there are.
    features: usize,
}

/// Notes that a feature has the vertices of its lines.
fn add_lines(uses: &mut Vec<VertexUse>, feature: usize, shape: &Shape) -> Result<(), AllocError>
    ensures { OnOk result (uses.new.items ≡ uses.old.items ++ gathered (line_uses feature) (lines_in shape.now)) }
{
    for line in shape.lines() {
        add_places(uses, feature, line.positions())?;
    }
    Ok(())
}

/// Notes that a feature has the vertices of its rings.
fn add_rings(uses: &mut Vec<VertexUse>, feature: usize, shape: &Shape) -> Result<(), AllocError>
    ensures { OnOk result (uses.new.items ≡ uses.old.items ++ gathered (ring_uses feature) (rings_in shape.now)) }
{
    for ring in shape.rings() {
        add_places(uses, feature, ring.vertices())?;
    }
    Ok(())
}

/// Notes that a feature has the vertices of its shape.
pub(crate) fn add_uses_of_shape(
    uses: &mut Vec<VertexUse>,
    feature: usize,
    shape: &Shape,
) -> Result<(), AllocError>
    ensures { OnOk result (uses.new.items ≡ uses.old.items ++ shape_uses feature shape.now) }
{
    add_places(uses, feature, shape.points())?;
    add_lines(uses, feature, shape)?;
    add_rings(uses, feature, shape)
}

impl Vertices {
    /// No vertices.
    pub fn new(alloc: Global) -> Vertices
        ensures uses { result.uses.items ≡ [] }
        ensures features { result.features ≡ 0 }
    {
        Vertices {
            uses: Vec::new(alloc),
            features: 0,
        }
    }

    /// Adds the vertices of a shape, which is a feature of its own.
    fn add_shape(&mut self, shape: &Shape) -> Result<(), AllocError>
        ensures uses { OnOk result (self.new.uses.items ≡ self.old.uses.items ++ shape_uses self.old.features shape.now) }
        ensures features { OnOk result (self.new.features ≡ self.old.features + 1) }
    {
        add_uses_of_shape(&mut self.uses, self.features, shape)?;
        match self.features.checked_add(1) {
            Some(features) => {
                self.features = features;
                Ok(())
            }
            None => Err(AllocError),
        }
    }

    /// Adds the vertices of shapes, each of which is a feature of its own, numbered on from those before.
    pub fn add(&mut self, shapes: &[Shape]) -> Result<(), AllocError>
        ensures uses { OnOk result (self.new.uses.items ≡ self.old.uses.items ++ shapes_uses self.old.features shapes.now) }
        ensures features { OnOk result (self.new.features ≡ self.old.features + length shapes.now) }
    {
        for shape in shapes {
            self.add_shape(shape)?;
        }
        Ok(())
    }

    /// The index of the vertices, made in time n log n.
    pub fn into_index(self) -> VertexIndex
        ensures { IsPermutation self.uses.items result }
    {
        VertexIndex::of(self.uses)
    }
}
