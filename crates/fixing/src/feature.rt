//! Features of shapes that are fixed.
ghost use Rattle.shapes.specs.Ids.{HasI64, HasI64-prop};

use shapes::{Id, Props, Shape};

/// A feature of which the shapes are fixed: each of them is a feature of its own, with this id and these properties.
/// A number that is its id has 64 bits.
#[derive(Drop)]
pub struct FixedFeature {
    pub id: Id,
    pub props: Props,
    pub shapes: Vec<Shape>,
    pub ghost bits: { HasI64 id } by { HasI64-prop id },
}
