//! Geometries whose lists of positions need not be lines or rings yet.
use grid::pos::Pos;
use lines::items::Items;
use shapes::form::Form;

/// The positions of a geometry by its type (RFC 7946, sections 3.1.2 to 3.1.7), as a map has them: lines may be too short or
/// use a segment twice, and rings may be open. A ring's list ends with its first position if it is closed. A point without
/// a position is null.
pub type RawShape = Form<Items<Pos>, Items<Pos>>;

/// The geometry of a feature.
#[derive(Drop)]
pub enum RawGeometry {
    One(RawShape),
    /// The shapes of a GeometryCollection (RFC 7946, section 3.1.8), with those of the collections inside it, in their order.
    Collection(Vec<RawShape>),
}
