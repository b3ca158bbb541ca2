//! Geometries of a topology: what a feature keeps, with lists of used arcs in place of positions.
ghost use Rattle.std.specs.Prelude.{◌≡◌, IfOk};

use chains::table::ArcRef;
use faults::OutOfMemory;
use grid::pos::Pos;
use lines::items::Items;
use shapes::copying::CopyIn;
use shapes::form::Form;
use shapes::props::Props;
use shapes::shape::Id;
use std::alloc::Global;

/// What a geometry is made of (TopoJSON section 2.2).
///
/// Points hold grid positions. A line, and a ring, is the list of the arcs that stitch to it.
pub type Body = Form<Items<ArcRef>, Items<ArcRef>>;

/// A geometry of a topology: a feature's id and properties, and its body.
///
/// Geometries compare by ids, properties and bodies, and bodies by their kinds and lists. This is not the
/// order of a layer, which is that of the features that its geometries stitch to.
#[derive(PartialEq, Eq, PartialOrd, Ord, Drop, Debug)]
pub struct Geom {
    /// The feature's id.
    pub id: Id,
    /// The feature's properties.
    pub props: Props,
    /// The feature's shape by arcs.
    pub body: Body,
}

impl Geom {
    /// An equal geometry.
    pub fn copy(&self, alloc: Global) -> Result<Geom, OutOfMemory>
        ensures { IfOk result (λ g. g ≡ self.now) }
    {
        let id = self.id.copy(alloc)?;
        let props = self.props.copy(alloc)?;
        let body = self.body.copy(alloc)?;
        Ok(Geom { id, props, body })
    }
}

impl CopyIn for Geom {
    fn copy_in(&self, alloc: Global) -> Result<Geom, OutOfMemory> {
        self.copy(alloc)
    }
}

pub(crate) fn copy_positions(alloc: Global, positions: &[Pos]) -> Result<Items<Pos>, OutOfMemory>
    ensures { IfOk result (λ v. v ≡ positions.now) }
{
    Ok(Items::from_vec(positions.to_vec(alloc)?))
}
