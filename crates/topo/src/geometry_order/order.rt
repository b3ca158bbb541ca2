//! The order of geometries over a table of arcs.
ghost use Rattle.topo.specs.GeometryOrder.Least.{IsLeastOf, least_of};
ghost use Rattle.topo.specs.GeometryOrder.Noded.{AreNoded};
ghost use Rattle.topo.specs.GeometryOrder.Noted.{IsRecordedFor};
ghost use Rattle.topo.specs.GeometryOrder.Sorting.{AreSortedOnce};
ghost use Rattle.grid.specs.declared.pos.Pos.{Pos};
ghost use Rattle.std.specs.Prelude.{◌≡◌, IfOk, List};
ghost use Rattle.topo.specs.Features.{HasFeature};
ghost use Rattle.topo.specs.GeometryOrder.{geometry_cmp};

use crate::geometry_order::bodies::body_order;
use crate::geometry_order::least::{LeastSteps, least_of_arcs};
use crate::geometry_order::lists::Ordered;
use crate::geometry_order::sorting::sorted_by_keys;
use crate::{Geom, kind_order};
use chains::table::ArcTable;
use faults::OutOfMemory;
use std::alloc::Global;
use std::cmp::Ordering;

/// The order of the features of geometries over one table of arcs. No feature is stitched. The least step
/// along each arc is noted once two geometries tie by id, properties and kind, and differ in their arcs.
#[derive(Drop)]
pub struct GeometryOrder {
    least: Option<Vec<Option<LeastSteps>>>,
}

/// The least steps of the arcs, where they may be noted already.
fn find_least(
    alloc: Global,
    arcs: &ArcTable,
    least: Option<Vec<Option<LeastSteps>>>,
) -> Result<Vec<Option<LeastSteps>>, OutOfMemory>
    requires { IsLeastOf arcs.now.arcs least }
    ensures { IfOk result (λ v. v.items ≡ least_of arcs.now.arcs) }
{
    match least {
        Some(least) => Ok(least),
        None => least_of_arcs(alloc, arcs),
    }
}

impl GeometryOrder {
    /// The order over any one table. Nothing is noted yet.
    pub fn new() -> GeometryOrder
        ensures { (arcs : List (List Pos)) → IsRecordedFor arcs result }
    {
        GeometryOrder { least: None }
    }

    /// The order of the features that two geometries stitch to: by id, properties, kind and positions.
    /// The arcs are those of each call before.
    ///
    /// # Errors
    /// Where memory is refused.
    pub fn order(
        &mut self,
        alloc: Global,
        arcs: &ArcTable,
        geometry: &Geom,
        other: &Geom,
    ) -> Result<Ordering, OutOfMemory>
        requires noded { AreNoded arcs.now.arcs }
        requires recorded { IsRecordedFor arcs.now.arcs self.old }
        requires there { HasFeature arcs.now.arcs geometry.now }
        requires other_there { HasFeature arcs.now.arcs other.now }
        ensures recorded { IsRecordedFor arcs.now.arcs self.new }
        ensures order { IfOk result (λ o. o ≡ geometry_cmp arcs.now.arcs geometry.now other.now) }
    {
        let order = kind_order(geometry, other);
        if order.is_ne() {
            return Ok(order);
        }
        if geometry.body == other.body {
            return Ok(Ordering::Equal);
        }
        let least = find_least(alloc, arcs, self.least.take())?;
        let view = Ordered {
            arcs,
            least: &least,
        };
        let found = body_order(&view, &geometry.body, &other.body);
        self.least = Some(least);
        Ok(found)
    }

    /// Geometries sorted by the order of the features that they stitch to, those that are equal once. Each
    /// list of used arcs is gone through once, and compared then as far as it agrees with another: rings
    /// are not turned at each comparison. The arcs are those of each call before.
    ///
    /// # Errors
    /// Where memory is refused.
    pub fn sort(
        &mut self,
        alloc: Global,
        arcs: &ArcTable,
        geometries: Vec<Geom>,
    ) -> Result<Vec<Geom>, OutOfMemory>
        requires recorded { IsRecordedFor arcs.now.arcs self.old }
        ensures recorded { IsRecordedFor arcs.now.arcs self.new }
        ensures sorted { IfOk result (λ v. AreSortedOnce arcs.now.arcs geometries.items v.items) }
    {
        let least = find_least(alloc, arcs, self.least.take())?;
        let view = Ordered {
            arcs,
            least: &least,
        };
        let mut sorted = sorted_by_keys(alloc, &view, geometries)?;
        sorted.dedup();
        self.least = Some(least);
        Ok(sorted)
    }
}
