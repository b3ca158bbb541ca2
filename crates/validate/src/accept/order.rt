//! Whether layers are in order: their names, and in each the features of its geometries.
ghost use Rattle.topo.specs.GeometryOrder.Noded.{AreNoded};
ghost use Rattle.topo.specs.GeometryOrder.Noted.{IsRecordedFor};
ghost use Rattle.std.specs.Prelude.{◌≡◌, ◌↔◌, true, IfOk};
ghost use Rattle.validate.specs.Accept.Order.{InOrder, each_rises, name_cmp, rises};
ghost use Rattle.topo.specs.GeometryOrder.{HaveFeatures, LayersHaveFeatures, geometry_cmp};

use chains::table::ArcTable;
use faults::OutOfMemory;
use std::alloc::Global;
use std::cmp::Ordering;
use topo::geometry_order::GeometryOrder;
use topo::{Geom, Layer};

fn name_order(layer: &Layer, other: &Layer) -> Ordering
    ensures { result ≡ name_cmp layer.now other.now }
{
    layer.name().cmp(other.name())
}

/// Whether the name of each layer comes before the next one's.
fn names_rise(layers: &[Layer]) -> bool
    ensures { result ≡ rises name_cmp layers.now }
{
    let Some((first, others)) = layers.split_first() else {
        return true;
    };
    let mut before = first;
    for layer in others {
        if !name_order(before, layer).is_lt() {
            return false;
        }
        before = layer;
    }
    true
}

/// Whether the feature of each geometry comes before the next one's.
fn geometries_rise(
    alloc: Global,
    table: &ArcTable,
    order: &mut GeometryOrder,
    geometries: &[Geom],
) -> Result<bool, OutOfMemory>
    requires noded { AreNoded table.now.arcs }
    requires recorded { IsRecordedFor table.now.arcs order.old }
    requires there { HaveFeatures table.now.arcs geometries.now }
    ensures recorded { IsRecordedFor table.now.arcs order.new }
    ensures rise { IfOk result (λ b. b ≡ rises (geometry_cmp table.now.arcs) geometries.now) }
{
    let Some((first, others)) = geometries.split_first() else {
        return Ok(true);
    };
    let mut before = first;
    for geometry in others {
        if !order.order(alloc, table, before, geometry)?.is_lt() {
            return Ok(false);
        }
        before = geometry;
    }
    Ok(true)
}

/// Whether the geometries of each layer are in order.
fn each_rises(alloc: Global, table: &ArcTable, layers: &[Layer]) -> Result<bool, OutOfMemory>
    requires noded { AreNoded table.now.arcs }
    requires there { LayersHaveFeatures table.now.arcs layers.now }
    ensures { IfOk result (λ b. b ≡ each_rises table.now.arcs layers.now) }
{
    let mut order = GeometryOrder::new();
    for layer in layers {
        if !geometries_rise(alloc, table, &mut order, layer.geometries())? {
            return Ok(false);
        }
    }
    Ok(true)
}

/// Whether layers are in order, where the arcs are noded and each geometry stitches to a feature: the
/// names ascend by their bytes, and in each layer the features of its geometries ascend, so that none is
/// there twice.
pub(crate) fn in_order(
    alloc: Global,
    table: &ArcTable,
    layers: &[Layer],
) -> Result<bool, OutOfMemory>
    requires noded { AreNoded table.now.arcs }
    requires there { LayersHaveFeatures table.now.arcs layers.now }
    ensures { IfOk result (λ b. (b ≡ true) ↔ InOrder table.now.arcs layers.now) }
{
    if !names_rise(layers) {
        return Ok(false);
    }
    each_rises(alloc, table, layers)
}
