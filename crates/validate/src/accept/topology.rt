//! The topology of arcs and layers as a text has them.
ghost use Rattle.lines.specs.Turned.{list_cmp};
ghost use Rattle.shapes.specs.Maps.{Layers};
ghost use Rattle.std.specs.Prelude.{◌≡◌, ◌↔◌, ◌<◌, ◌^◌, length, true, IfOk};
ghost use Rattle.validate.specs.Accept.Laws.{HaveI64};
ghost use Rattle.validate.specs.Accept.Accepted.{IfNot, IfWhole, IsWhole};
ghost use Rattle.validate.specs.Accept.Topology as spec;
ghost use Rattle.validate.specs.Accept.Topology.{AreValidInOrder};
ghost use Rattle.theory.specs.Arcs.{Ascends};
ghost use Rattle.topo.specs.OfMap.{ArePartsOf, IsOf};

use crate::accept::order::in_order;
use crate::accept::{line_ends, lists_are_valid};
use crate::{arcs_in_order, free_loops, is_noded};
use chains::table::ArcTable;
use faults::OutOfMemory;
use grid::Grid;
use grid::pos::Pos;
use lines::items::Items;
use std::alloc::Global;
use topo::{Layer, Topology};

/// What comes of arcs and layers as a text has them.
#[derive(Drop)]
pub enum Accepted {
    /// The topology, where they are in order.
    Whole(Topology),
    /// The arcs and the layers, as they were, where they don't.
    Not {
        arcs: Vec<Items<Pos>>,
        layers: Vec<Layer>,
    },
}

/// The table of arcs in order, of which those are free loops at whose seam no other arc ends and none of
/// the layers' lines.
fn table_of(alloc: Global, arcs: Vec<Items<Pos>>, layers: &[Layer]) -> Result<ArcTable, OutOfMemory>
    requires { Ascends list_cmp arcs.items }
    ensures { IfOk result (λ t. t ≡ spec.table_of arcs.items layers.now) }
{
    let ends = line_ends(alloc, &arcs.as_slice(), layers)?;
    let free = free_loops(alloc, &arcs, ends)?;
    match ArcTable::from_sorted(alloc, arcs, &free)? {
        Some(table) => Ok(table),
        None => unreachable!(),
    }
}

/// Whether layers are in order over the arcs of a table, which are in order. The lists are validated first,
/// by the ends of the arcs alone, and only where they are valid all other vertices are.
fn are_valid_in_order(
    alloc: Global,
    table: &ArcTable,
    layers: &[Layer],
) -> Result<bool, OutOfMemory>
    requires sorted { Ascends list_cmp table.now.arcs }
    requires ids { HaveI64 layers.now }
    ensures { IfOk result (λ b. (b ≡ true) ↔ AreValidInOrder table.now layers.now) }
{
    if !lists_are_valid(alloc, table, layers)? {
        return Ok(false);
    }
    if !is_noded(alloc, table)? {
        return Ok(false);
    }
    in_order(alloc, table, layers)
}

/// The topology of a table of arcs in order and of layers, where these are in order over it.
fn of_table(
    alloc: Global,
    grid: Grid,
    table: ArcTable,
    layers: Vec<Layer>,
) -> Result<Accepted, OutOfMemory>
    requires sorted { Ascends list_cmp table.arcs }
    requires ids { HaveI64 layers.items }
    ensures grid { IfOk result (λ o. IfWhole o (λ t. t.grid ≡ grid)) }
    ensures arcs { IfOk result (λ o. IfWhole o (λ t. t.arcs ≡ table)) }
    ensures layers { IfOk result (λ o. IfWhole o (λ t. t.layers ≡ layers.items)) }
    ensures of_map { IfOk result (λ o. IfWhole o (λ t. (m : Layers) → ArePartsOf m t.arcs t.layers → IsOf m t)) }
    ensures few { IfOk result (λ o. IfWhole o (λ t. length t.arcs.arcs < 2 ^ 63)) }
    ensures stand { IfOk result (λ o. IsWhole o ↔ AreValidInOrder table layers.items) }
    ensures back { IfOk result (λ o. IfNot o (λ cs ls. (cs ≡ table.arcs) × (ls ≡ layers.items))) }
{
    if !are_valid_in_order(alloc, &table, &layers)? {
        let arcs = table.into_arcs(alloc)?;
        return Ok(Accepted::Not { arcs, layers });
    }
    Ok(Accepted::Whole(Topology::from_parts(grid, table, layers)))
}

/// The topology of arcs and layers as a text has them, where they are in order: then they are those
/// of the map that the layers stitch to, and nothing is stitched or built again. Where they aren't,
/// or not in order, they are given back as they were. What takes no memory is asked first: whether the
/// arcs are in order.
///
/// # Errors
/// Where memory is refused.
pub fn take(
    alloc: Global,
    grid: Grid,
    arcs: Vec<Items<Pos>>,
    layers: Vec<Layer>,
) -> Result<Accepted, OutOfMemory>
    requires { HaveI64 layers.items }
    ensures grid { IfOk result (λ o. IfWhole o (λ t. t.grid ≡ grid)) }
    ensures arcs { IfOk result (λ o. IfWhole o (λ t. t.arcs ≡ spec.table_of arcs.items layers.items)) }
    ensures layers { IfOk result (λ o. IfWhole o (λ t. t.layers ≡ layers.items)) }
    ensures of_map { IfOk result (λ o. IfWhole o (λ t. (m : Layers) → ArePartsOf m t.arcs t.layers → IsOf m t)) }
    ensures few { IfOk result (λ o. IfWhole o (λ t. length t.arcs.arcs < 2 ^ 63)) }
    ensures stand { IfOk result (λ o. IsWhole o ↔ AreValidInOrder (spec.table_of arcs.items layers.items) layers.items) }
    ensures back { IfOk result (λ o. IfNot o (λ cs ls. (cs ≡ arcs.items) × (ls ≡ layers.items))) }
{
    if !arcs_in_order(&arcs) {
        return Ok(Accepted::Not { arcs, layers });
    }
    let table = table_of(alloc, arcs, &layers)?;
    of_table(alloc, grid, table, layers)
}
