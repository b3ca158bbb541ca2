//! Whether the lists of used arcs of layers are valid over a table of arcs.
ghost use Rattle.validate.specs.Validity.{AreValidLists};
ghost use Rattle.std.specs.Prelude.{◌≡◌, ◌↔◌, [], ◌∷◌, length, true, IfOk};
ghost use Rattle.validate.specs.Accept.Added.{AreAdded};
ghost use Rattle.validate.specs.Accept.Lists.{layers_lines, layers_rings, lines_of, rings_of};
ghost use Rattle.topo.specs.BodyLists.{body_lines, body_rings};

use crate::{ArcsUsed, ends_meet, is_valid_ring, line_run};
use chains::table::{ArcRef, ArcTable};
use faults::OutOfMemory;
use grid::pos::Pos;
use std::alloc::{AllocError, Global};
use topo::{Body, Geom, Layer};

/// What the lists that were added have: the arcs that they use, and where the lines begin and end.
///
/// Each call that adds lists answers whether each of them stands for itself, and stops at the first
/// that doesn't.
#[derive(Drop)]
struct ListsSeen {
    used: ArcsUsed,
    ends: Vec<Pos>,
}

impl ListsSeen {
    fn add_line(&mut self, table: &ArcTable, refs: &[ArcRef]) -> Result<bool, AllocError>
        requires { length self.old.used ≡ length table.now.arcs }
        ensures { IfOk result (λ b. AreAdded table.now (refs.now ∷ []) [] b self.old self.new) }
    {
        let Some((start, end)) = line_run(table, &mut self.used, refs) else {
            return Ok(false);
        };
        self.ends.push(start)?;
        self.ends.push(end)?;
        Ok(true)
    }

    fn add_ring(&mut self, table: &ArcTable, refs: &[ArcRef]) -> bool
        requires { length self.old.used ≡ length table.now.arcs }
        ensures { AreAdded table.now [] (refs.now ∷ []) result self.old self.new }
    {
        is_valid_ring(table, &mut self.used, refs)
    }

    fn add_lines(&mut self, table: &ArcTable, body: &Body) -> Result<bool, AllocError>
        requires { length self.old.used ≡ length table.now.arcs }
        ensures { IfOk result (λ b. AreAdded table.now (body_lines body.now) [] b self.old self.new) }
    {
        for refs in body.lines() {
            if !self.add_line(table, refs.as_slice())? {
                return Ok(false);
            }
        }
        Ok(true)
    }

    fn add_rings(&mut self, table: &ArcTable, body: &Body) -> bool
        requires { length self.old.used ≡ length table.now.arcs }
        ensures { AreAdded table.now [] (body_rings body.now) result self.old self.new }
    {
        for refs in body.rings() {
            if !self.add_ring(table, refs.as_slice()) {
                return false;
            }
        }
        true
    }

    fn add_body(&mut self, table: &ArcTable, body: &Body) -> Result<bool, AllocError>
        requires { length self.old.used ≡ length table.now.arcs }
        ensures { IfOk result (λ b. AreAdded table.now (body_lines body.now) (body_rings body.now) b self.old self.new) }
    {
        if !self.add_lines(table, body)? {
            return Ok(false);
        }
        Ok(self.add_rings(table, body))
    }

    fn add_geometries(&mut self, table: &ArcTable, geometries: &[Geom]) -> Result<bool, AllocError>
        requires { length self.old.used ≡ length table.now.arcs }
        ensures { IfOk result (λ b. AreAdded table.now (lines_of geometries.now) (rings_of geometries.now) b self.old self.new) }
    {
        for geometry in geometries {
            if !self.add_body(table, &geometry.body)? {
                return Ok(false);
            }
        }
        Ok(true)
    }

    fn add_layers(&mut self, table: &ArcTable, layers: &[Layer]) -> Result<bool, AllocError>
        requires { length self.old.used ≡ length table.now.arcs }
        ensures { IfOk result (λ b. AreAdded table.now (layers_lines layers.now) (layers_rings layers.now) b self.old self.new) }
    {
        for layer in layers {
            if !self.add_geometries(table, layer.geometries())? {
                return Ok(false);
            }
        }
        Ok(true)
    }
}

/// Whether the lists of used arcs of all layers are valid: each line's and each ring's for itself, each arc
/// of the table is used by one of them, and each end of an arc that is no free loop is where one of the
/// lines begins or ends, or three ends of arcs meet there.
///
/// # Errors
/// Where memory is refused.
pub fn lists_are_valid(
    alloc: Global,
    table: &ArcTable,
    layers: &[Layer],
) -> Result<bool, OutOfMemory>
    ensures { IfOk result (λ b. (b ≡ true) ↔ AreValidLists table.now (layers_lines layers.now) (layers_rings layers.now)) }
{
    let used = ArcsUsed::none(alloc, table.len())?;
    let mut seen = ListsSeen {
        used,
        ends: Vec::new(alloc),
    };
    if !seen.add_layers(table, layers)? {
        return Ok(false);
    }
    if !seen.used.all() {
        return Ok(false);
    }
    ends_meet(alloc, table, &seen.ends)
}
