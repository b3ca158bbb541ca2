//! Cutting the arcs of many tables again at once: the index of visits over all arcs gives the junctions of
//! all maps together, all arcs are cut there, and the pieces are the new table.
ghost use Rattle.arcs.specs.Extents.{within};
ghost use Rattle.arcs.specs.Pieces.{chain_of};
ghost use Rattle.arcs.specs.Placing.{whole_pieces};
ghost use Rattle.arcs.specs.Table.{located, ArePiecesOfMap, IsTableOf};
ghost use Rattle.arcs.specs.declared.piece.Piece.{Piece as Part};
ghost use Rattle.chains.specs.ManyTables.{AreTablesOf, IsUnionOfAll, arcs_of_all};
ghost use Rattle.grid.specs.declared.pos.Pos.{Pos};
ghost use Rattle.lines.specs.Holding.{Holds};
ghost use Rattle.lines.specs.Turned.{list_cmp};
ghost use Rattle.split_heal.specs.Bounds.{bounds_of, list_at, parts_between};
ghost use Rattle.split_heal.specs.Cutting.{pieces_from};
ghost use Rattle.split_heal.specs.CuttingAll.{IsRecutOfAll};
ghost use Rattle.split_heal.specs.PartsOfAll.{at_place, of_table};
ghost use Rattle.std.specs.Option.{option_map};
ghost use Rattle.std.specs.Prelude.{◌≡◌, ◌++◌, List, IfOk, OnOk, map, slice_get};
ghost use Rattle.theory.specs.ArcNumbers.{ArcRef as Used};
ghost use Rattle.theory.specs.Arcs.{AreSortedOnce};
ghost use Rattle.theory.specs.Geometry.{Geometry, IsSound};
ghost use Rattle.theory.specs.Lists.{Has, joined};

use crate::piece_lists::PieceLists;
use crate::recut_lists::RecutLists;
use chains::Extent;
use chains::cutting::{Piece, add_pieces};
use chains::marking::is_marked;
use chains::table::{ArcRef, ArcTable};
use chains::visits::VisitIndex;
use faults::OutOfMemory;
use std::alloc::Global;
use std::marker::Model;

/// The arcs of many maps together, and for each arc of each map those that it was cut into.
#[derive(Drop)]
pub struct RecutAll {
    arcs: ArcTable,
    /// For each arc of all tables, one table after another.
    lists: PieceLists,
    /// Where the arcs of each table begin, and last where those of the last one end.
    begins: Vec<usize>,
}

impl Model for RecutAll {
    ghost use Rattle.split_heal.specs.Bounds.{parts_between};
    ghost use Rattle.split_heal.specs.PartsOfAll.{RecutAllParts};

    ghost Value = { RecutAllParts };

    ghost view = { λ a. record { arcs = a.arcs; lists = parts_between a.begins.items a.lists } };
}

/// The place in a list of all that is at a place of a part of it, where these are the parts' bounds.
fn index_between(bounds: &[usize], part: usize, number: usize) -> Option<usize>
    ensures { (lists : List (List Used)) → slice_get (list_at part (parts_between bounds.now lists)) number ≡ at_place lists result }
{
    match bounds.get(part) {
        Some(from) => match bounds.get(part + 1) {
            Some(to) => {
                if number < to.saturating_sub(*from) {
                    return Some(*from + number);
                }
                None
            }
            None => None,
        },
        None => None,
    }
}

impl RecutAll {
    /// The arcs of all maps together.
    pub fn arcs(&self) -> &ArcTable
        ensures { result.now ≡ self.now.arcs }
    {
        &self.arcs
    }

    /// The arcs of all maps together, where no list is asked for any more.
    pub fn into_arcs(self) -> ArcTable
        ensures { result ≡ self.arcs }
    {
        self.arcs
    }

    /// The arcs that an arc of a table was cut into, in order along it; a free loop that meets a
    /// junction is read from its least one. `None` exactly past the table's arcs.
    pub fn pieces(&self, table: usize, number: usize) -> Option<&[ArcRef]>
        ensures { option_map (λ r. r.now) result ≡ slice_get (of_table table self.now) number }
    {
        match index_between(&self.begins, table, number) {
            Some(place) => self.lists.get(place),
            None => None,
        }
    }

    /// The lists of a table by the new arcs.
    pub fn lists(&self, table: usize) -> RecutLists<'_>
        ensures recut { result.recut.now ≡ self.now }
        ensures table { result.table ≡ table }
    {
        RecutLists { recut: self, table }
    }
}

/// The arcs of tables, one table after another, and where those of each begin, and last where those of
/// the last one end.
pub(crate) fn list_arcs(
    alloc: Global,
    tables: Vec<ArcTable>,
) -> Result<(Vec<Piece>, Vec<usize>), OutOfMemory>
    ensures arcs { IfOk result (λ r. r.0.items ≡ arcs_of_all tables.items) }
    ensures begins { IfOk result (λ r. r.1.items ≡ bounds_of (map whole_pieces tables.items)) }
{
    let mut arcs = Vec::new(alloc);
    let mut begins = Vec::with_capacity(alloc, tables.len() + 1)?;
    begins.push(0)?;
    for table in tables {
        let mut others = table.into_pieces(alloc)?;
        arcs.append(&mut others)?;
        begins.push(arcs.len())?;
    }
    Ok((arcs, begins))
}

/// Adds the pieces of the arcs of a table, of which those that are not marked are not cut; and answers
/// where the pieces of each arc begin among those that are added, and last how many are added.
fn add_table(
    alloc: Global,
    pieces: &mut Vec<Piece>,
    index: &VisitIndex,
    arcs: Vec<Piece>,
    marks: &[bool],
) -> Result<Vec<usize>, OutOfMemory>
    ensures pieces { OnOk result (pieces.new.items ≡ pieces.old.items ++ joined (pieces_from index.now marks.now 0 arcs.items)) }
    ensures bounds { IfOk result (λ b. b.items ≡ bounds_of (pieces_from index.now marks.now 0 arcs.items)) }
{
    let before = pieces.len();
    let mut bounds = Vec::with_capacity(alloc, arcs.len() + 1)?;
    bounds.push(0)?;
    let mut number = 0;
    for arc in arcs {
        add_pieces(alloc, pieces, index, arc, is_marked(marks, number))?;
        bounds.push(pieces.len() - before)?;
        number += 1;
    }
    Ok(bounds)
}

/// The arcs of tables cut at the junctions of an index over them, but for those that are not marked.
pub(crate) fn cut_all(
    alloc: Global,
    index: &VisitIndex,
    arcs: Vec<Piece>,
    begins: Vec<usize>,
    marks: &[bool],
    extent: Extent,
) -> Result<RecutAll, OutOfMemory>
    requires { (p : Part) → Has p arcs.items → Holds (within extent) p.chain }
    ensures arcs { IfOk result (λ r. AreSortedOnce list_cmp (map chain_of (joined (pieces_from index.now marks.now 0 arcs.items))) r.arcs.arcs) }
    ensures of_map { IfOk result (λ r. (g : Geometry Pos) → IsSound g → ArePiecesOfMap g (joined (pieces_from index.now marks.now 0 arcs.items)) → IsTableOf g r.arcs) }
    ensures lists { IfOk result (λ r. r.lists ≡ parts_between begins.items (map (map (located r.arcs.arcs)) (pieces_from index.now marks.now 0 arcs.items))) }
{
    let mut pieces = Vec::new(alloc);
    let bounds = add_table(alloc, &mut pieces, index, arcs, marks)?;
    let (table, refs) = ArcTable::with_refs(alloc, pieces)?;
    Ok(RecutAll {
        arcs: table.with_extent(extent),
        lists: PieceLists::between(refs, bounds),
        begins,
    })
}

/// The arcs of many tables, each that of a map, cut again under the junctions of all maps together. The
/// junctions are known from the tables alone. The positions of arcs that are not cut are moved.
///
/// # Errors
/// Where memory is refused.
pub fn recut_all(alloc: Global, tables: Vec<ArcTable>) -> Result<RecutAll, OutOfMemory>
    ensures { IfOk result (λ r. (maps : List (Geometry Pos)) (u : Geometry Pos) → AreTablesOf maps tables.items → IsUnionOfAll maps u → IsRecutOfAll maps u tables.items r) }
{
    let extent = Extent::around_all(&tables);
    let (arcs, begins) = list_arcs(alloc, tables)?;
    let cuts = VisitIndex::over_pieces(alloc, &arcs)?;
    let made = cut_all(alloc, &cuts.index, arcs, begins, &cuts.marks, extent)?;
    Ok(made)
}
