//! The ends of arcs that meet at a vertex, and which arc goes on from another.
ghost use Rattle.grid.specs.declared.pos.Pos.{Pos};
ghost use Rattle.lines.specs.ByVertex.{count_at};
ghost use Rattle.lines.specs.Pairs.{position_eq};
ghost use Rattle.split_heal.specs.ArcUseMap.{recorded_of};
ghost use Rattle.split_heal.specs.PseudoNodes.{AreGrouped, Begins, IsVerdict, all_ends, begin_at, end_at, end_if, ends_from, paired, partner_in, used_at, vertex_of, with_pair};
ghost use Rattle.std.specs.Prelude.{◌≡◌, ◌≤◌, ◌++◌, IfOk, OnOk, length};
ghost use Rattle.theory.specs.ArcNumbers as numbers;
ghost use Rattle.theory.specs.Lists.{Distinct, Has};

use crate::by_use::ArcUseMap;
use chains::table::{ArcRef, ArcTable};
use chains::visits::VisitIndex;
use faults::OutOfMemory;
use grid::pos::Pos;
use std::alloc::{AllocError, Global};

/// An end of an arc: the vertex at which a used arc begins. Ends are ordered by their vertices first.
#[derive(Clone, Copy, PartialEq, Eq, PartialOrd, Ord)]
pub(crate) struct ArcEnd {
    vertex: Pos,
    arc: usize,
    reversed: bool,
}

impl ArcEnd {
    fn used_arc(&self) -> ArcRef
        ensures { result ≡ used_at self.now }
    {
        ArcRef {
            arc: self.arc,
            reversed: self.reversed,
        }
    }

    fn is_at(&self, vertex: Pos) -> bool
        ensures { result ≡ position_eq self.now.vertex vertex }
    {
        self.vertex == vertex
    }
}

/// For each used arc the one other that begins where it begins, if one goes on there.
#[derive(Drop)]
pub(crate) struct PseudoNodes {
    partners: ArcUseMap<ArcRef>,
}

/// Adds the end of a used arc, where there is such an arc.
fn add_end(ends: &mut Vec<ArcEnd>, arcs: &ArcTable, used: ArcRef) -> Result<(), AllocError>
    ensures { OnOk result (ends.new.items ≡ ends.old.items ++ end_if (begin_at arcs.now.arcs used) used) }
{
    if let Some((vertex, _)) = arcs.ends_along(used) {
        ends.push(ArcEnd {
            vertex,
            arc: used.arc,
            reversed: used.reversed,
        })?;
    }
    Ok(())
}

/// Adds the ends of the arcs of these numbers, each used in this direction.
fn add_ends(
    ends: &mut Vec<ArcEnd>,
    arcs: &ArcTable,
    chosen: &[usize],
    reversed: bool,
) -> Result<(), AllocError>
    ensures { OnOk result (ends.new.items ≡ ends.old.items ++ ends_from arcs.now.arcs reversed chosen.now) }
{
    for number in chosen {
        let used = ArcRef {
            arc: *number,
            reversed,
        };
        add_end(ends, arcs, used)?;
    }
    Ok(())
}

/// The ends of the arcs of these numbers. The first ends of arcs in their order are sorted already, so
/// they come before the last ones, and a sort that looks for runs finds one of them.
fn ends_of(alloc: Global, arcs: &ArcTable, chosen: &[usize]) -> Result<Vec<ArcEnd>, AllocError>
    ensures { IfOk result (λ v. v.items ≡ all_ends arcs.now.arcs chosen.now) }
{
    let mut ends = Vec::with_capacity(alloc, chosen.len().saturating_mul(2))?;
    add_ends(&mut ends, arcs, chosen, false)?;
    add_ends(&mut ends, arcs, chosen, true)?;
    Ok(ends)
}

/// How many of the first ends are at a vertex.
fn count_of(ends: &[ArcEnd], vertex: Pos) -> usize
    ensures count { result ≡ count_at vertex_of vertex ends.now }
    ensures within { result ≤ length ends.now }
{
    for (i, end) in ends.iter().enumerate() {
        if !end.is_at(vertex) {
            return i;
        }
    }
    ends.len()
}

/// Notes of each of two used arcs that the other goes on from it.
fn link(partners: &mut ArcUseMap<ArcRef>, first: ArcRef, second: ArcRef) -> Result<(), AllocError>
    ensures { OnOk result ((q : numbers.ArcRef) → recorded_of partners.new q ≡ paired first second (recorded_of partners.old) q) }
{
    partners.set(first, second)?;
    partners.set(second, first)
}

/// Notes the used arcs of the ends at a vertex, which are these, where two meet and no line ends.
fn link_where_two_meet(
    partners: &mut ArcUseMap<ArcRef>,
    stops: &VisitIndex,
    first: &ArcEnd,
    others: &[ArcEnd],
) -> Result<(), AllocError>
    ensures { OnOk result ((q : numbers.ArcRef) → recorded_of partners.new q ≡ with_pair stops.now first.now others.now (recorded_of partners.old) q) }
{
    let Some((second, more)) = others.split_first() else {
        return Ok(());
    };
    if !more.is_empty() {
        return Ok(());
    }
    if stops.is_junction(first.vertex) {
        return Ok(());
    }
    link(partners, first.used_arc(), second.used_arc())
}

/// The partners of the used arcs of sorted ends, with room for so many arcs.
fn partners_of(
    alloc: Global,
    ends: &[ArcEnd],
    stops: &VisitIndex,
    count: usize,
) -> Result<ArcUseMap<ArcRef>, AllocError>
    ensures { IfOk result (λ p. AreGrouped ends.now → (v : Pos) (a : numbers.ArcRef) → Has (end_at v a) ends.now → IsVerdict (Has v stops.now) (λ b. Has (end_at v b) ends.now) (recorded_of p) a) }
{
    let mut partners = ArcUseMap::with_capacity(alloc, count)?;
    let mut left = ends;
    while let Some((first, others)) = left.split_first() {
        let (here, behind) = others.split_at(count_of(others, first.vertex));
        link_where_two_meet(&mut partners, stops, first, here)?;
        left = behind;
    }
    Ok(partners)
}

impl PseudoNodes {
    /// Which of the arcs of these numbers go on from one another, where lines end at these vertices.
    pub(crate) fn of(
        alloc: Global,
        arcs: &ArcTable,
        chosen: &[usize],
        ends: &[Pos],
    ) -> Result<PseudoNodes, OutOfMemory>
        ensures { IfOk result (λ m. Distinct chosen.now → (v : Pos) (a : numbers.ArcRef) → Begins arcs.now.arcs v chosen.now a → IsVerdict (Has v ends.now) (Begins arcs.now.arcs v chosen.now) (partner_in m) a) }
    {
        let stops = VisitIndex::from_junctions(alloc, ends.to_vec(alloc)?)?;
        let mut sorted = ends_of(alloc, arcs, chosen)?;
        sorted.sort()?;
        let partners = partners_of(alloc, &sorted, &stops, arcs.len())?;
        Ok(PseudoNodes { partners })
    }

    /// The one other used arc that begins where a used arc begins, if one goes on there.
    pub(crate) fn partner(&self, used: ArcRef) -> Option<ArcRef>
        ensures { result ≡ partner_in self.now used }
    {
        self.partners.get(used)
    }
}
