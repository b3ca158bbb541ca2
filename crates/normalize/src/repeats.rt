//! Positions that an arc repeats, and arcs of equal positions alone.
ghost use Rattle.lines.specs.Reading.{collapsed};
ghost use Rattle.lines.specs.Turned.{position_cmp};
ghost use Rattle.normalize.specs.Repeats as spec;
ghost use Rattle.normalize.specs.Repeats.{AreWithoutRepeats};
ghost use Rattle.std.specs.Prelude.{◌≡◌, IfOk, IfSome, is_some, map};

use crate::copies::layers_copied;
use arcs::NewLists;
use chains::ArcRef;
use faults::OutOfMemory;
use grid::pos::Pos;
use lines::items::Items;
use lines::neighbours::has_equal_neighbours;
use std::alloc::Global;
use topo::Layer;

/// The arcs of a text without repeated positions, by the same numbers; and its layers without the used arcs
/// that have one position then.
#[derive(Drop)]
pub struct WithoutRepeats {
    pub arcs: Vec<Items<Pos>>,
    pub layers: Vec<Layer>,
}

/// Whether an arc repeats a position.
fn some_repeats(arcs: &[Items<Pos>]) -> bool
    ensures { result ≡ spec.some_repeats arcs.now }
{
    for arc in arcs {
        if has_equal_neighbours(arc.as_slice()) {
            return true;
        }
    }
    false
}

fn arc_without_repeats(alloc: Global, arc: &[Pos]) -> Result<Items<Pos>, OutOfMemory>
    ensures { IfOk result (λ c. c ≡ collapsed position_cmp arc.now) }
{
    let mut positions = arc.to_vec(alloc)?;
    positions.dedup();
    Ok(Items::from_vec(positions))
}

fn arcs_without_repeats(alloc: Global, arcs: &[Items<Pos>]) -> Result<Vec<Items<Pos>>, OutOfMemory>
    ensures { IfOk result (λ v. v.items ≡ map (collapsed position_cmp) arcs.now) }
{
    let mut made = Vec::with_capacity(alloc, arcs.len())?;
    for arc in arcs {
        made.push(arc_without_repeats(alloc, arc.as_slice())?)?;
    }
    Ok(made)
}

/// Arcs without repeated positions.
#[derive(Clone, Copy)]
struct LongArcs<'a> {
    arcs: &'a [Items<Pos>],
}

impl LongArcs<'_> {
    /// Whether a used arc has two positions or more.
    fn is_long(&self, used: &ArcRef) -> bool
        ensures { result ≡ spec.is_long self.now.arcs.now used.now }
    {
        match self.arcs.get(used.arc) {
            Some(arc) => arc.as_slice().len() > 1,
            None => false,
        }
    }

    fn long_refs(&self, alloc: Global, used: &[ArcRef]) -> Result<Vec<ArcRef>, OutOfMemory>
        ensures { IfOk result (λ v. v.items ≡ spec.long_refs self.now.arcs.now used.now) }
    {
        let mut refs = Vec::with_capacity(alloc, used.len())?;
        for arc in used {
            if self.is_long(arc) {
                refs.push(*arc)?;
            }
        }
        Ok(refs)
    }
}

impl NewLists for LongArcs<'_> {
    ghost line_of = { λ l. spec.long_refs l.arcs.now };

    ghost ring_of = { λ l. spec.long_refs l.arcs.now };

    fn line(&self, alloc: Global, used: &[ArcRef]) -> Result<Vec<ArcRef>, OutOfMemory> {
        self.long_refs(alloc, used)
    }

    fn ring(&self, alloc: Global, used: &[ArcRef]) -> Result<Vec<ArcRef>, OutOfMemory> {
        self.long_refs(alloc, used)
    }
}

/// The arcs and the layers of a text without repeated positions; `None` where no arc repeats one. Equal
/// neighbours in an arc are one position then, and arcs that have no other position leave the lists. Where the
/// lists stitch to lines and rings, the features stay.
///
/// # Errors
/// Where memory is refused.
pub fn without_repeats(
    alloc: Global,
    arcs: &[Items<Pos>],
    layers: &[Layer],
) -> Result<Option<WithoutRepeats>, OutOfMemory>
    ensures some { IfOk result (λ o. is_some o ≡ spec.some_repeats arcs.now) }
    ensures without { IfOk result (λ o. IfSome o (λ w. AreWithoutRepeats arcs.now layers.now w.arcs.items w.layers.items)) }
{
    if !some_repeats(arcs) {
        return Ok(None);
    }
    let arcs = arcs_without_repeats(alloc, arcs)?;
    let layers = layers_copied(alloc, &LongArcs { arcs: &arcs }, layers)?;
    Ok(Some(WithoutRepeats { arcs, layers }))
}
