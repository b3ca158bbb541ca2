//! Used arcs that go on from one another, mostly one.
ghost use Rattle.lines.specs.Turned.{position_cmp};
ghost use Rattle.std.specs.Prelude.{◌≡◌, ◌∷◌, [], IfOk};
ghost use Rattle.theory.specs.ArcNumbers.{backwards};
ghost use Rattle.theory.specs.Refinement.{turned_used};

use chains::table::{ArcRef, ArcTable};
use chains::turning::turn_ring;
use std::alloc::{AllocError, Global};
use std::marker::Model;

/// Used arcs read the other way.
fn read_backwards(alloc: Global, arcs: &[ArcRef]) -> Result<Vec<ArcRef>, AllocError>
    ensures { IfOk result (λ v. v.items ≡ backwards arcs.now) }
{
    let mut refs = Vec::with_capacity(alloc, arcs.len())?;
    for used in arcs {
        refs.push(used.flip())?;
    }
    refs.reverse();
    Ok(refs)
}

#[derive(Drop)]
enum Arcs {
    One([ArcRef; 1]),
    Any(Vec<ArcRef>),
}

/// Used arcs that go on from one another. One alone takes no memory of its own.
#[derive(Drop)]
pub struct ArcRun {
    arcs: Arcs,
}

impl Model for ArcRun {
    ghost use Rattle.split_heal.specs.ArcRuns.{listed};
    ghost use Rattle.std.specs.Prelude.{List};
    ghost use Rattle.theory.specs.ArcNumbers as numbers;

    ghost Value = { List numbers.ArcRef };

    ghost view = { λ a. listed a.arcs };
}

impl ArcRun {
    pub(crate) fn empty(alloc: Global) -> ArcRun
        ensures { result ≡ [] }
    {
        ArcRun::of(Vec::new(alloc))
    }

    pub(crate) fn one(used: ArcRef) -> ArcRun
        ensures { result ≡ used ∷ [] }
    {
        ArcRun {
            arcs: Arcs::One([used]),
        }
    }

    pub(crate) fn of(arcs: Vec<ArcRef>) -> ArcRun
        ensures { result ≡ arcs.items }
    {
        ArcRun {
            arcs: Arcs::Any(arcs),
        }
    }

    /// The used arcs, in order.
    pub fn as_slice(&self) -> &[ArcRef]
        ensures { result.now ≡ self.now }
    {
        match &self.arcs {
            Arcs::One(one) => one.as_slice(),
            Arcs::Any(arcs) => arcs.as_slice(),
        }
    }

    /// The used arcs against their order, each in the other direction.
    pub(crate) fn backwards(self, alloc: Global) -> Result<ArcRun, AllocError>
        ensures { IfOk result (λ r. r ≡ backwards self) }
    {
        match self.arcs {
            Arcs::One(one) => {
                let [used] = one;
                Ok(ArcRun::one(used.flip()))
            }
            Arcs::Any(arcs) => Ok(ArcRun::of(read_backwards(alloc, &arcs)?)),
        }
    }

    /// Turned as the list of a ring: begun at the used arc that starts least.
    pub(crate) fn turn_round(self, table: &ArcTable) -> ArcRun
        ensures { result ≡ turned_used position_cmp table.now.arcs self }
    {
        match self.arcs {
            Arcs::One(one) => {
                let [used] = one;
                ArcRun::one(used)
            }
            Arcs::Any(mut arcs) => {
                turn_ring(table, &mut arcs);
                ArcRun::of(arcs)
            }
        }
    }
}
