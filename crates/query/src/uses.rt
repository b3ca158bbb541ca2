//! Which arcs the bodies of features use.
ghost use Rattle.query.specs.Uses.{refs_uses, body_uses};
ghost use Rattle.std.specs.Prelude.{◌++◌, ◌≡◌, OnOk};
ghost use Rattle.topo.specs.OfMap.{body_of};

use chains::ArcRef;
use std::alloc::AllocError;
use topo::Body;

/// That the feature at an index uses an arc.
#[derive(Clone, Copy, PartialEq, Eq, PartialOrd, Ord, Debug)]
pub(crate) struct Use {
    pub(crate) index: usize,
    pub(crate) arc: usize,
}

fn add_refs(uses: &mut Vec<Use>, index: usize, refs: &[ArcRef]) -> Result<(), AllocError>
    ensures { OnOk result (uses.new.items ≡ uses.old.items ++ refs_uses index refs.now) }
{
    for used in refs {
        uses.push(Use {
            arc: used.arc,
            index,
        })?;
    }
    Ok(())
}

/// Notes that the feature at an index uses the arcs of its body.
pub(crate) fn add_body(uses: &mut Vec<Use>, index: usize, body: &Body) -> Result<(), AllocError>
    ensures { OnOk result (uses.new.items ≡ uses.old.items ++ body_uses index (body_of body.now)) }
{
    for refs in body.parts() {
        add_refs(uses, index, refs.as_slice())?;
    }
    Ok(())
}
