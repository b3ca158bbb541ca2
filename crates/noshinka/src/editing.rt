//! Changes of a borrowed topology, one after the other.
ghost use Rattle.noshinka.specs.Editing.{AreChanged, IsChanged, IsChangeRefusal, IsEditAnswer, IsEditOf, IsEditOn, IsEditRefusal, IsFirstChange};
ghost use Rattle.shapes.specs.Maps.{Layers};
ghost use Rattle.std.specs.Prelude.{◌≡◌, IfErr, IfOk, OnOk};
ghost use Rattle.topo.specs.OfMap.{IsOf};

use crate::topologies::topology_of;
use c_calls::options::flag;
use c_calls::refusal::CallRefusal;
use faults::OutOfMemory;
use refine::{Edit, Session};
use std::alloc::Global;
use topo::Topology;

/// A change of a topology: another one's text, whose features are added where `kind` is 0, and taken out where it is 1.
#[repr(C)]
#[derive(Drop)]
pub struct Change<'a> {
    pub text: &'a [u8],
    pub kind: u32,
}

/// The edit that adds the features of a topology, or takes them out.
#[tactic(auto, using(crate::proofs::Edits::join_edit, crate::proofs::Edits::remove_edit))]
fn edit_of(alloc: Global, topology: Topology, is_removal: bool) -> Result<Edit, OutOfMemory>
    ensures { IfOk result (IsEditOf is_removal topology) }
{
    if is_removal {
        Ok(Edit::Remove(topology.expand(alloc)?))
    } else {
        Ok(Edit::Join(topology))
    }
}

/// The edit of a change on the grid of a topology.
#[tactic(auto, using(crate::proofs::Edits::edit_on, crate::proofs::Edits::change_memory, crate::proofs::Edits::change_kind, crate::proofs::Edits::change_text, crate::proofs::Edits::change_grid))]
fn edit_of_change(
    alloc: Global,
    topology: &Topology,
    place: usize,
    change: &Change<'_>,
) -> Result<Edit, CallRefusal>
    ensures edit { IfOk result (IsEditOn topology.now.grid change.now) }
    ensures refused { IfErr result (IsChangeRefusal topology.now.grid place change.now) }
{
    let is_removal = flag(change.kind)?;
    let other = topology_of(alloc, place, change.text)?;
    if !topology.is_on_grid_of(&other) {
        return Err(CallRefusal::OtherGrid(place));
    }
    Ok(edit_of(alloc, other, is_removal)?)
}

/// Changes the topology of a session.
#[tactic(auto, using(crate::proofs::Edits::changed_by, crate::proofs::Edits::change_memory))]
fn apply_change(
    alloc: Global,
    session: &mut Session,
    place: usize,
    change: &Change<'_>,
) -> Result<(), CallRefusal>
    ensures grid { session.new.grid ≡ session.old.grid }
    ensures changed { OnOk result (IsChanged session.old.grid session.old.map change.now session.new.map) }
    ensures refused { IfErr result (IsChangeRefusal session.old.grid place change.now) }
{
    let edit = edit_of_change(alloc, session.topology(), place, change)?;
    match session.apply(&edit) {
        Ok(()) => Ok(()),
        Err(_) => Err(CallRefusal::OutOfMemory),
    }
}

/// Changes the topology of a session, one change after the other.
fn apply_changes(
    alloc: Global,
    session: &mut Session,
    changes: &[Change<'_>],
) -> Result<(), CallRefusal>
    ensures grid { session.new.grid ≡ session.old.grid }
    ensures changed { OnOk result (AreChanged session.old.grid session.old.map changes.now session.new.map) }
    ensures refused { IfErr result (IsFirstChange session.old.grid 1 changes.now) }
{
    for (number, change) in changes.iter().enumerate() {
        match apply_change(alloc, session, number + 1, change) {
            Ok(()) => {}
            Err(refusal) => return Err(refusal),
        }
    }
    Ok(())
}

/// A session of a topology.
fn session_of(alloc: Global, topology: Topology) -> Result<Session, OutOfMemory>
    ensures grid { IfOk result (λ s. s.grid ≡ topology.grid) }
    ensures map { IfOk result (λ s. (m : Layers) → IsOf m topology → s.map ≡ m) }
{
    let mut session = Session::start(alloc, &topology.grid())?;
    match session.apply(&Edit::Join(topology)) {
        Ok(()) => Ok(session),
        Err(_) => Err(OutOfMemory),
    }
}

/// The canonical text of a topology's text after changes.
#[tactic(auto, using(crate::proofs::Edits::edit_answer, crate::proofs::Edits::edit_memory, crate::proofs::Edits::edit_text, crate::proofs::Edits::edit_change))]
pub(crate) fn edit(
    alloc: Global,
    text: &[u8],
    changes: &[Change<'_>],
) -> Result<Vec<u8>, CallRefusal>
    ensures made { IfOk result (λ t. IsEditAnswer text.now changes.now t.items) }
    ensures refused { IfErr result (IsEditRefusal text.now changes.now) }
{
    let topology = topology_of(alloc, 0, text)?;
    let mut session = session_of(alloc, topology)?;
    apply_changes(alloc, &mut session, changes)?;
    Ok(session.text()?)
}
