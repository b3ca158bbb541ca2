//! Sessions: one topology that is edited over a long day.
ghost use Rattle.merging.specs.declared.fault.JoinFault.TheVariants.{OtherGrid};
ghost use Rattle.refine.specs.Edits.{AreEditedTo, AreRefusedAt, IsEditedTo, IsOnGrid};
ghost use Rattle.shapes.specs.Fitting.{MapFits};
ghost use Rattle.shapes.specs.Maps.{Layers};
ghost use Rattle.std.specs.FinMap as map;
ghost use Rattle.std.specs.Prelude.{◌≡◌, ◌<◌, ◌^◌, ◌↔◌, All, IfErr, IfOk, IsErrOf, OnErr, OnOk, length, take};
ghost use Rattle.topo.specs.OfMap.{IsOf};
ghost use Rattle.topo_io.specs.Canon.{canon};
ghost use Rattle.topo_io.specs.Means.{Means};

use crate::cut::{Cut, join_topologies};
use crate::edit::Edit;
use crate::fault::{EditsFault, JoinFault};
use crate::remove::remove;
use faults::OutOfMemory;
use grid::transform::Grid;
use merging::Shard;
use shapes::feature_map::FeatureMap;
use std::alloc::Global;
use std::marker::Model;
use topo::topology::Topology;

/// The topology after an edit.
fn apply_edit(alloc: Global, topology: &Topology, edit: &Edit) -> Result<Topology, JoinFault>
    ensures grid { IfOk result (λ t. t.grid ≡ topology.now.grid) }
    ensures of_map { IfOk result (λ t. (m : Layers) → IsOf m topology.now → (n : Layers) × IsEditedTo m edit.now n × IsOf n t) }
    ensures few { IfOk result (λ t. length t.arcs.arcs < 2 ^ 63) }
    ensures on_grid { OnOk result (IsOnGrid topology.now.grid edit.now) }
    ensures other_grid { IsErrOf result OtherGrid ↔ ¬ IsOnGrid topology.now.grid edit.now }
{
    match edit {
        Edit::Join(other) => join_topologies(alloc, topology, other),
        Edit::Remove(map) => Ok(remove(alloc, topology, map)?.into_topology()),
    }
}

/// One topology that is edited by joins and removals. At every moment its text is the canonical text
/// of the features as they are then.
#[derive(Drop)]
pub struct Session {
    alloc: Global,
    shard: Cut,
}

impl Model for Session {
    ghost use Rattle.refine.specs.OnGrid.{MapOnGrid, map_on_grid_code};

    ghost Value = { MapOnGrid };

    ghost coded = { map_on_grid_code };

    ghost view = { λ a. a.shard };
}

impl Session {
    /// A session on a grid, with no layers. It takes memory by the allocator that it is given.
    ///
    /// # Errors
    /// Where memory is refused.
    pub fn start(alloc: Global, grid: &Grid) -> Result<Session, OutOfMemory>
        ensures grid { IfOk result (λ s. s.grid ≡ grid.now) }
        ensures map { IfOk result (λ s. s.map ≡ map.empty) }
    {
        let topology = Topology::build_owned(alloc, grid, FeatureMap::new(alloc))?;
        let shard = Cut::of_topology(topology);
        Ok(Session { alloc, shard })
    }

    /// Edits the topology. After a refusal it is as it was.
    ///
    /// # Errors
    /// `OtherGrid` exactly where a topology on another grid is to be joined; `OutOfMemory`.
    pub fn apply(&mut self, edit: &Edit) -> Result<(), JoinFault>
        ensures grid { self.new.grid ≡ self.old.grid }
        ensures map { OnOk result (IsEditedTo self.old.map edit.now self.new.map) }
        ensures err { OnErr result (self.new ≡ self.old) }
        ensures on_grid { OnOk result (IsOnGrid self.old.grid edit.now) }
        ensures other_grid { IsErrOf result OtherGrid ↔ ¬ IsOnGrid self.old.grid edit.now }
    {
        let topology = apply_edit(self.alloc, self.shard.topology(), edit)?;
        self.shard = Cut::of_topology(topology);
        Ok(())
    }

    /// Edits the topology in the order of the edits, up to the first that is refused. The edits before
    /// it stay.
    ///
    /// # Errors
    /// The place of the first edit that is refused, and why.
    pub fn apply_all(&mut self, edits: &[Edit]) -> Result<(), EditsFault>
        ensures grid { self.new.grid ≡ self.old.grid }
        ensures map { OnOk result (AreEditedTo self.old.map edits.now self.new.map) }
        ensures on_grid { OnOk result (All (IsOnGrid self.old.grid) edits.now) }
        ensures err { IfErr result (λ f. AreEditedTo self.old.map (take f.place edits.now) self.new.map) }
        ensures refused { IfErr result (λ f. AreRefusedAt self.old.grid edits.now f.place f.fault) }
    {
        for (place, edit) in edits.iter().enumerate() {
            if let Err(fault) = self.apply(edit) {
                return Err(EditsFault { place, fault });
            }
        }
        Ok(())
    }

    /// The canonical text of the features. Where they fit the grid, it is read back as both.
    ///
    /// # Errors
    /// Where memory is refused.
    pub fn text(&self) -> Result<Vec<u8>, OutOfMemory>
        ensures text { IfOk result (λ t. t.items ≡ canon self.now.grid self.now.map) }
        ensures accepted { IfOk result (λ t. MapFits self.now.grid self.now.map → Means t.items self.now.grid self.now.map) }
    {
        self.shard.text(self.alloc)
    }

    /// The topology as it is now.
    pub fn topology(&self) -> &Topology
        ensures grid { result.now.grid ≡ self.now.grid }
        ensures of_map { IsOf self.now.map result.now }
    {
        self.shard.topology()
    }
}
