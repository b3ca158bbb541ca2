//! Which new arc begins with which old one.
ghost use Rattle.split_heal.specs.Starts.{AreRecordedIn, recorded_start, starts_in, with_head, with_start};
ghost use Rattle.std.specs.Option.{option_map};
ghost use Rattle.std.specs.Prelude.{◌≡◌, IfOk, OnOk, true, false};
ghost use Rattle.theory.specs.ArcNumbers as numbers;
ghost use Rattle.theory.specs.ArcNumbers.{backwards};

use crate::arc_run::ArcRun;
use crate::by_use::ArcUseMap;
use chains::table::ArcRef;
use std::alloc::{AllocError, Global};

/// A used new arc, and how many old ones it takes behind its first.
#[derive(Clone, Copy, PartialEq, Eq, Debug)]
pub(crate) struct ArcStart {
    pub(crate) arc: usize,
    pub(crate) reversed: bool,
    pub(crate) others: usize,
}

/// The used new arcs by the used old ones that they begin with.
#[derive(Drop)]
pub(crate) struct ArcStartTable {
    starts: ArcUseMap<ArcStart>,
}

impl ArcStartTable {
    fn set(&mut self, used: ArcRef, start: ArcStart) -> Result<(), AllocError>
        ensures { OnOk result ((q : numbers.ArcRef) → starts_in self.new q ≡ with_start used (recorded_start start) (starts_in self.old) q) }
    {
        self.starts.set(used, start)
    }

    /// Notes a new arc at the old one that it begins with.
    fn add_ahead(&mut self, number: usize, pieces: &[ArcRef]) -> Result<(), AllocError>
        ensures { OnOk result ((q : numbers.ArcRef) → starts_in self.new q ≡ with_head (record { arc = number; reversed = false }) pieces.now (starts_in self.old) q) }
    {
        let Some((first, rest)) = pieces.split_first() else {
            return Ok(());
        };
        let start = ArcStart {
            arc: number,
            reversed: false,
            others: rest.len(),
        };
        self.set(*first, start)
    }

    /// Notes a reversed new arc at the old one that it begins with.
    fn add_against(&mut self, number: usize, pieces: &[ArcRef]) -> Result<(), AllocError>
        ensures { OnOk result ((q : numbers.ArcRef) → starts_in self.new q ≡ with_head (record { arc = number; reversed = true }) (backwards pieces.now) (starts_in self.old) q) }
    {
        let Some((last, rest)) = pieces.split_last() else {
            return Ok(());
        };
        let start = ArcStart {
            arc: number,
            reversed: true,
            others: rest.len(),
        };
        self.set(last.flip(), start)
    }

    /// The table of all new arcs, each with its pieces, with room for so many old arcs.
    pub(crate) fn of(
        alloc: Global,
        pieces: &[ArcRun],
        count: usize,
    ) -> Result<ArcStartTable, AllocError>
        ensures { IfOk result (λ t. AreRecordedIn t pieces.now) }
    {
        let mut table = ArcStartTable {
            starts: ArcUseMap::with_capacity(alloc, count)?,
        };
        for (i, list) in pieces.iter().enumerate() {
            table.add_ahead(i, list.as_slice())?;
            table.add_against(i, list.as_slice())?;
        }
        Ok(table)
    }

    /// The used new arc that begins with a used old one.
    pub(crate) fn get(&self, used: &ArcRef) -> Option<ArcStart>
        ensures { option_map recorded_start result ≡ starts_in self.now used.now }
    {
        self.starts.get(*used)
    }
}
