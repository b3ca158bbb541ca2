//! How many errors each number has.
ghost use Rattle.fault_reports.specs.FirstReports.{AreCounts, counted};
ghost use Rattle.std.specs.Prelude.{◌≡◌, ◌<◌, ◌^◌, [], ◌∷◌, ◌++◌, List, length};

use crate::report::FaultReport;
use faults::FaultKind;

/// How many errors each number has, from 0 to the greatest number.
#[derive(Drop)]
pub(crate) struct FaultCounts {
    counts: [usize; 22],
}

impl FaultCounts {
    /// Those of no errors.
    pub(crate) fn none() -> FaultCounts
        ensures { AreCounts [] result }
    {
        FaultCounts { counts: [0; 22] }
    }

    /// How many errors have the number of a kind.
    pub(crate) fn of(&self, kind: FaultKind) -> usize
        ensures { result ≡ counted self.now kind }
    {
        let number = kind.number() as usize;
        if number < self.counts.len() {
            self.counts[number]
        } else {
            0
        }
    }

    /// Counts an error more.
    pub(crate) fn add(&mut self, report: &FaultReport)
        ensures { (rs : List FaultReport) → length rs < 2 ^ 63 → AreCounts rs self.old → AreCounts (rs ++ report.now ∷ []) self.new }
    {
        let number = report.fault.kind.number() as usize;
        if number < self.counts.len() {
            self.counts[number] = self.counts[number].saturating_add(1);
        }
    }
}
