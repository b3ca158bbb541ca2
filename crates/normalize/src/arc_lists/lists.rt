//! What is known of lists of used arcs by what is known of the arcs.
ghost use Rattle.normalize.specs.ArcLists.Labels.{ShareLabels, ShareLabels-prop};
ghost use Rattle.normalize.specs.ArcLists.Lists as spec;
ghost use Rattle.normalize.specs.ArcLists.Lists.{AreOnce, HaveLabels, IsListVerdict, SameFaults, UsesTwice};
ghost use Rattle.normalize.specs.ArcLists.Summaries.{AreSummaries, AreSummaries-prop};
ghost use Rattle.grid.specs.declared.pos.Pos.{Pos};
ghost use Rattle.lines.specs.Reading.{line_fault, ring_fault};
ghost use Rattle.lines.specs.Turned.{position_cmp};
ghost use Rattle.std.specs.Prelude.{◌≡◌, ◌++◌, [], IfOk, min, true};
ghost use Rattle.theory.specs.Validity.{Runs};

use crate::arc_lists::labels::{label_of, labels_of};
use crate::arc_lists::summaries::{ArcSummary, summaries_of};
use crate::arc_lists::verdict::ListVerdict;
use chains::ArcRef;
use faults::OutOfMemory;
use grid::pos::Pos;
use lines::items::Items;
use lines::neighbours::has_equal_neighbours;
use lines::shape_fault::ShapeFault;
use std::alloc::{AllocError, Global};
use validate::{ends_along, run};

/// Whether each used arc is there, and has a position.
fn have_ends(arcs: &[Items<Pos>], used: &[ArcRef]) -> bool
    ensures { result ≡ spec.all_have_ends arcs.now used.now }
{
    used.iter().all(|arc| ends_along(&arcs, *arc).is_some())
}

/// The arcs of a text, and what lists have to know of them.
#[derive(Drop)]
pub struct ArcLists<'a> {
    pub arcs: &'a [Items<Pos>],
    summaries: Vec<ArcSummary>,
    labels: Vec<usize>,
    ghost known: { AreSummaries arcs.now summaries.items } by { AreSummaries-prop arcs.now summaries.items },
    ghost labelled: { ShareLabels arcs.now labels.items } by { ShareLabels-prop arcs.now labels.items },
}

impl ArcLists<'_> {
    /// Whether the arc of a number is there, and it is known that no segment occurs in it twice.
    fn is_simple(&self, used: ArcRef) -> bool
        ensures { result ≡ spec.is_simple self.now.summaries.items used }
    {
        match self.summaries.get(used.arc) {
            Some(summary) => summary.simple,
            None => false,
        }
    }

    fn are_simple(&self, used: &[ArcRef]) -> bool
        ensures { result ≡ spec.are_simple self.now.summaries.items used.now }
    {
        used.iter().all(|arc| self.is_simple(*arc))
    }

    /// Whether the arc of a number is there, and has a segment.
    fn has_segment(&self, used: ArcRef) -> bool
        ensures { result ≡ spec.has_segment self.now.summaries.items used }
    {
        match self.summaries.get(used.arc) {
            Some(summary) => summary.count > 1,
            None => false,
        }
    }

    /// How many segments the arc of a number has, 0 where it is not there.
    fn segments_in(&self, used: ArcRef) -> usize
        ensures { result ≡ spec.segments_in self.now.summaries.items used }
    {
        match self.summaries.get(used.arc) {
            Some(summary) => summary.count.saturating_sub(1),
            None => 0,
        }
    }

    /// How many segments used arcs have, or the greatest number where there are more.
    fn segment_count(&self, used: &[ArcRef]) -> usize
        ensures { result ≡ min (spec.segment_count self.now.summaries.items used.now) usize.MAX }
    {
        let mut count: usize = 0;
        for arc in used {
            count = count.saturating_add(self.segments_in(*arc));
        }
        count
    }

    /// The numbers of those used arcs that have a segment.
    fn numbers_of(&self, alloc: Global, used: &[ArcRef]) -> Result<Vec<usize>, AllocError>
        ensures { IfOk result (λ v. v.items ≡ spec.numbers_of self.now.summaries.items used.now) }
    {
        let mut numbers = Vec::with_capacity(alloc, used.len())?;
        for arc in used {
            if self.has_segment(*arc) {
                numbers.push(arc.arc)?;
            }
        }
        Ok(numbers)
    }

    /// The labels of those used arcs that have a segment.
    fn labels_of(&self, alloc: Global, used: &[ArcRef]) -> Result<Vec<usize>, AllocError>
        ensures { IfOk result (λ v. v.items ≡ spec.labels_of self.now.summaries.items self.now.labels.items used.now) }
    {
        let mut labels = Vec::with_capacity(alloc, used.len())?;
        for arc in used {
            if self.has_segment(*arc) {
                labels.push(label_of(&self.labels, arc.arc))?;
            }
        }
        Ok(labels)
    }

    /// Those used arcs that have a segment.
    fn without_points_of(&self, alloc: Global, used: &[ArcRef]) -> Result<Vec<ArcRef>, AllocError>
        ensures { IfOk result (λ v. v.items ≡ spec.kept self.now.summaries.items used.now) }
    {
        let mut kept = Vec::with_capacity(alloc, used.len())?;
        for arc in used {
            if self.has_segment(*arc) {
                kept.push(*arc)?;
            }
        }
        Ok(kept)
    }

    /// Used arcs without those that have no segment. They stitch to a list with the same faults.
    ///
    /// # Errors
    /// Where memory is refused.
    pub fn without_points(&self, alloc: Global, used: &[ArcRef]) -> Result<Vec<ArcRef>, OutOfMemory>
        ensures { IfOk result (λ v. SameFaults self.now.arcs.now used.now v.items) }
    {
        let kept = self.without_points_of(alloc, used)?;
        Ok(kept)
    }

    /// Whether used arcs have a segment, and no two of them that have one have one label.
    fn are_apart(&self, alloc: Global, used: &[ArcRef]) -> Result<bool, AllocError>
        ensures { IfOk result (λ b. b ≡ true → HaveLabels (spec.labels_of self.now.summaries.items self.now.labels.items used.now)) }
    {
        let mut labels = self.labels_of(alloc, used)?;
        if labels.is_empty() {
            return Ok(false);
        }
        labels.sort_unstable();
        Ok(!has_equal_neighbours(&labels))
    }

    /// Whether an arc that has a segment is used twice.
    fn uses_twice(&self, alloc: Global, used: &[ArcRef]) -> Result<bool, AllocError>
        ensures { IfOk result (λ b. b ≡ true → UsesTwice self.now.summaries.items used.now) }
    {
        let mut numbers = self.numbers_of(alloc, used)?;
        numbers.sort_unstable();
        Ok(has_equal_neighbours(&numbers))
    }

    /// Whether it is known that no segment occurs twice in what used arcs stitch to, and there is one in it.
    fn are_once(&self, alloc: Global, used: &[ArcRef]) -> Result<bool, AllocError>
        ensures { IfOk result (λ b. b ≡ true → AreOnce self.now.summaries.items self.now.labels.items used.now) }
    {
        if !self.are_simple(used) {
            return Ok(false);
        }
        self.are_apart(alloc, used)
    }

    /// What is known of used arcs that don't run on.
    fn verdict_without_run(&self, used: &[ArcRef]) -> ListVerdict
        requires { (v w : Pos) → ¬ (used.now ≡ []) → ¬ Runs self.now.arcs.now v used.now w }
        ensures line { IsListVerdict (line_fault position_cmp) self.now.arcs.now used.now result }
        ensures ring { IsListVerdict (ring_fault position_cmp) self.now.arcs.now used.now result }
    {
        if used.is_empty() {
            return ListVerdict::Faulty(ShapeFault::TooShort);
        }
        if have_ends(self.arcs, used) {
            return ListVerdict::Broken;
        }
        ListVerdict::NoEnds
    }

    /// What is known of the list of a line.
    ///
    /// # Errors
    /// Where memory is refused.
    pub fn line(&self, alloc: Global, used: &[ArcRef]) -> Result<ListVerdict, OutOfMemory>
        ensures { IfOk result (IsListVerdict (line_fault position_cmp) self.now.arcs.now used.now) }
    {
        let Some((start, end)) = run(&self.arcs, used) else {
            return Ok(self.verdict_without_run(used));
        };
        let count = self.segment_count(used);
        if count < 1 {
            return Ok(ListVerdict::Faulty(ShapeFault::TooShort));
        }
        if start == end {
            if count < 3 {
                return Ok(ListVerdict::Faulty(ShapeFault::TooShort));
            }
        }
        if self.are_once(alloc, used)? {
            return Ok(ListVerdict::Sound);
        }
        if count >= 3 {
            if self.uses_twice(alloc, used)? {
                return Ok(ListVerdict::Faulty(ShapeFault::Revisit));
            }
        }
        Ok(ListVerdict::NeedsPositions)
    }

    /// What is known of the list of a ring.
    ///
    /// # Errors
    /// Where memory is refused.
    pub fn ring(&self, alloc: Global, used: &[ArcRef]) -> Result<ListVerdict, OutOfMemory>
        ensures { IfOk result (IsListVerdict (ring_fault position_cmp) self.now.arcs.now used.now) }
    {
        let Some((start, end)) = run(&self.arcs, used) else {
            return Ok(self.verdict_without_run(used));
        };
        if start != end {
            return Ok(ListVerdict::Faulty(ShapeFault::NotClosed));
        }
        let count = self.segment_count(used);
        if count < 3 {
            return Ok(ListVerdict::Faulty(ShapeFault::TooShort));
        }
        if self.are_once(alloc, used)? {
            return Ok(ListVerdict::Sound);
        }
        if self.uses_twice(alloc, used)? {
            return Ok(ListVerdict::Faulty(ShapeFault::Revisit));
        }
        Ok(ListVerdict::NeedsPositions)
    }
}

impl<'a> ArcLists<'a> {
    /// What lists have to know of the arcs of a text.
    ///
    /// # Errors
    /// Where memory is refused.
    pub fn new(alloc: Global, arcs: &'a [Items<Pos>]) -> Result<ArcLists<'a>, OutOfMemory>
        ensures { IfOk result (λ l. l.arcs.now ≡ arcs.now) }
    {
        let summaries = summaries_of(alloc, arcs)?;
        let labels = labels_of(alloc, arcs)?;
        Ok(ArcLists {
            arcs,
            summaries,
            labels,
        })
    }
}
