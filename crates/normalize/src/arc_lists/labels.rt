//! Labels of arcs: arcs that share a segment have one label.
ghost use Rattle.normalize.specs.ArcLists.Labels as spec;
ghost use Rattle.normalize.specs.ArcLists.Labels.{ShareLabels, label_at};
ghost use Rattle.std.specs.Prelude.{◌≡◌, IfOk, true};

use crate::arc_lists::segments::{NumberedSegment, sorted_segments};
use grid::pos::Pos;
use lines::items::Items;
use std::alloc::{AllocError, Global};

/// The label of an arc, 0 where there is none.
pub(crate) fn label_of(labels: &[usize], arc: usize) -> usize
    ensures { result ≡ label_at labels.now arc }
{
    match labels.get(arc) {
        Some(label) => *label,
        None => 0,
    }
}

/// The arc at which a way from an arc ends, from each to one of a lesser number. On the way it is made shorter.
fn root_of(parents: &mut Vec<usize>, arc: usize) -> usize {
    let mut here = arc;
    while label_of(parents, here) < here {
        let parent = label_of(parents, here);
        if here < parents.len() {
            parents[here] = label_of(parents, parent);
        }
        here = parent;
    }
    here
}

/// Joins the ways of two arcs.
fn join(parents: &mut Vec<usize>, arc: usize, other: usize) {
    let root = root_of(parents, arc);
    let far = root_of(parents, other);
    let greater = root.max(far);
    if greater < parents.len() {
        parents[greater] = root.min(far);
    }
}

/// Each arc with itself as its label.
fn own_labels(alloc: Global, count: usize) -> Result<Vec<usize>, AllocError> {
    let mut labels = Vec::with_capacity(alloc, count)?;
    for arc in 0..count {
        labels.push(arc)?;
    }
    Ok(labels)
}

/// Joins the arcs of equal segments, which are neighbours.
fn join_equal(labels: &mut Vec<usize>, segments: &[NumberedSegment]) {
    let Some((first, others)) = segments.split_first() else {
        return;
    };
    let mut before = *first;
    for segment in others {
        if segment.pair == before.pair {
            join(labels, before.arc, segment.arc);
        }
        before = *segment;
    }
}

/// Gives each arc the label of the arc at which its way ends.
fn flatten(labels: &mut Vec<usize>) {
    for arc in 0..labels.len() {
        let root = root_of(labels, arc);
        if arc < labels.len() {
            labels[arc] = root;
        }
    }
}

/// Whether the arcs of two segments have one label where the segments are equal.
fn agree(labels: &[usize], segment: &NumberedSegment, other: &NumberedSegment) -> bool
    ensures { result ≡ spec.agree labels.now segment.now other.now }
{
    segment.pair != other.pair || label_of(labels, segment.arc) == label_of(labels, other.arc)
}

/// Whether `agree` holds of all neighbours in a list.
fn all_agree(labels: &[usize], segments: &[NumberedSegment]) -> bool
    ensures { result ≡ spec.all_agree labels.now segments.now }
{
    let Some((first, others)) = segments.split_first() else {
        return true;
    };
    let mut before = first;
    for segment in others {
        if !agree(labels, before, segment) {
            return false;
        }
        before = segment;
    }
    true
}

/// Labels by which the arcs of equal segments, which are neighbours, agree. Those that were joined are looked
/// through once more; were one wrong, there are none, and then all arcs have the label 0.
fn labels_by(
    alloc: Global,
    count: usize,
    segments: &[NumberedSegment],
) -> Result<Vec<usize>, AllocError>
    ensures { IfOk result (λ v. spec.all_agree v.items segments.now ≡ true) }
{
    let mut labels = own_labels(alloc, count)?;
    join_equal(&mut labels, segments);
    flatten(&mut labels);
    if all_agree(&labels, segments) {
        return Ok(labels);
    }
    Ok(Vec::new(alloc))
}

/// A label of each arc. Arcs that share a segment have one label.
pub(crate) fn labels_of(alloc: Global, arcs: &[Items<Pos>]) -> Result<Vec<usize>, AllocError>
    ensures { IfOk result (λ v. ShareLabels arcs.now v.items) }
{
    let segments = sorted_segments(alloc, arcs)?;
    labels_by(alloc, arcs.len(), &segments)
}
