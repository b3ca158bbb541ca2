//! The least and the greatest feature that use each arc.
ghost use Rattle.query.specs.Spans.{widened, with_use, with_uses};
ghost use Rattle.query.specs.Uses.{bodies_uses};
ghost use Rattle.std.specs.Prelude.{◌≡◌, IfOk, None, replicate, map as map_list};
ghost use Rattle.topo.specs.OfMap.{body_of};

use crate::members::Member;
use crate::uses::{Use, add_body};
use std::alloc::{AllocError, Global};

/// The indexes of the least and the greatest feature that use an arc.
#[derive(Clone, Copy, PartialEq, Eq, PartialOrd, Ord, Debug)]
pub(crate) struct Span {
    pub(crate) least: usize,
    pub(crate) greatest: usize,
}

fn widen(old: Option<Span>, index: usize) -> Span
    ensures { result ≡ widened old index }
{
    match old {
        Some(span) => Span {
            least: span.least.min(index),
            greatest: span.greatest.max(index),
        },
        None => Span {
            least: index,
            greatest: index,
        },
    }
}

fn add_use(spans: &mut [Option<Span>], used: Use)
    ensures { spans.new ≡ with_use spans.old used }
{
    if used.arc < spans.len() {
        spans[used.arc] = Some(widen(spans[used.arc], used.index));
    }
}

/// Which members use which arc, index by index.
fn all_uses(alloc: Global, members: &[Member]) -> Result<Vec<Use>, AllocError>
    ensures { IfOk result (λ v. v.items ≡ bodies_uses 0 (map_list (λ p. body_of p.body.now) members.now)) }
{
    let mut uses = Vec::new(alloc);
    for index in 0..members.len() {
        add_body(&mut uses, index, members[index].body)?;
    }
    Ok(uses)
}

fn no_spans(alloc: Global, arcs: usize) -> Result<Vec<Option<Span>>, AllocError>
    ensures { IfOk result (λ v. v.items ≡ replicate arcs None) }
{
    let mut spans = Vec::with_capacity(alloc, arcs)?;
    for _ in 0..arcs {
        spans.push(None)?;
    }
    Ok(spans)
}

/// The span of each arc, by these uses.
pub(crate) fn spans_by(
    alloc: Global,
    arcs: usize,
    uses: &[Use],
) -> Result<Vec<Option<Span>>, AllocError>
    ensures { IfOk result (λ v. v.items ≡ with_uses (replicate arcs None) uses.now) }
{
    let mut spans = no_spans(alloc, arcs)?;
    for used in uses {
        add_use(&mut spans, *used);
    }
    Ok(spans)
}

/// For each of the arcs the indexes of its least and its greatest user, where it has one.
pub(crate) fn spans_of(
    alloc: Global,
    arcs: usize,
    members: &[Member],
) -> Result<Vec<Option<Span>>, AllocError>
    ensures { IfOk result (λ v. v.items ≡ with_uses (replicate arcs None) (bodies_uses 0 (map_list (λ p. body_of p.body.now) members.now))) }
{
    let uses = all_uses(alloc, members)?;
    spans_by(alloc, arcs, &uses)
}
