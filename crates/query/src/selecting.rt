//! Which arcs a filter selects.
ghost use Rattle.query.specs.Mesh.{MayAsk};
ghost use Rattle.query.specs.Selecting.{MayAskAmong, Answered, Decided, Known, AreChosen};
ghost use Rattle.std.specs.Fn.{FnReturnsAtPair};
ghost use Rattle.std.specs.Prelude.{IfOk, OnOk};

use crate::members::Member;
use crate::spans::Span;
use shapes::feature::Feature;
use std::alloc::{AllocError, Global};
use std::collections::BTreeMap;

/// What the filter says of the least and the greatest feature of a span.
fn ask<F: Fn(&Feature, &Feature) -> bool>(members: &[Member], span: Span, filter: &F) -> bool
    requires { MayAskAmong (MayAsk F.Fn filter.now) members.now }
    ensures { Answered (FnReturnsAtPair F.Fn filter.now) members.now span result }
{
    match (members.get(span.least), members.get(span.greatest)) {
        (Some(least), Some(greatest)) => filter(&least.feature, &greatest.feature),
        _ => false,
    }
}

/// Whether an arc of this span is selected: one without a user is not. What the filter said before is
/// known.
fn is_chosen<F: Fn(&Feature, &Feature) -> bool>(
    known: &mut BTreeMap<Span, bool>,
    members: &[Member],
    span: Option<Span>,
    filter: &F,
) -> Result<bool, AllocError>
    requires callable { MayAskAmong (MayAsk F.Fn filter.now) members.now }
    requires known { Known (FnReturnsAtPair F.Fn filter.now) members.now known.old }
    ensures decided { IfOk result (λ says. Decided (FnReturnsAtPair F.Fn filter.now) members.now span says) }
    ensures known { OnOk result (Known (FnReturnsAtPair F.Fn filter.now) members.now known.new) }
{
    let Some(asked) = span else {
        return Ok(false);
    };
    if let Some(says) = known.get(&asked) {
        return Ok(*says);
    }
    let says = ask(members, asked, filter);
    known.insert(asked, says)?;
    Ok(says)
}

/// The numbers of the arcs of whose least and greatest user the filter says yes.
pub(crate) fn choose<F: Fn(&Feature, &Feature) -> bool>(
    alloc: Global,
    spans: &[Option<Span>],
    members: &[Member],
    filter: &F,
) -> Result<Vec<usize>, AllocError>
    requires { MayAskAmong (MayAsk F.Fn filter.now) members.now }
    ensures { IfOk result (λ v. AreChosen (FnReturnsAtPair F.Fn filter.now) members.now spans.now v.items) }
{
    let mut known = BTreeMap::new(alloc);
    let mut chosen = Vec::new(alloc);
    for number in 0..spans.len() {
        if !is_chosen(&mut known, members, spans[number], filter)? {
            continue;
        }
        chosen.push(number)?;
    }
    Ok(chosen)
}
