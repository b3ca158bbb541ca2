//! Lists of used arcs, by what they stitch to.
ghost use Rattle.arcs.specs.Steps.{step_cmp};
ghost use Rattle.topo.specs.GeometryOrder.Lists.{lead_of, line_refs_cmp, ring_refs_cmp, starts_cmp, turned};
ghost use Rattle.topo.specs.declared.geometry_order.least.LeastSteps as steps;
ghost use Rattle.grid.specs.declared.pos.Pos.{Pos as index};
ghost use Rattle.std.specs.Cmp.Lexicographic.{slice_cmp};
ghost use Rattle.std.specs.Option.{option_cmp};
ghost use Rattle.std.specs.Ordering.{is_lt};
ghost use Rattle.std.specs.Prelude.{◌≡◌, ◌≤◌, List, Option, length};
ghost use Rattle.std.specs.declared.cmp.Ordering.{Ordering as order_of};

use crate::geometry_order::least::{LeastSteps, least_step};
use arcs::step::ArcStep;
use arcs::table::{ArcRef, ArcTable};
use lines::items::Items;
use lines::line::Line;
use lines::ring::Ring;
use std::cmp::Ordering;

/// A table of arcs, and the least steps along each arc.
#[derive(Clone, Copy)]
pub(crate) struct Ordered<'a> {
    pub(crate) arcs: &'a ArcTable,
    pub(crate) least: &'a [Option<LeastSteps>],
}

/// The least step of a list of used arcs, and how many arcs there are up to the one that has it.
#[derive(Clone, Copy)]
pub(crate) struct Lead {
    pub(crate) step: Option<ArcStep>,
    pub(crate) behind: usize,
}

fn comes_before(step: &Option<ArcStep>, other: &Option<ArcStep>) -> bool
    ensures { result ≡ is_lt (option_cmp step_cmp step.now other.now) }
{
    step < other
}

/// The least step of a ring's list, of several the first.
pub(crate) fn find_lead(least: &[Option<LeastSteps>], used: &[ArcRef]) -> Lead
    ensures { result ≡ lead_of least.now used.now }
{
    let Some((first, others)) = used.split_first() else {
        return Lead {
            step: None,
            behind: 0,
        };
    };
    let mut best = Lead {
        step: least_step(least, first),
        behind: 1,
    };
    for (i, arc) in others.iter().enumerate() {
        let step = least_step(least, arc);
        if comes_before(&step, &best.step) {
            best = Lead {
                step,
                behind: i + 2,
            };
        }
    }
    best
}

fn line_order(arcs: &ArcTable, used: &[ArcRef], other: &[ArcRef]) -> Ordering
    ensures { result ≡ starts_cmp arcs.now.arcs used.now other.now }
{
    used.iter()
        .map(|arc| arcs.first_step(*arc))
        .cmp(other.iter().map(|arc| arcs.first_step(*arc)))
}

/// The order of two lists that are read from a place on, and then from their first arc up to it.
fn turned_order(
    arcs: &ArcTable,
    used: &[ArcRef],
    index: usize,
    other: &[ArcRef],
    other_index: usize,
) -> Ordering
    requires index { index ≤ length used.now }
    requires other_index { other_index ≤ length other.now }
    ensures { result ≡ starts_cmp arcs.now.arcs (turned used.now index) (turned other.now other_index) }
{
    let (front, back) = used.split_at(index);
    let (other_front, other_back) = other.split_at(other_index);
    back.iter()
        .chain(front)
        .map(|arc| arcs.first_step(*arc))
        .cmp(
            other_back
                .iter()
                .chain(other_front)
                .map(|arc| arcs.first_step(*arc)),
        )
}

/// The order of two rings: by their least steps, and where these are one step, along the arcs from there.
fn ring_order(view: &Ordered, used: &[ArcRef], other: &[ArcRef]) -> Ordering
    ensures { result ≡ ring_refs_cmp view.now.arcs.now.arcs view.now.least.now used.now other.now }
{
    let ours = find_lead(view.least, used);
    let theirs = find_lead(view.least, other);
    let order = ours.step.cmp(&theirs.step);
    if order.is_ne() {
        return order;
    }
    turned_order(view.arcs, used, ours.behind, other, theirs.behind)
}

/// What is compared by the arcs that it is stitched from, or lists of it.
pub(crate) trait ByArcs: Sized + Drop {
    /// What it is stitched from.
    type Used;

    ghost refs_cmp: { List (List index) → List (Option steps.LeastSteps) → Self.Used → Self.Used → order_of };

    fn order(view: &Ordered, used: &Self::Used, other: &Self::Used) -> Ordering
        ensures { result ≡ refs_cmp view.now.arcs.now.arcs view.now.least.now used.now other.now };
}

impl ByArcs for Line {
    type Used = Items<ArcRef>;

    ghost refs_cmp = { line_refs_cmp };

    fn order(view: &Ordered, used: &Self::Used, other: &Self::Used) -> Ordering {
        line_order(view.arcs, used.as_slice(), other.as_slice())
    }
}

impl ByArcs for Ring {
    type Used = Items<ArcRef>;

    ghost refs_cmp = { ring_refs_cmp };

    fn order(view: &Ordered, used: &Self::Used, other: &Self::Used) -> Ordering {
        ring_order(view, used.as_slice(), other.as_slice())
    }
}

fn each_order<S: ByArcs>(view: &Ordered, lists: &[S::Used], others: &[S::Used]) -> Ordering
    ensures { result ≡ slice_cmp (S.refs_cmp view.now.arcs.now.arcs view.now.least.now) lists.now others.now }
{
    let mut left = others;
    for used in lists {
        let Some((other, rest)) = left.split_first() else {
            return Ordering::Greater;
        };
        let order = S::order(view, used, other);
        if order.is_ne() {
            return order;
        }
        left = rest;
    }
    if left.is_empty() {
        Ordering::Equal
    } else {
        Ordering::Less
    }
}

impl<S: ByArcs> ByArcs for Items<S> {
    type Used = Items<S::Used>;

    ghost refs_cmp = { λ arcs least. slice_cmp (S.refs_cmp arcs least) };

    fn order(view: &Ordered, used: &Self::Used, other: &Self::Used) -> Ordering {
        each_order::<S>(view, used.as_slice(), other.as_slice())
    }
}
