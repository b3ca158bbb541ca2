//! Lists of numbers of arcs, and the positions that they are stitched to (TopoJSON, section 2.1.4).
ghost use Rattle.decimal_arcs.specs.Seen.{seen_arcs};
ghost use Rattle.decimal_topologies.specs.Stitching.{along, along_if, are_known as all_known, arcs_outline_faults, begins, behind, directed, ends, items_faults, IsStitched, joint_faults, number_faults, numbers_faults, places_at, positions_along, ref_of as named, stitched, stitched_faults};
ghost use Rattle.decimal_arcs.specs.Tallies.{with_place, with_places};
ghost use Rattle.json.specs.Value.{value_view, items_view};
ghost use Rattle.lines.specs.Pairs.{position_eq};
ghost use Rattle.reading.specs.FaultLists.Found.{pairs_of};
ghost use Rattle.std.specs.Prelude.{◌≡◌, ◌≢◌, ◌<◌, [], ◌++◌, length, map, drop, slice_get, Some, None, option_map, is_some, IfOk, OnOk, Err};

use crate::numbers::{ArcRef, ref_of};
use decimal_arcs::place::Place;
use decimal_faults::lists::{items_of, keep};
use decimal_faults::outline::{Outline, judge_outline};
use decimal_faults::part::Part;
use decimal_maps::{Stop, Tally};
use faults::OutOfMemory;
use faults::fault::{Fault, FaultKind};
use fixing::FixingRules;
use grid::Pos;
use json::Value;
use lines::items::Items;
use reading::fault_lists::found::{Wanted, is_enough, one, put_under_index};
use std::alloc::Global;

// The place of that index, in an arc's direction or backwards.
fn place_at(places: &[Place], backwards: bool, index: usize) -> Place
    requires { index < length places.now }
    ensures { slice_get (directed backwards places.now) index ≡ Some result }
{
    if backwards {
        places[places.len() - 1 - index]
    } else {
        places[index]
    }
}

// An arc of the table, where its places are known.
fn arc_of<'t>(arcs: &'t [Option<Vec<Place>>], used: ArcRef) -> Option<&'t [Place]>
    ensures { option_map (λ ps. directed used.backwards ps.now) result ≡ along (seen_arcs arcs.now) used }
{
    if used.arc >= arcs.len() {
        return None;
    }
    match &arcs[used.arc] {
        Some(places) => Some(places.as_slice()),
        None => None,
    }
}

// Where an arc begins, if that is known.
fn begin_of(arcs: &[Option<Vec<Place>>], used: ArcRef) -> Option<Pos>
    ensures { result ≡ begins (along (seen_arcs arcs.now) used) }
{
    let places = arc_of(arcs, used)?;
    if places.len() == 0 {
        return None;
    }
    Some(place_at(places, used.backwards, 0).at)
}

// Where an arc ends, if that is known.
fn end_of(arcs: &[Option<Vec<Place>>], used: ArcRef) -> Option<Pos>
    ensures { result ≡ ends (along (seen_arcs arcs.now) used) }
{
    let places = arc_of(arcs, used)?;
    if places.len() == 0 {
        return None;
    }
    Some(place_at(places, used.backwards, places.len() - 1).at)
}

fn is_same(p: &Pos, q: &Pos) -> bool
    ensures { result ≡ position_eq p.now q.now }
{
    p == q
}

// The fault of an arc that begins elsewhere than the one before ends.
fn judge_joint(
    alloc: Global,
    end: Option<Pos>,
    begin: Option<Pos>,
) -> Result<Vec<Fault>, OutOfMemory>
    ensures { IfOk result (λ fs. pairs_of fs.items ≡ joint_faults end begin) }
{
    let (Some(p), Some(q)) = (end, begin) else {
        return Ok(Vec::new(alloc));
    };
    if is_same(&p, &q) {
        Ok(Vec::new(alloc))
    } else {
        Ok(one(alloc, FaultKind::Broken)?)
    }
}

// The faults of a number, where the arc before ends there.
fn judge_number(
    alloc: Global,
    arcs: &[Option<Vec<Place>>],
    end: Option<Pos>,
    number: Result<ArcRef, FaultKind>,
) -> Result<Vec<Fault>, OutOfMemory>
    ensures { IfOk result (λ fs. pairs_of fs.items ≡ number_faults (seen_arcs arcs.now) end number) }
{
    match number {
        Ok(used) => judge_joint(alloc, end, begin_of(arcs, used)),
        Err(kind) => { Ok(one(alloc, kind)?) }
    }
}

// Where the arc ends that a number names, if that is known.
fn end_at(arcs: &[Option<Vec<Place>>], number: Result<ArcRef, FaultKind>) -> Option<Pos>
    ensures { result ≡ ends (along_if (seen_arcs arcs.now) number) }
{
    match number {
        Ok(used) => end_of(arcs, used),
        Err(_) => None,
    }
}

// The faults of a list of numbers of arcs.
#[tactic(auto, using(crate::proofs::Judging::judged_none, crate::proofs::Judging::judged_all))]
fn judge_numbers(
    alloc: Global,
    arcs: &[Option<Vec<Place>>],
    values: &[Value<'_>],
) -> Result<Vec<Fault>, OutOfMemory>
    ensures { IfOk result (λ fs. pairs_of fs.items ≡ numbers_faults (seen_arcs arcs.now) None 0 (items_view values.now)) }
{
    let mut found = Vec::new(alloc);
    let mut end = None;
    for i in 0..values.len() {
        let number = ref_of(arcs.len(), &values[i]);
        let part = judge_number(alloc, arcs, end, number)?;
        put_under_index(&mut found, part, i)?;
        end = end_at(arcs, number);
    }
    Ok(found)
}

// Counts a place.
fn add_place(tally: &mut Tally, place: Place)
    ensures { tally.new ≡ with_place place tally.old }
{
    tally.add_position(place.far);
    tally.heights = tally.heights.saturating_add(place.heights);
}

// Puts the places along an arc from an index on behind others.
fn put_along(
    found: &mut Vec<Pos>,
    places: &[Place],
    backwards: bool,
    first: usize,
    tally: &mut Tally,
) -> Result<(), Stop>
    ensures put { OnOk result (found.new.items ≡ found.old.items ++ map (λ p. p.at) (drop first (directed backwards places.now))) }
    ensures counted { OnOk result (tally.new ≡ with_places (drop first (directed backwards places.now)) tally.old) }
    ensures memory { result ≢ Err Stop.Unread }
{
    for i in first..places.len() {
        let place = place_at(places, backwards, i);
        keep(found, place.at)?;
        add_place(tally, place);
    }
    Ok(())
}

// Puts the places of an arc behind others, if they are known; where there are others, without the first.
fn put_arc(
    found: &mut Vec<Pos>,
    arcs: &[Option<Vec<Place>>],
    value: &Value<'_>,
    more: bool,
    tally: &mut Tally,
) -> Result<(), Stop>
    ensures put { OnOk result (found.new.items ≡ found.old.items ++ map (λ p. p.at) (behind more (places_at (seen_arcs arcs.now) (value_view value.now)))) }
    ensures counted { OnOk result (tally.new ≡ with_places (behind more (places_at (seen_arcs arcs.now) (value_view value.now))) tally.old) }
    ensures memory { result ≢ Err Stop.Unread }
{
    let Ok(used) = ref_of(arcs.len(), value) else {
        return Ok(());
    };
    let Some(places) = arc_of(arcs, used) else {
        return Ok(());
    };
    let first = if more { 1 } else { 0 };
    put_along(found, places, used.backwards, first, tally)
}

// The positions that a list of numbers of arcs is stitched to, which are counted.
#[tactic(auto, using(crate::proofs::Stitches::stitched_none))]
fn stitch(
    alloc: Global,
    arcs: &[Option<Vec<Place>>],
    values: &[Value<'_>],
    tally: &mut Tally,
) -> Result<Items<Pos>, Stop>
    ensures made { IfOk result (λ ps. ps ≡ positions_along (seen_arcs arcs.now) (items_view values.now)) }
    ensures counted { OnOk result (tally.new ≡ with_places (stitched (seen_arcs arcs.now) (items_view values.now)) tally.old) }
    ensures memory { result ≢ Err Stop.Unread }
{
    let mut found = Vec::new(alloc);
    for i in 0..values.len() {
        put_arc(&mut found, arcs, &values[i], i > 0, tally)?;
    }
    Ok(Items::from_vec(found))
}

// Whether the places along the arc are known that a value names.
fn is_known(arcs: &[Option<Vec<Place>>], value: &Value<'_>) -> bool
    ensures { result ≡ is_some (along_if (seen_arcs arcs.now) (named (length (seen_arcs arcs.now)) (value_view value.now))) }
{
    match ref_of(arcs.len(), value) {
        Ok(used) => arc_of(arcs, used).is_some(),
        Err(_) => false,
    }
}

// Whether the places of all these arcs are known.
fn are_known(arcs: &[Option<Vec<Place>>], values: &[Value<'_>]) -> bool
    ensures { result ≡ all_known (seen_arcs arcs.now) (items_view values.now) }
{
    for i in 0..values.len() {
        if !is_known(arcs, &values[i]) {
            return false;
        }
    }
    true
}

// The faults of the line or ring that these arcs are stitched to, where the places of all are known.
fn judge_stitched(
    alloc: Global,
    of: &StitchedTo<'_>,
    fixing: &FixingRules,
    values: &[Value<'_>],
) -> Result<Vec<Fault>, OutOfMemory>
    ensures { IfOk result (λ fs. pairs_of fs.items ≡ stitched_faults (seen_arcs of.now.arcs.now) fixing.now of.now.outline (items_view values.now)) }
{
    if !are_known(of.arcs, values) {
        return Ok(Vec::new(alloc));
    }
    match stitch(alloc, of.arcs, values, &mut Tally::new()) {
        Ok(positions) => judge_outline(alloc, of.outline, positions, fixing),
        Err(_) => Err(OutOfMemory),
    }
}

// The faults of numbers of arcs, or else those of the line or ring.
fn judge_items(
    alloc: Global,
    of: &StitchedTo<'_>,
    fixing: &FixingRules,
    values: &[Value<'_>],
) -> Result<Vec<Fault>, OutOfMemory>
    ensures { IfOk result (λ fs. pairs_of fs.items ≡ items_faults (seen_arcs of.now.arcs.now) fixing.now of.now.outline (items_view values.now)) }
{
    let found = judge_numbers(alloc, of.arcs, values)?;
    if is_enough(Wanted::First, &found) {
        return Ok(found);
    }
    judge_stitched(alloc, of, fixing, values)
}

// The positions of numbers of arcs without a fault, which are counted.
fn make_items(
    alloc: Global,
    arcs: &[Option<Vec<Place>>],
    values: &[Value<'_>],
    count: &mut Tally,
) -> Result<Items<Pos>, Stop>
    ensures faultless { OnOk result (numbers_faults (seen_arcs arcs.now) None 0 (items_view values.now) ≡ []) }
    ensures made { IfOk result (λ ps. ps ≡ positions_along (seen_arcs arcs.now) (items_view values.now)) }
    ensures counted { OnOk result (count.new ≡ with_places (stitched (seen_arcs arcs.now) (items_view values.now)) count.old) }
    ensures refused { result ≡ Err Stop.Unread → numbers_faults (seen_arcs arcs.now) None 0 (items_view values.now) ≢ [] }
{
    let Ok(found) = judge_numbers(alloc, arcs, values) else {
        return Err(Stop::OutOfMemory);
    };
    if is_enough(Wanted::First, &found) {
        return Err(Stop::Unread);
    }
    stitch(alloc, arcs, values, count)
}

/// A line or a ring of arcs.
#[derive(Clone, Copy)]
pub struct StitchedTo<'t> {
    /// The arcs of the topology by their numbers. One that no geometry uses, or that has a fault, is None.
    pub arcs: &'t [Option<Vec<Place>>],
    pub outline: Outline,
}

impl<'t> Part for StitchedTo<'t> {
    type Made = Items<Pos>;

    type Count = Tally;

    ghost faults = { λ p fixing. arcs_outline_faults (seen_arcs p.arcs.now) fixing p.outline };

    ghost means = { λ p. IsStitched (seen_arcs p.arcs.now) };

    fn judge(
        &self,
        alloc: Global,
        fixing: &FixingRules,
        value: &Value<'_>,
    ) -> Result<Vec<Fault>, OutOfMemory> {
        match items_of(value) {
            Some(items) => judge_items(alloc, self, fixing, items),
            None => { Ok(one(alloc, FaultKind::WrongKind)?) }
        }
    }

    fn make(
        &self,
        alloc: Global,
        value: &Value<'_>,
        count: &mut Tally,
    ) -> Result<Items<Pos>, Stop> {
        match items_of(value) {
            Some(items) => make_items(alloc, self.arcs, items, count),
            None => Err(Stop::Unread),
        }
    }
}
