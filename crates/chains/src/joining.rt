//! Finding the maximal chains over segments, by walking along them from stop to stop.
ghost use Rattle.arcs.specs.Among.{among};
ghost use Rattle.chains.specs.Joined.{AmongSegments, MeetsTwo, IsJoining, Took, AreCovering, AreParted, AreMaximal};
ghost use Rattle.chains.specs.Links.{joined, recorded, recorded_all};
ghost use Rattle.chains.specs.Pieces.{oriented};
ghost use Rattle.chains.specs.Walk.{IsWalk, links_in};
ghost use Rattle.chains.specs.declared.segment.Segment.{Segment};
ghost use Rattle.grid.specs.declared.pos.Pos.{Pos};
ghost use Rattle.std.specs.BTreeMap.{btree_map_len};
ghost use Rattle.std.specs.Prelude.{◌≡◌, ◌≤◌, IfOk, OnOk, None, List, map, ◌∷◌};

use crate::cutting::begins_free;
use crate::listing::list_of_set;
use crate::segment::Segment;
use crate::stop_set::StopSet;
use arcs::piece::Piece;
use arcs::table::ArcTable;
use faults::OutOfMemory;
use grid::pos::Pos;
use std::alloc::{AllocError, Global};
use std::collections::{BTreeMap, BTreeSet};

fn is_stop(stops: &StopSet, p: Pos) -> bool
    ensures { result ≡ among stops.now p }
{
    stops.has(p)
}

/// The chain that begins with `from`, `to` and goes on along the links, which are used up.
fn walk(
    alloc: Global,
    links: &mut BTreeMap<Pos, (Pos, Pos)>,
    from: Pos,
    to: Pos,
) -> Result<Vec<Pos>, AllocError>
    ensures walk { IfOk result (λ c. IsWalk links.old from to c.items links.new) }
    ensures len { btree_map_len links.new ≤ btree_map_len links.old }
{
    let mut chain = Vec::new(alloc);
    chain.push(from)?;
    chain.push(to)?;
    let mut before = from;
    let mut here = to;
    while let Some((first, second)) = links.remove(&here) {
        let next = if first == before { second } else { first };
        chain.push(next)?;
        before = here;
        here = next;
    }
    Ok(chain)
}

fn joined_to(old: Option<(Pos, Pos)>, to: Pos) -> (Pos, Pos)
    ensures { result ≡ joined old to }
{
    match old {
        None => (to, to),
        Some((first, second)) => {
            if first == to {
                (first, second)
            } else {
                (first, to)
            }
        }
    }
}

fn link(
    links: &mut BTreeMap<Pos, (Pos, Pos)>,
    stops: &StopSet,
    at: Pos,
    to: Pos,
) -> Result<(), AllocError>
    ensures { OnOk result ((q : Pos) → links_in links.new q ≡ recorded stops.now q (links_in links.old q) at to) }
{
    if is_stop(stops, at) {
        return Ok(());
    }
    let old = links.get(&at).copied();
    links.insert(at, joined_to(old, to))?;
    Ok(())
}

/// The two neighbours of each vertex that is no stop.
fn links_of(
    alloc: Global,
    segments: &[Segment],
    stops: &StopSet,
) -> Result<BTreeMap<Pos, (Pos, Pos)>, AllocError>
    ensures { IfOk result (λ m. (q : Pos) → links_in m q ≡ recorded_all stops.now q None segments.now) }
{
    let mut links = BTreeMap::new(alloc);
    for segment in segments {
        let (lesser, greater) = segment.ends();
        link(&mut links, stops, lesser, greater)?;
        link(&mut links, stops, greater, lesser)?;
    }
    Ok(links)
}

/// Walks from a stop along a segment, unless another walk has come along it.
fn take_from(
    alloc: Global,
    stops: &StopSet,
    links: &mut BTreeMap<Pos, (Pos, Pos)>,
    found: &mut Vec<Vec<Pos>>,
    from: Pos,
    to: Pos,
) -> Result<(), AllocError>
    ensures { OnOk result ((segs : List Segment) → MeetsTwo segs stops.now → AmongSegments from to segs → IsJoining segs stops.now links.old (map (λ c. c.items) found.old.items) → Took segs stops.now links.new (map (λ c. c.items) found.old.items) (map (λ c. c.items) found.new.items) from to) }
{
    if !is_stop(stops, from) {
        return Ok(());
    }
    if !is_stop(stops, to) && !links.contains_key(&to) {
        return Ok(());
    }
    let chain = walk(alloc, links, from, to)?;
    found.push(chain)?;
    Ok(())
}

fn chains_of(
    alloc: Global,
    segments: &[Segment],
    stops: &StopSet,
) -> Result<Vec<Vec<Pos>>, AllocError>
    ensures { IfOk result (λ v. MeetsTwo segments.now stops.now → AreCovering segments.now stops.now (map (λ c. c.items) v.items)) }
{
    let mut links = links_of(alloc, segments, stops)?;
    let mut found = Vec::new(alloc);
    for segment in segments {
        let (lesser, greater) = segment.ends();
        take_from(alloc, stops, &mut links, &mut found, lesser, greater)?;
        take_from(alloc, stops, &mut links, &mut found, greater, lesser)?;
    }
    while let Some((seam, (next, _))) = links.pop_first() {
        let chain = walk(alloc, &mut links, seam, next)?;
        found.push(chain)?;
    }
    Ok(found)
}

fn pieces_of(
    alloc: Global,
    chains: Vec<Vec<Pos>>,
    stops: &StopSet,
) -> Result<Vec<Piece>, AllocError>
    ensures { IfOk result (λ v. v.items ≡ map (oriented (among stops.now)) (map (λ c. c.items) chains.items)) }
{
    let mut pieces = Vec::with_capacity(alloc, chains.len())?;
    for chain in chains {
        let free = begins_free(stops, &chain);
        pieces.push(Piece::new(alloc, chain, free)?)?;
    }
    Ok(pieces)
}

/// The maximal chains over segments, of which some are in `whole` as chains already: these, and
/// those found over the other segments, each in its least direction, sorted. The caller's condition:
/// each vertex that is no stop lies on exactly two of the other segments, or on none.
///
/// # Errors
/// Where memory is refused.
pub fn maximal_with(
    alloc: Global,
    whole: Vec<Vec<Pos>>,
    segments: &[Segment],
    stops: &BTreeSet<Pos>,
) -> Result<ArcTable, OutOfMemory>
    requires { MeetsTwo segments.now stops.now.keys }
    ensures { IfOk result (λ t. (all : List Segment) → MeetsTwo all stops.now.keys → AreParted all stops.now.keys (map (λ c. c.items) whole.items) segments.now → AreMaximal all stops.now.keys t) }
{
    let stops = StopSet::of(alloc, stops)?;
    let mut found = chains_of(alloc, segments, &stops)?;
    let mut chains = whole;
    chains.append(&mut found)?;
    let pieces = pieces_of(alloc, chains, &stops)?;
    let table = ArcTable::from_pieces(alloc, pieces)?;
    Ok(table)
}

/// The maximal chains over a set of segments, which run from stop to stop, each in its least
/// direction, sorted. The caller's condition: each vertex that is no stop lies on exactly two of the
/// segments.
///
/// # Errors
/// Where memory is refused.
pub fn maximal(
    alloc: Global,
    segments: &BTreeSet<Segment>,
    stops: &BTreeSet<Pos>,
) -> Result<ArcTable, OutOfMemory>
    requires { MeetsTwo segments.now.keys stops.now.keys }
    ensures { IfOk result (λ t. AreMaximal segments.now.keys stops.now.keys t) }
{
    let list = list_of_set(alloc, segments)?;
    maximal_with(alloc, Vec::new(alloc), &list, stops)
}
