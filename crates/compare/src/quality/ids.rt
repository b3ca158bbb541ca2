//! Ids that are missing, and ids that occur more than once.
ghost use Rattle.compare.specs.Quality.Ids.{count_of, ids_in, is_missing, numbers_of, one_if, occurs_again, times};
ghost use Rattle.shapes.specs.Order.{id_cmp};
ghost use Rattle.shapes.specs.declared.shape.Id as ids;
ghost use Rattle.std.specs.Ordering.{is_eq};
ghost use Rattle.std.specs.Prelude.{◌≡◌, ◌+◌, ◌<◌, ◌^◌, ◌&&◌, IfOk, OnOk, nat_lt, not};

use shapes::shape::Id;
use std::alloc::{AllocError, Global};
use std::collections::BTreeMap;
use topo::Geom;

/// How many times an id is counted.
fn times_in<'a>(counts: &BTreeMap<&'a Id, usize>, id: &'a Id) -> usize
    ensures { result ≡ times id.now counts.now }
{
    counts.get(&id).copied().unwrap_or(0)
}

/// Counts an id once more.
fn count_id<'a>(counts: &mut BTreeMap<&'a Id, usize>, id: &'a Id) -> Result<(), AllocError>
    requires { times id.now counts.old < 2 ^ 63 }
    ensures { OnOk result ((q : ids.Id) → times q counts.new ≡ times q counts.old + one_if (is_eq (id_cmp q id.now))) }
{
    let times = times_in(counts, id) + 1;
    counts.insert(id, times)?;
    Ok(())
}

/// How many times each id occurs among those of geometries.
fn count_ids(alloc: Global, geometries: &[Geom]) -> Result<BTreeMap<&Id, usize>, AllocError>
    ensures { IfOk result (λ m. (q : ids.Id) → times q m ≡ count_of q (ids_in geometries.now)) }
{
    let mut counts = BTreeMap::new(alloc);
    for number in 0..geometries.len() {
        count_id(&mut counts, &geometries[number].id)?;
    }
    Ok(counts)
}

/// Whether there is no id.
fn is_none(id: &Id) -> bool
    ensures { result ≡ is_missing id.now }
{
    match id {
        Id::None => true,
        Id::Number(_) | Id::Text(_) => false,
    }
}

/// Whether an id is counted more than once.
fn is_repeated<'a>(counts: &BTreeMap<&'a Id, usize>, id: &'a Id) -> bool
    ensures { result ≡ (not (is_missing id.now) && nat_lt 1 (times id.now counts.now)) }
{
    !is_none(id) && times_in(counts, id) > 1
}

/// The numbers of the geometries of a layer that have no id, ascending. Numbers count them from 0, in their
/// order.
pub fn without_id(alloc: Global, geometries: &[Geom]) -> Result<Vec<usize>, AllocError>
    ensures { IfOk result (λ v. v.items ≡ numbers_of is_missing 0 (ids_in geometries.now)) }
{
    let mut numbers = Vec::new(alloc);
    for number in 0..geometries.len() {
        if !is_none(&geometries[number].id) {
            continue;
        }
        numbers.push(number)?;
    }
    Ok(numbers)
}

/// The numbers of the geometries of a layer whose id occurs more than once there, ascending. In a topology's
/// layer those of one id are side by side.
pub fn repeated_ids(alloc: Global, geometries: &[Geom]) -> Result<Vec<usize>, AllocError>
    ensures { IfOk result (λ v. v.items ≡ numbers_of (occurs_again (ids_in geometries.now)) 0 (ids_in geometries.now)) }
{
    let counts = count_ids(alloc, geometries)?;
    let mut numbers = Vec::new(alloc);
    for number in 0..geometries.len() {
        if !is_repeated(&counts, &geometries[number].id) {
            continue;
        }
        numbers.push(number)?;
    }
    Ok(numbers)
}
