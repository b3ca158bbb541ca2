//! All pairs of vertices near each other, one after the other.
ghost use Rattle.compare.specs.Quality.Found.{place_of as the_place, places_at, places_of};
ghost use Rattle.compare.specs.Quality.Near.{Ascend, are_near, near_pairs, near_to};
ghost use Rattle.std.specs.Prelude.{◌≡◌, ◌≤◌, ◌++◌, ◌∷◌, IfOk, OnOk, [], cond, length, map as map_list, take};

use crate::quality::search::rest_behind;
use crate::quality::vertex::{Vertex, feature_alone, is_near, is_past};
use grid::pos::Pos;
use std::alloc::{AllocError, Global};

/// Where a vertex lies that is near another one, and a feature that has it and not the other.
#[derive(Clone, Copy, PartialEq, Eq, Debug)]
pub struct NearPlace {
    /// Where it lies.
    pub at: Pos,
    /// The number of the feature.
    pub feature: usize,
}

/// The place of a vertex, with the first feature that has it and not another vertex.
fn place_of(one: Vertex, other: Vertex) -> NearPlace
    ensures { result ≡ the_place one.entry other.entry }
{
    NearPlace {
        at: one.at,
        feature: feature_alone(one, other).unwrap_or(0),
    }
}

/// One for a vertex that is near another one, and none for any other.
fn one_if_near(steps: u32, one: Vertex, next: Vertex) -> usize
    ensures { result ≡ cond (are_near steps one.entry next.entry) 1 0 }
{
    if is_near(steps, one, next) { 1 } else { 0 }
}

/// How many of the vertices behind one are near it.
fn count_behind<'a>(steps: u32, one: Vertex<'a>, behind: &[Vertex<'a>]) -> usize
    requires { Ascend (one ∷ behind.now) }
    ensures count { result ≡ length (near_to steps one.entry behind.now) }
    ensures few { result ≤ length behind.now }
{
    let mut left = behind;
    let mut count = 0;
    while let Some((next, rest)) = left.split_first() {
        if is_past(steps, one, *next) {
            return count;
        }
        count += one_if_near(steps, one, *next);
        left = rest_behind(steps, one, *next, rest);
    }
    count
}

/// How many pairs of vertices there are that lie at most so many grid steps apart in both directions, where one
/// feature has only the one, and another only the other. It takes no memory. The vertices are in the order of
/// positions, each position once.
///
/// It takes n log n steps for a fixed distance, whatever the vertices are: at each vertex at most two searches by
/// halving for each column within reach, and a step for each vertex within reach, which are at most
/// (2 * steps + 1)^2.
pub fn count_near<'a>(vertices: &[Vertex<'a>], steps: u32) -> u128
    requires { Ascend vertices.now }
    ensures { result ≡ length (near_pairs steps vertices.now) }
{
    let mut count = 0u128;
    for number in 0..vertices.len() {
        let (_before, behind) = vertices.split_at(number + 1);
        count += count_behind(steps, vertices[number], behind) as u128;
    }
    count
}

/// Puts the places of two vertices behind the others, where they are near each other.
fn add_if_near(
    places: &mut Vec<(NearPlace, NearPlace)>,
    steps: u32,
    one: Vertex,
    next: Vertex,
) -> Result<(), AllocError>
    ensures { OnOk result (places.new.items ≡ places.old.items ++ cond (are_near steps one.entry next.entry) (places_at one.entry next.entry ∷ []) []) }
{
    if is_near(steps, one, next) {
        places.push((place_of(one, next), place_of(next, one)))?;
    }
    Ok(())
}

/// Puts the places of one vertex and of those behind that are near it behind the places before, up to so many.
fn add_near<'a>(
    places: &mut Vec<(NearPlace, NearPlace)>,
    most: usize,
    steps: u32,
    one: Vertex<'a>,
    behind: &[Vertex<'a>],
) -> Result<(), AllocError>
    requires ascend { Ascend (one ∷ behind.now) }
    requires few { length places.old.items ≤ most }
    ensures { OnOk result (places.new.items ≡ take most (places.old.items ++ map_list (places_at one.entry) (near_to steps one.entry behind.now))) }
{
    let mut left = behind;
    while let Some((next, rest)) = left.split_first() {
        if places.len() >= most {
            return Ok(());
        }
        if is_past(steps, one, *next) {
            return Ok(());
        }
        add_if_near(places, steps, one, *next)?;
        left = rest_behind(steps, one, *next, rest);
    }
    Ok(())
}

/// The places of the first pairs of those that `count_near` counts, at most so many: by the position of the one vertex,
/// then of the other.
pub fn first_near<'a>(
    alloc: Global,
    vertices: &[Vertex<'a>],
    steps: u32,
    most: usize,
) -> Result<Vec<(NearPlace, NearPlace)>, AllocError>
    requires { Ascend vertices.now }
    ensures { IfOk result (λ v. v.items ≡ take most (map_list places_of (near_pairs steps vertices.now))) }
{
    let mut first = Vec::new(alloc);
    for number in 0..vertices.len() {
        let (_before, behind) = vertices.split_at(number + 1);
        add_near(&mut first, most, steps, vertices[number], behind)?;
    }
    Ok(first)
}
