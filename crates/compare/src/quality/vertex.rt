//! Vertices, and which of them are near each other.
ghost use Rattle.grid.specs.Fits.{x_of};
ghost use Rattle.compare.specs.Quality.Near.{are_apart, are_near, beyond, has_feature, other_feature, over, within};
ghost use Rattle.std.specs.Prelude.{◌≡◌, not, true, IfSome};

use grid::pos::Pos;

/// That a feature has a vertex at a position.
#[derive(Clone, Copy, PartialEq, Eq, PartialOrd, Ord, Debug)]
pub struct VertexUse {
    /// Where the vertex lies.
    pub at: Pos,
    /// The number of the feature.
    pub feature: usize,
}

/// A vertex, and the features that have it.
#[derive(Clone, Copy, PartialEq, Eq, Debug)]
pub struct Vertex<'a> {
    /// Where it lies.
    pub at: Pos,
    /// Of each feature that has it, that it has it.
    pub uses: &'a [VertexUse],
}

/// Whether two grid numbers are at most so many steps apart.
fn is_within(steps: u32, a: i64, b: i64) -> bool
    ensures { result ≡ within steps a b }
{
    a.abs_diff(b) <= steps as u64
}

/// Whether one of the uses is by a feature.
fn has(uses: &[VertexUse], feature: usize) -> bool
    ensures { result ≡ has_feature feature uses.now }
{
    for used in uses {
        if used.feature == feature {
            return true;
        }
    }
    false
}

/// Where one of the uses from a number on is by a feature.
#[tactic(auto, using(crate::proofs::QualityLemmas::Had::found_has))]
fn find_from(uses: &[VertexUse], feature: usize, from: usize) -> Option<usize>
    ensures { IfSome result (λ _. has_feature feature uses.now ≡ true) }
{
    for number in from..uses.len() {
        if uses[number].feature == feature {
            return Some(number);
        }
    }
    None
}

/// Whether one of the uses is by a feature, and from where on to look for the next greater one: those from there on are
/// looked at first. So uses in the order of features are passed once for all features that are there.
fn has_from(uses: &[VertexUse], feature: usize, from: usize) -> (bool, usize)
    ensures { result.0 ≡ has_feature feature uses.now }
{
    match find_from(uses, feature, from) {
        Some(number) => (true, number),
        None => (has(uses, feature), from),
    }
}

/// The first feature that has a vertex and not another one. If the uses of both are in the order of features, each is
/// passed twice at most.
pub fn feature_alone(one: Vertex, other: Vertex) -> Option<usize>
    ensures { result ≡ other_feature one.entry.uses.now other.entry.uses.now }
{
    let mut from = 0;
    for used in one.uses {
        let (is_there, next) = has_from(other.uses, used.feature, from);
        if !is_there {
            return Some(used.feature);
        }
        from = next;
    }
    None
}

/// Whether one feature has only the one vertex, and another only the other.
fn is_of_two(one: Vertex, other: Vertex) -> bool
    ensures { result ≡ are_apart one.entry other.entry }
{
    feature_alone(one, other).is_some() && feature_alone(other, one).is_some()
}

/// Whether two vertices are of different features, and at most so many steps apart in both directions.
pub fn is_near(steps: u32, one: Vertex, other: Vertex) -> bool
    ensures { result ≡ are_near steps one.entry other.entry }
{
    is_within(steps, one.at.x(), other.at.x())
        && is_within(steps, one.at.y(), other.at.y())
        && is_of_two(one, other)
}

/// Whether a vertex lies too far from another one in the first direction.
pub fn is_past(steps: u32, one: Vertex, other: Vertex) -> bool
    ensures { result ≡ not (within steps (x_of one.entry.at) (x_of other.entry.at)) }
{
    !is_within(steps, one.at.x(), other.at.x())
}

/// Whether the second number is greater by more than so many steps.
fn is_over(steps: u32, low: i64, high: i64) -> bool
    ensures { result ≡ over steps low high }
{
    low < high && !is_within(steps, low, high)
}

/// Whether a vertex behind `next` lies in its column, and all from `next` to it lie out of reach of `one` in the second
/// direction: above it as `next` does, or below it as the vertex does.
pub fn is_beyond(steps: u32, one: Vertex, next: Vertex, vertex: Vertex) -> bool
    ensures { result ≡ beyond steps one.entry next.entry vertex.entry }
{
    vertex.at.x() == next.at.x()
        && (is_over(steps, one.at.y(), next.at.y()) || is_over(steps, vertex.at.y(), one.at.y()))
}
