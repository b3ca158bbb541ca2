//! Vertices that are looked up in a sorted list: the ends of all arcs.
ghost use Rattle.arcs.specs.Among.{among};
ghost use Rattle.lines.specs.Turned.{position_cmp};
ghost use Rattle.validate.specs.EndTests as spec;
ghost use Rattle.std.specs.List.Sorted.{IsSorted};
ghost use Rattle.std.specs.Prelude.{◌≡◌};

use chains::table::ArcTable;
use grid::pos::Pos;

/// Where the ends of arcs have to be: among some vertices, or apart from them.
#[derive(Clone, Copy)]
pub(crate) enum EndsHaveToBe {
    Among,
    Apart,
}

pub(crate) fn is_among(sorted: &[Pos], vertex: Pos) -> bool
    requires { IsSorted position_cmp sorted.now }
    ensures { result ≡ among sorted.now vertex }
{
    sorted.binary_search(&vertex).is_ok()
}

/// Whether a vertex is where it has to be.
fn is_as(ends: EndsHaveToBe, sorted: &[Pos], vertex: Pos) -> bool
    requires { IsSorted position_cmp sorted.now }
    ensures { result ≡ spec.is_as ends (among sorted.now vertex) }
{
    match ends {
        EndsHaveToBe::Among => is_among(sorted, vertex),
        EndsHaveToBe::Apart => !is_among(sorted, vertex),
    }
}

/// Whether both ends of an arc are where they have to be.
fn both_are(ends: EndsHaveToBe, sorted: &[Pos], arc: &[Pos]) -> bool
    requires { IsSorted position_cmp sorted.now }
    ensures { result ≡ spec.both_are ends sorted.now arc.now }
{
    match (arc.first(), arc.last()) {
        (Some(first), Some(last)) => is_as(ends, sorted, *first) && is_as(ends, sorted, *last),
        _ => true,
    }
}

/// Whether the ends of an arc are where they have to be; a free loop has no ends.
fn ends_are(ends: EndsHaveToBe, sorted: &[Pos], arc: &[Pos], free: bool) -> bool
    requires { IsSorted position_cmp sorted.now }
    ensures { result ≡ spec.ends_are ends sorted.now (arc.now, free) }
{
    free || both_are(ends, sorted, arc)
}

/// Whether the ends of each arc of a table are where they have to be.
pub(crate) fn each_ends(ends: EndsHaveToBe, sorted: &[Pos], table: &ArcTable) -> bool
    requires { IsSorted position_cmp sorted.now }
    ensures { result ≡ spec.each_ends ends sorted.now table.now }
{
    for (arc, free) in table.with_loops() {
        if !ends_are(ends, sorted, arc, free) {
            return false;
        }
    }
    true
}
