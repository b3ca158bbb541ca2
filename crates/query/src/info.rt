//! What a topology is made of, in numbers.
ghost use Rattle.query.specs.Info.{free_count, kinds_of, one_more, total};
ghost use Rattle.std.specs.Prelude.{◌≡◌, ◌<◌, ◌^◌, length, map, sum};

use chains::ArcTable;
use topo::{Body, Geom, Topology};

/// How many arcs a topology has.
#[derive(Clone, Copy, PartialEq, Eq, Debug)]
pub struct ArcCounts {
    /// All of them.
    pub arcs: usize,
    /// The positions of all arcs, those where they meet once for each arc.
    pub positions: u128,
    /// Those without a junction: each is a closed loop.
    pub free: usize,
}

/// How many geometries there are of each kind.
#[derive(Clone, Copy, PartialEq, Eq, Debug)]
pub struct Kinds {
    /// Those without a shape.
    pub nulls: usize,
    /// Single positions.
    pub points: usize,
    /// Lists of positions.
    pub multi_points: usize,
    /// Single lines.
    pub lines: usize,
    /// Lists of lines.
    pub multi_lines: usize,
    /// Single polygons.
    pub polygons: usize,
    /// Lists of polygons.
    pub multi_polygons: usize,
}

fn count_positions(arcs: &ArcTable) -> u128
    ensures { result ≡ sum (map length arcs.now.arcs) }
{
    let mut positions = 0;
    for arc in arcs.iter() {
        positions += arc.len() as u128;
    }
    positions
}

fn count_free(arcs: &ArcTable) -> usize
    ensures { result ≡ free_count arcs.now }
{
    let mut free = 0;
    for (_, is_free) in arcs.with_loops() {
        if is_free {
            free += 1;
        }
    }
    free
}

/// The number of a topology's arcs, the sum of their lengths, and how many of them are free loops. It takes
/// no memory.
pub fn count_arcs(topology: &Topology) -> ArcCounts
    ensures arcs { result.arcs ≡ length topology.now.arcs.arcs }
    ensures positions { result.positions ≡ sum (map length topology.now.arcs.arcs) }
    ensures free { result.free ≡ free_count topology.now.arcs }
{
    let arcs = topology.arcs();
    ArcCounts {
        arcs: arcs.len(),
        positions: count_positions(arcs),
        free: count_free(arcs),
    }
}

/// The counts with one more geometry of the body's kind.
fn with_one(kinds: Kinds, body: &Body) -> Kinds
    requires { total kinds < 2 ^ 63 }
    ensures { result ≡ one_more kinds body.now }
{
    let mut counted = kinds;
    match body {
        Body::Null => counted.nulls += 1,
        Body::Point(_) => counted.points += 1,
        Body::MultiPoint(_) => counted.multi_points += 1,
        Body::Line(_) => counted.lines += 1,
        Body::MultiLine(_) => counted.multi_lines += 1,
        Body::Polygon(_) => counted.polygons += 1,
        Body::MultiPolygon(_) => counted.multi_polygons += 1,
    }
    counted
}

/// How many of a layer's geometries are of each kind. It takes no memory.
pub fn count_kinds(geometries: &[Geom]) -> Kinds
    ensures { result ≡ kinds_of geometries.now }
{
    let mut kinds = Kinds {
        nulls: 0,
        points: 0,
        multi_points: 0,
        lines: 0,
        multi_lines: 0,
        polygons: 0,
        multi_polygons: 0,
    };
    for geometry in geometries {
        kinds = with_one(kinds, &geometry.body);
    }
    kinds
}
