//! Named inputs, and the texts of maps that tests merge.

/// The text of a topology on the grid 1,1,0,0, of which the part before `transform` is given.
#[macro_export]
macro_rules! topology {
    ($front:literal) => {
        concat!(
            $front,
            r#""transform":{"scale":[1,1],"translate":[0,0]},"type":"Topology"}"#
        )
    };
}

/// The unit square at the origin.
pub const A: &str = r#"{"type":"Polygon","coordinates":[[[0,0],[1,0],[1,1],[0,1],[0,0]]]}"#;

/// The unit square to the right of `A`, with which it shares an edge.
pub const B: &str = r#"{"type":"Polygon","coordinates":[[[1,0],[2,0],[2,1],[1,1],[1,0]]]}"#;

/// The unit square to the right of `B`.
pub const C: &str = r#"{"type":"Polygon","coordinates":[[[2,0],[3,0],[3,1],[2,1],[2,0]]]}"#;

/// The unit square that touches `A` in the point (1,1).
pub const S: &str = r#"{"type":"Polygon","coordinates":[[[1,1],[2,1],[2,2],[1,2],[1,1]]]}"#;

/// A triangle whose ring runs against the direction of its arc.
pub const T: &str = r#"{"type":"Polygon","coordinates":[[[0,0],[2,0],[0,2],[0,0]]]}"#;

/// A collection of `A` and `B`.
pub const SQUARES: &str = concat!(
    r#"{"type":"FeatureCollection","features":[{"type":"Feature","properties":null,"geometry":"#,
    r#"{"type":"Polygon","coordinates":[[[0,0],[1,0],[1,1],[0,1],[0,0]]]}},"#,
    r#"{"type":"Feature","properties":null,"geometry":"#,
    r#"{"type":"Polygon","coordinates":[[[1,0],[2,0],[2,1],[1,1],[1,0]]]}}]}"#
);

/// A ring that visits (1,1) twice.
pub const BOW_TIE: &str =
    r#"{"type":"Polygon","coordinates":[[[0,0],[2,0],[1,1],[0,2],[2,2],[1,1],[0,0]]]}"#;

/// A line that visits (1,1) twice.
pub const LOOPED_LINE: &str =
    r#"{"type":"LineString","coordinates":[[0,0],[1,1],[2,2],[2,0],[1,1],[0,2]]}"#;

/// A line from the least position to the greatest on the grid 10,10,-500,0, given twice at its beginning.
pub const LONGEST_LINE: &str =
    r#"{"type":"LineString","coordinates":[[-10000000500,-10000000000],[-10000000500,-10000000000],[9999999500,10000000000]]}"#;

/// The topology of no feature.
pub const EMPTY: &str = topology!(
    r#"{"arcs":[],"objects":{"a":{"geometries":[],"type":"GeometryCollection"}},"#
);

/// The topology of `A`.
pub const ONE_SQUARE: &str = topology!(
    r#"{"arcs":[[[0,0],[0,1],[1,0],[0,-1],[-1,0]]],"bbox":[0,0,1,1],"objects":{"a":{"geometries":[{"arcs":[[-1]],"type":"Polygon"}],"type":"GeometryCollection"}},"#
);

/// The topology of `A` and `B`, which share an edge.
pub const SHARED_EDGE: &str = topology!(
    r#"{"arcs":[[[1,0],[-1,0],[0,1],[1,0]],[[1,0],[0,1]],[[1,0],[1,0],[0,1],[-1,0]]],"bbox":[0,0,2,1],"objects":{"a":{"geometries":[{"arcs":[[1,-1]],"type":"Polygon"},{"arcs":[[2,-2]],"type":"Polygon"}],"type":"GeometryCollection"}},"#
);

/// The topology of `T`.
pub const FREE_LOOP: &str = topology!(
    r#"{"arcs":[[[0,0],[0,2],[2,-2],[-2,0]]],"bbox":[0,0,2,2],"objects":{"a":{"geometries":[{"arcs":[[-1]],"type":"Polygon"}],"type":"GeometryCollection"}},"#
);

/// The topology of `BOW_TIE`.
pub const BOW_TIE_TOPOLOGY: &str = topology!(
    r#"{"arcs":[[[1,1],[-1,-1],[2,0],[-1,1]],[[1,1],[-1,1],[2,0],[-1,-1]]],"bbox":[0,0,2,2],"objects":{"a":{"geometries":[{"arcs":[[0,1]],"type":"Polygon"}],"type":"GeometryCollection"}},"#
);

/// The topology of `LOOPED_LINE`.
pub const LOOPED_LINE_TOPOLOGY: &str = topology!(
    r#"{"arcs":[[[0,0],[1,1]],[[0,2],[1,-1]],[[1,1],[1,-1],[0,2],[-1,-1]]],"bbox":[0,0,2,2],"objects":{"a":{"geometries":[{"arcs":[0,-3,-2],"type":"LineString"}],"type":"GeometryCollection"}},"#
);

/// The topology of `LONGEST_LINE`, with the least and the greatest numbers.
pub const LARGEST_AND_LEAST: &str =
    r#"{"arcs":[[[-1000000000,-1000000000],[2000000000,2000000000]]],"bbox":[-10000000500,-10000000000,9999999500,10000000000],"objects":{"a":{"geometries":[{"arcs":[0],"type":"LineString"}],"type":"GeometryCollection"}},"transform":{"scale":[10,10],"translate":[-500,0]},"type":"Topology"}"#;

/// The topology of `A` as another tool may write it.
pub const OTHER_TOOL: &str =
    r#"{"type":"Topology","transform":{"scale":[1,1],"translate":[0,0]},"bbox":[0.5,0,1,1],"x":0,"objects":{"a":{"type":"Polygon","arcs":[[0,1]]}},"arcs":[[[0,0],[1,0],[0,1]],[[1,1],[-1,0],[0,-1]],[[5,5],[1,1]]]}"#;

/// Texts, and the topology of all of them in one layer.
#[derive(Clone, Copy)]
pub struct Union {
    pub title: &'static str,
    pub texts: &'static [&'static str],
    pub topology: &'static str,
}

/// Rows of a title, texts in brackets, and their topology.
macro_rules! unions {
    ($($title:literal: [$($text:expr),+], $topology:expr;)+) => {
        &[$(Union {
            title: $title,
            texts: &[$($text),+],
            topology: $topology,
        }),+]
    };
}

/// Maps of two or three texts.
pub const UNIONS: &[Union] = unions![
    "shared edge": [A, B], SHARED_EDGE;
    "order and repeats": [A, B, A], SHARED_EDGE;
    "the seam at (0,0) vanishes": [T, r#"{"type":"LineString","coordinates":[[2,0],[3,0]]}"#],
        topology!(r#"{"arcs":[[[2,0],[-2,0],[0,2],[2,-2]],[[2,0],[1,0]]],"bbox":[0,0,3,2],"objects":{"a":{"geometries":[{"arcs":[1],"type":"LineString"},{"arcs":[[-1]],"type":"Polygon"}],"type":"GeometryCollection"}},"#);
    "a junction from an end alone": [T, r#"{"type":"LineString","coordinates":[[0,2],[0,0],[2,0],[0,2]]}"#],
        topology!(r#"{"arcs":[[[0,2],[0,-2],[2,0],[-2,2]]],"bbox":[0,0,2,2],"objects":{"a":{"geometries":[{"arcs":[0],"type":"LineString"},{"arcs":[[0]],"type":"Polygon"}],"type":"GeometryCollection"}},"#);
    "two users, no junction": [T, r#"{"type":"Feature","id":7,"geometry":{"type":"Polygon","coordinates":[[[0,0],[0,2],[2,0],[0,0]]]}}"#],
        topology!(r#"{"arcs":[[[0,0],[0,2],[2,-2],[-2,0]]],"bbox":[0,0,2,2],"objects":{"a":{"geometries":[{"arcs":[[-1]],"type":"Polygon"},{"arcs":[[0]],"id":7,"type":"Polygon"}],"type":"GeometryCollection"}},"#);
    "three shards": [A, B, C],
        topology!(r#"{"arcs":[[[1,0],[-1,0],[0,1],[1,0]],[[1,0],[0,1]],[[1,0],[1,0]],[[1,1],[1,0]],[[2,0],[0,1]],[[2,0],[1,0],[0,1],[-1,0]]],"bbox":[0,0,3,1],"objects":{"a":{"geometries":[{"arcs":[[1,-1]],"type":"Polygon"},{"arcs":[[2,4,-4,-2]],"type":"Polygon"},{"arcs":[[5,-5]],"type":"Polygon"}],"type":"GeometryCollection"}},"#);
    "a junction of the union alone": [r#"{"type":"LineString","coordinates":[[0,0],[1,0],[2,0]]}"#, r#"{"type":"LineString","coordinates":[[0,0],[1,0],[1,1]]}"#],
        topology!(r#"{"arcs":[[[0,0],[1,0]],[[1,0],[0,1]],[[1,0],[1,0]]],"bbox":[0,0,2,1],"objects":{"a":{"geometries":[{"arcs":[0,1],"type":"LineString"},{"arcs":[0,2],"type":"LineString"}],"type":"GeometryCollection"}},"#);
    "one ring twice": [T, r#"{"type":"Polygon","coordinates":[[[2,0],[0,2],[0,0],[2,0]]]}"#], FREE_LOOP;
    "two squares that touch": [A, S],
        topology!(r#"{"arcs":[[[1,1],[-1,0],[0,-1],[1,0],[0,1]],[[1,1],[0,1],[1,0],[0,-1],[-1,0]]],"bbox":[0,0,2,2],"objects":{"a":{"geometries":[{"arcs":[[0]],"type":"Polygon"},{"arcs":[[-2]],"type":"Polygon"}],"type":"GeometryCollection"}},"#);
    "a ring that visits a vertex twice, given twice": [BOW_TIE, BOW_TIE], BOW_TIE_TOPOLOGY;
    "a line that visits a vertex twice, given twice": [LOOPED_LINE, LOOPED_LINE], LOOPED_LINE_TOPOLOGY;
    "a ring that visits a vertex twice, and a square": [BOW_TIE, A],
        topology!(r#"{"arcs":[[[0,0],[0,1],[1,0]],[[0,0],[1,0],[0,1]],[[0,0],[1,1]],[[0,0],[2,0],[-1,1]],[[1,1],[-1,1],[2,0],[-1,-1]]],"bbox":[0,0,2,2],"objects":{"a":{"geometries":[{"arcs":[[1,-1]],"type":"Polygon"},{"arcs":[[3,4,-3]],"type":"Polygon"}],"type":"GeometryCollection"}},"#);
    "a line that visits a vertex twice, and a square": [LOOPED_LINE, A],
        topology!(r#"{"arcs":[[[0,0],[0,1],[1,0]],[[0,0],[1,0],[0,1]],[[0,0],[1,1]],[[0,2],[1,-1]],[[1,1],[1,-1],[0,2],[-1,-1]]],"bbox":[0,0,2,2],"objects":{"a":{"geometries":[{"arcs":[2,-5,-4],"type":"LineString"},{"arcs":[[1,-1]],"type":"Polygon"}],"type":"GeometryCollection"}},"#);
];
