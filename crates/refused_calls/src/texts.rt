//! Texts of worked maps, worked out by hand.

/// The text of a topology on the grid 1,1,0,0 with the one layer `a`, of which the part before the end of
/// the layer is given.
#[macro_export]
macro_rules! layer {
    ($($front:expr),+) => {
        concat!(
            $($front,)+
            r#"],"type":"GeometryCollection"}},"transform":{"scale":[1,1],"translate":[0,0]},"type":"Topology"}"#
        )
    };
}

/// The unit square between two places of the x axis.
macro_rules! square {
    ($left:literal, $right:literal) => {
        layer!(
            r#"{"arcs":[[["#,
            $left,
            r#",0],[0,1],[1,0],[0,-1],[-1,0]]],"bbox":["#,
            $left,
            ",0,",
            $right,
            r#",1],"objects":{"a":{"geometries":[{"arcs":[[-1]],"type":"Polygon"}"#
        )
    };
}

/// The places of a line.
pub type Places = &'static [(i64, i64)];

/// The unit square at the origin.
pub const FIRST: &str = square!("0", "1");

/// The unit square to the right of `FIRST`.
pub const SECOND: &str = square!("1", "2");

/// The unit square to the right of `SECOND`.
pub const THIRD: &str = square!("2", "3");

/// A triangle alone, which is a free loop.
pub const FREE_LOOP: &str = layer!(
    r#"{"arcs":[[[0,0],[0,2],[2,-2],[-2,0]]],"bbox":[0,0,2,2],"objects":{"a":{"geometries":[{"arcs":[[-1]],"type":"Polygon"}"#
);

/// A line from a corner of the triangle.
pub const LINE: &str = layer!(
    r#"{"arcs":[[[2,0],[1,0]]],"bbox":[2,0,3,0],"objects":{"a":{"geometries":[{"arcs":[0],"type":"LineString"}"#
);

/// The triangle and the line.
pub const LOOP_AND_LINE: &str = layer!(
    r#"{"arcs":[[[2,0],[-2,0],[0,2],[2,-2]],[[2,0],[1,0]]],"bbox":[0,0,3,2],"objects":{"a":{"geometries":[{"arcs":[1],"type":"LineString"},{"arcs":[[-1]],"type":"Polygon"}"#
);

/// The first two squares.
pub const SHARED_EDGE: &str = layer!(
    r#"{"arcs":[[[1,0],[-1,0],[0,1],[1,0]],[[1,0],[0,1]],[[1,0],[1,0],[0,1],[-1,0]]],"bbox":[0,0,2,1],"objects":{"a":{"geometries":[{"arcs":[[1,-1]],"type":"Polygon"},{"arcs":[[2,-2]],"type":"Polygon"}"#
);

/// All three squares.
pub const THREE: &str = layer!(
    r#"{"arcs":[[[1,0],[-1,0],[0,1],[1,0]],[[1,0],[0,1]],[[1,0],[1,0]],[[1,1],[1,0]],[[2,0],[0,1]],[[2,0],[1,0],[0,1],[-1,0]]],"bbox":[0,0,3,1],"objects":{"a":{"geometries":[{"arcs":[[1,-1]],"type":"Polygon"},{"arcs":[[2,4,-4,-2]],"type":"Polygon"},{"arcs":[[5,-5]],"type":"Polygon"}"#
);

/// The first and the third square.
pub const ENDS: &str = layer!(
    r#"{"arcs":[[[0,0],[0,1],[1,0],[0,-1],[-1,0]],[[2,0],[0,1],[1,0],[0,-1],[-1,0]]],"bbox":[0,0,3,1],"objects":{"a":{"geometries":[{"arcs":[[-1]],"type":"Polygon"},{"arcs":[[-2]],"type":"Polygon"}"#
);

/// No features.
pub const EMPTY: &str = layer!(r#"{"arcs":[],"objects":{"a":{"geometries":["#);

/// No layers.
pub const NO_LAYERS: &str =
    r#"{"arcs":[],"objects":{},"transform":{"scale":[1,1],"translate":[0,0]},"type":"Topology"}"#;
