//! Worked maps: their texts, and the answers to questions about them, worked out by hand.

use refused_calls::layer;
use refused_calls::texts::{LOOP_AND_LINE, Places, SHARED_EDGE, THREE};

/// A map of the one layer `a`.
#[derive(Clone, Copy)]
pub(crate) struct Row {
    pub(crate) title: &'static str,
    pub(crate) geojson: &'static str,
    pub(crate) topology: &'static str,
    pub(crate) neighbors: &'static [&'static [usize]],
    /// All borders.
    pub(crate) borders: &'static [Places],
    /// The borders between two features.
    pub(crate) interior: &'static [Places],
    /// The borders of one feature alone.
    pub(crate) exterior: &'static [Places],
}

pub(crate) const ROWS: &[Row] = &[SQUARES, SEAM, THREE_SQUARES, TWINS, DEEP];

/// Two unit squares with a shared edge.
pub(crate) const SQUARES: Row = Row {
    title: "shared edge",
    geojson: r#"{"type":"FeatureCollection","features":[{"type":"Feature","properties":null,"geometry":{"type":"Polygon","coordinates":[[[0,0],[1,0],[1,1],[0,1],[0,0]]]}},{"type":"Feature","properties":null,"geometry":{"type":"Polygon","coordinates":[[[1,0],[2,0],[2,1],[1,1],[1,0]]]}}]}"#,
    topology: SHARED_EDGE,
    neighbors: &[&[1], &[0]],
    borders: &[
        &[(1, 0), (0, 0), (0, 1), (1, 1)],
        &[(1, 0), (1, 1)],
        &[(1, 0), (2, 0), (2, 1), (1, 1)],
    ],
    interior: &[&[(1, 0), (1, 1)]],
    exterior: &[&[(0, 0), (0, 1), (1, 1), (2, 1), (2, 0), (1, 0), (0, 0)]],
};

/// A triangle, and a line from a corner of it, which is no free loop then.
const SEAM: Row = Row {
    title: "the seam vanishes",
    geojson: r#"{"type":"FeatureCollection","features":[{"type":"Feature","properties":{},"geometry":{"type":"Polygon","coordinates":[[[0,0],[2,0],[0,2],[0,0]]]}},{"type":"Feature","properties":{},"geometry":{"type":"LineString","coordinates":[[2,0],[3,0]]}}]}"#,
    topology: LOOP_AND_LINE,
    neighbors: &[&[], &[]],
    borders: &[&[(2, 0), (0, 0), (0, 2), (2, 0)], &[(2, 0), (3, 0)]],
    interior: &[],
    exterior: &[&[(2, 0), (0, 0), (0, 2), (2, 0)], &[(2, 0), (3, 0)]],
};

const THREE_SQUARES: Row = Row {
    title: "three squares",
    geojson: r#"{"type":"FeatureCollection","features":[{"type":"Feature","properties":{},"geometry":{"type":"Polygon","coordinates":[[[2,0],[3,0],[3,1],[2,1],[2,0]]]}},{"type":"Feature","properties":{},"geometry":{"type":"Polygon","coordinates":[[[0,0],[1,0],[1,1],[0,1],[0,0]]]}},{"type":"Feature","properties":{},"geometry":{"type":"Polygon","coordinates":[[[1,0],[2,0],[2,1],[1,1],[1,0]]]}}]}"#,
    topology: THREE,
    neighbors: &[&[1], &[0, 2], &[1]],
    borders: &[
        &[(1, 0), (0, 0), (0, 1), (1, 1)],
        &[(1, 0), (1, 1)],
        &[(1, 0), (2, 0)],
        &[(1, 1), (2, 1)],
        &[(2, 0), (2, 1)],
        &[(2, 0), (3, 0), (3, 1), (2, 1)],
    ],
    interior: &[&[(1, 0), (1, 1)], &[(2, 0), (2, 1)]],
    exterior: &[&[
        (0, 0),
        (0, 1),
        (1, 1),
        (2, 1),
        (3, 1),
        (3, 0),
        (2, 0),
        (1, 0),
        (0, 0),
    ]],
};

const TWINS: Row = Row {
    title: "two features with one id",
    geojson: r#"{"type":"FeatureCollection","features":[{"type":"Feature","id":1,"properties":{"name":"b"},"geometry":{"type":"Point","coordinates":[1,2]}},{"type":"Feature","id":1,"properties":{"name":"a"},"geometry":{"type":"Point","coordinates":[1,2]}}]}"#,
    topology: layer!(
        r#"{"arcs":[],"bbox":[1,2,1,2],"objects":{"a":{"geometries":[{"coordinates":[1,2],"id":1,"properties":{"name":"a"},"type":"Point"},{"coordinates":[1,2],"id":1,"properties":{"name":"b"},"type":"Point"}"#
    ),
    neighbors: &[&[], &[]],
    borders: &[],
    interior: &[],
    exterior: &[],
};

const DEEP: Row = Row {
    title: "properties nested 63 deep",
    geojson: r#"{"type":"Feature","geometry":null,"properties":{"a":[[[[[[[[[[[[[[[[[[[[[[[[[[[[[[[[[[[[[[[[[[[[[[[[[[[[[[[[[[[[[[[]]]]]]]]]]]]]]]]]]]]]]]]]]]]]]]]]]]]]]]]]]]]]]]]]]]]]]]]]]]]]]]}}"#,
    topology: layer!(
        r#"{"arcs":[],"objects":{"a":{"geometries":[{"properties":{"a":[[[[[[[[[[[[[[[[[[[[[[[[[[[[[[[[[[[[[[[[[[[[[[[[[[[[[[[[[[[[[[[]]]]]]]]]]]]]]]]]]]]]]]]]]]]]]]]]]]]]]]]]]]]]]]]]]]]]]]]]]]]]]]},"type":null}"#
    ),
    neighbors: &[&[]],
    borders: &[],
    interior: &[],
    exterior: &[],
};
