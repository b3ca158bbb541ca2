//! Topologies of texts: those that are taken as they stand, and those that are read and built.
use crate::topo_io_tests::texts::{NO_LAYERS, ONE_SQUARE, POINTS, SQUARES, collection};
use std::alloc::Global;
use std::test::Fail;
use topo_io::{read_parts, read_topology, text_of};
use validate::accept::{Accepted, take};
use worked_maps::{boxed, rows};

const LINES: &str =
    r#"{"arcs":[[[0,0],[1,0]],[[1,0],[0,1]],[[1,0],[1,0]]],"bbox":[0,0,2,1],"objects":{"a":{"geometries":[{"arcs":[0,2],"type":"LineString"},{"arcs":[1],"type":"LineString"}],"type":"GeometryCollection"}},"transform":{"scale":[1,1],"translate":[0,0]},"type":"Topology"}"#;

const CROSSING: &str =
    r#"{"arcs":[[[0,1],[1,0]],[[1,0],[0,1]],[[1,1],[0,1]],[[1,1],[1,0]]],"bbox":[0,0,2,2],"objects":{"a":{"geometries":[{"arcs":[0,3],"type":"LineString"},{"arcs":[1,2],"type":"LineString"}],"type":"GeometryCollection"}},"transform":{"scale":[1,1],"translate":[0,0]},"type":"Topology"}"#;

const LOOP_LINE: &str =
    r#"{"arcs":[[[1,1],[-1,0],[0,-1],[1,0],[0,1]]],"bbox":[0,0,1,1],"objects":{"l":{"geometries":[{"arcs":[0],"type":"LineString"}],"type":"GeometryCollection"},"p":{"geometries":[{"arcs":[[0]],"type":"Polygon"}],"type":"GeometryCollection"}},"transform":{"scale":[1,1],"translate":[0,0]},"type":"Topology"}"#;

/// Whether the arcs and the layers of a text are taken as they stand.
fn is_taken(alloc: Global, text: &str) -> Result<bool, Fail> {
    let Ok(parts) = read_parts(alloc, text.as_bytes()) else {
        return Err("refused".into());
    };
    let accepted = boxed(alloc, take(alloc, parts.grid, parts.arcs, parts.layers))?;
    Ok(matches!(*accepted, Accepted::Whole(_)))
}

/// Whether a text's topology has the expected text.
fn is_read_as(alloc: Global, text: &str, expected: &str) -> Result<bool, Fail> {
    let topology = boxed(alloc, read_topology(alloc, text.as_bytes()))?;
    Ok(text_of(alloc, &*topology)?.as_slice() == expected.as_bytes())
}

/// The text of `collection!` with two geometries of a kind, by the lists of arcs of each.
macro_rules! pair {
    ($arcs:literal, $kind:literal, $one:literal, $other:literal) => {
        collection!(
            $arcs,
            concat!(
                r#"[{"type":""#,
                $kind,
                r#"","arcs":"#,
                $one,
                r#"},{"type":""#,
                $kind,
                r#"","arcs":"#,
                $other,
                "}]"
            )
        )
    };
}

/// Texts, the canonical text of what each means, and whether its parts are taken as they stand.
const TEXTS: &[(&str, &str, &str, bool)] = rows! {
    // Texts that are taken, mostly canonical ones.
    "districts that share a border", SQUARES, SQUARES, true;
    "a square", ONE_SQUARE, ONE_SQUARE, true;
    "lines that meet", LINES, LINES, true;
    "a line round a square from its greatest vertex", LOOP_LINE, LOOP_LINE, true;
    "points and the null shape", POINTS, POINTS, true;
    "no layers", NO_LAYERS, NO_LAYERS, true;
    "another spelling and a wrong bbox", collection!("[[[1,0],[-1,0],[0,1],[1,0]], [[1,0],[0,1]], [[1,0],[1,0],[0,1],[-1,0]]]",
        r#"[{"type":"Polygon","arcs":[[1,-1]]}, {"type":"Polygon","arcs":[[2,-2]]}]"#), SQUARES, true;

    // Texts that fail one check each.
    "arcs out of order", pair!("[[[1,0],[0,1]],[[1,0],[-1,0],[0,1],[1,0]],[[1,0],[1,0],[0,1],[-1,0]]]", "Polygon", "[[0,-2]]", "[[2,-1]]"), SQUARES, false;
    "an arc against its direction", pair!("[[[1,0],[-1,0],[0,1],[1,0]],[[1,0],[1,0],[0,1],[-1,0]],[[1,1],[0,-1]]]", "Polygon", "[[-3,-1]]", "[[1,2]]"), SQUARES, false;
    "an arc that no list uses", pair!("[[[1,0],[-1,0],[0,1],[1,0]],[[1,0],[0,1]],[[1,0],[1,0],[0,1],[-1,0]],[[3,3],[1,1]]]", "Polygon", "[[1,-1]]", "[[2,-2]]"), SQUARES, false;
    "a border cut at a vertex of two", pair!("[[[0,0],[0,1],[1,0]],[[0,0],[1,0]],[[1,0],[0,1]],[[1,0],[1,0],[0,1],[-1,0]]]", "Polygon", "[[1,2,-1]]", "[[3,-3]]"), SQUARES, false;
    "two lines that are not cut where they meet", pair!("[[[0,0],[1,0],[1,0]],[[1,0],[0,1]]]", "LineString", "[0]", "[1]"), LINES, false;
    "lines that go on across a junction", pair!("[[[0,1],[1,0],[1,0]],[[1,0],[0,1],[0,1]]]", "LineString", "[0]", "[1]"), CROSSING, false;
    "a loop begun elsewhere", collection!("[[[1,0],[-1,0],[0,1],[1,0],[0,-1]]]", r#"[{"type":"Polygon","arcs":[[-1]]}]"#), ONE_SQUARE, false;
    "a ring begun elsewhere", pair!("[[[1,0],[-1,0],[0,1],[1,0]],[[1,0],[0,1]],[[1,0],[1,0],[0,1],[-1,0]]]", "Polygon", "[[-1,1]]", "[[2,-2]]"), SQUARES, false;
    "features out of order", pair!("[[[1,0],[-1,0],[0,1],[1,0]],[[1,0],[0,1]],[[1,0],[1,0],[0,1],[-1,0]]]", "Polygon", "[[2,-2]]", "[[1,-1]]"), SQUARES, false;
    "a feature twice", collection!("[[[1,0],[-1,0],[0,1],[1,0]],[[1,0],[0,1]],[[1,0],[1,0],[0,1],[-1,0]]]", r#"[{"type":"Polygon","arcs":[[1,-1]]},{"type":"Polygon","arcs":[[1,-1]]},{"type":"Polygon","arcs":[[2,-2]]}]"#), SQUARES, false;
};

#[test]
fn texts_that_are_taken_and_others(rt: HostRuntime) -> Result<(), Fail> {
    for (title, text, expected, are_taken) in TEXTS {
        assert!(rt; is_read_as(rt.alloc(), *text, *expected)?, "{title}");
        assert!(rt;
            is_taken(rt.alloc(), *text)? == *are_taken,
            "{title}: taken"
        );
    }
    Ok(())
}
