//! Topology texts as their parts, before lists of arcs are stitched.
use crate::topo_io_tests::texts::{OTHER_TOOL, is_read_as_built, is_refused, topology};
use chains::ArcRef;
use grid::Pos;
use lines::items::Items;
use reading::tokens::from_tokens::Stop;
use shapes::Id;
use std::alloc::Global;
use std::process::Abort;
use std::test::Fail;
use topo::{Body, Geom};
use topo_io::{TextParts, read_parts};
use worked_maps::{are_used, rows};

/// Whether the parts of a text are not read, for another reason than want of memory.
fn are_parts_unread(alloc: Global, text: &str) -> bool {
    match read_parts(alloc, text.as_bytes()) {
        Ok(_) => false,
        Err(stop) => stop == Stop::Unread,
    }
}

/// A topology with this transform, an arc that begins at this place and has this difference, and a point at this place.
macro_rules! on_grid {
    ($transform:literal, $place:literal, $difference:literal) => {
        concat!(
            r#"{"type":"Topology","transform":"#,
            $transform,
            r#","arcs":[["#,
            $place,
            ",",
            $difference,
            r#"]],"objects":{"a":{"type":"Point","coordinates":"#,
            $place,
            "}}}"
        )
    };
}

/// Texts with a fault that is known without stitching.
const REFUSED: &[(&str, &str)] = rows! {
    "an arc of one position", topology!("[[[0,0]]]", "{}");
    "a number that is not whole", topology!("[[[0,0],[1.5,0]]]", "{}");
    "arcs that are no list", topology!("5", "{}");
    "an index past the arcs", topology!("[[[0,0],[1,0]]]", r#"{"a":{"type":"LineString","arcs":[1]}}"#);
    "an index past the reversed arcs", topology!("[[[0,0],[1,0]]]", r#"{"a":{"type":"LineString","arcs":[-2]}}"#);
    "an index that is not whole", topology!("[[[0,0],[1,0]]]", r#"{"a":{"type":"LineString","arcs":[0.5]}}"#);
    "a ring that is no list", topology!("[[[0,0],[1,0]]]", r#"{"a":{"type":"Polygon","arcs":[0]}}"#);
    "an unknown type", topology!("[]", r#"{"a":{"type":"Line","arcs":[]}}"#);
    "a position of one number", topology!("[]", r#"{"a":{"type":"Point","coordinates":[0]}}"#);
    "an id of the wrong kind", topology!("[]", r#"{"a":{"type":null,"id":[]}}"#);
    "a collection without geometries", topology!("[]", r#"{"a":{"type":"GeometryCollection"}}"#);
    "layers that are no object", topology!("[]", "[]");

    // One step beyond the limits of the numbers of positions: at the place of the arc and the point, or at the arc's end.
    "below the least number across", on_grid!(r#"{"scale":[1,1],"translate":[0,0]}"#, "[-1099511627777,0]", "[1,0]");
    "past the greatest number along, at the end", on_grid!(r#"{"scale":[1,1],"translate":[0,0]}"#, "[0,0]", "[0,1099511627777]");
    "below the least absolute number across", on_grid!(r#"{"scale":[1000000,9000],"translate":[1000000000000,-1]}"#, "[-9008199255,0]", "[1,0]");
    "past the greatest absolute number across", on_grid!(r#"{"scale":[1000000,9000],"translate":[1000000000000,-1]}"#, "[9006199255,0]", "[-1,0]");
    "below the least absolute number along", on_grid!(r#"{"scale":[1000000,9000],"translate":[1000000000000,-1]}"#, "[0,-1000799917194]", "[0,1]");
    "past the greatest absolute number along, at the end", on_grid!(r#"{"scale":[1000000,9000],"translate":[1000000000000,-1]}"#, "[0,0]", "[0,1000799917194]");
};

#[test]
fn other_faults_are_reported(rt: HostRuntime) {
    for (title, text) in REFUSED {
        let is_answered = are_parts_unread(rt.alloc(), *text) && is_refused(rt.alloc(), *text);
        assert!(rt; is_answered, "{title}");
    }
}

const NAME_AGAIN: &str = topology!("[]", r#"{"a":{"type":"Line"},"a":{"type":null,"id":2}}"#);

const EARLY_COORDINATES: &str = topology!(
    "[[[0,0],[1,0]]]",
    r#"{"a":{"coordinates":0,"type":"LineString","arcs":[0]}}"#
);

/// Texts without a fault, in a form that is read by way of a value, and texts that mean the same: themselves, or the same
/// without what is there twice or out of its place.
const BY_VALUES: &[(&str, &str, &str)] = rows! {
    "a layer's name that is repeated, the first layer faulty", NAME_AGAIN, NAME_AGAIN;
    "coordinates of a line, which no type reads, before its type", EARLY_COORDINATES, EARLY_COORDINATES;
    "arcs that are there twice",
        r#"{"type":"Topology","transform":{"scale":[1,1],"translate":[0,0]},"arcs":"none yet","objects":{"a":{"type":"LineString","arcs":[-1]}},"arcs":[[[0,0],[1,0]]]}"#,
        r#"{"type":"Topology","transform":{"scale":[1,1],"translate":[0,0]},"objects":{"a":{"type":"LineString","arcs":[-1]}},"arcs":[[[0,0],[1,0]]]}"#;
    "types that are there twice, and a list of arcs",
        r#"{"type":"None","type":"Topology","transform":{"scale":[1,1],"translate":[0,0]},"objects":{"a":{"type":"Point","type":"LineString","arcs":[-1,"b"],"arcs":[-1]}},"arcs":[[[0,0],[0,0],[1,0]]]}"#,
        r#"{"type":"Topology","transform":{"scale":[1,1],"translate":[0,0]},"objects":{"a":{"type":"LineString","arcs":[-1]}},"arcs":[[[0,0],[0,0],[1,0]]]}"#;
    "a layer that is there twice, and in it a list of arcs and a property",
        r#"{"type":"Topology","transform":{"scale":[1,1],"translate":[0,0]},"objects":{"a":{"arcs":[[7]],"type":"LineString","arcs":[-1]},"a":{"arcs":[{}],"type":null,"properties":{"n":1,"n":2}}},"arcs":[]}"#,
        r#"{"type":"Topology","transform":{"scale":[1,1],"translate":[0,0]},"objects":{"a":{"type":null,"properties":{"n":2}}},"arcs":[]}"#;
};

#[test]
fn other_forms_are_read_as_values(rt: HostRuntime) -> Result<(), Fail> {
    for (title, text, other) in BY_VALUES {
        assert!(rt; are_parts_unread(rt.alloc(), *text), "{title}: parts");
        assert!(rt; is_read_as_built(rt.alloc(), *text, *other)?, "{title}");
    }
    Ok(())
}

fn is_at(position: &Pos, place: &(i64, i64)) -> bool {
    position.x() == place.0 && position.y() == place.1
}

/// A body by its only list of used arcs, by those of each of its polygons, or by its only place.
#[derive(Clone, Copy)]
enum Listed {
    Null,
    Point((i64, i64)),
    Points((i64, i64)),
    Line(&'static [i64]),
    Lines(&'static [i64]),
    Polygon(&'static [i64]),
    Polygons(&'static [&'static [&'static [i64]]]),
}

fn are_lists(lists: &[Items<ArcRef>], wanted: &[&[i64]]) -> bool {
    for (list, indexes) in lists.iter().zip(wanted) {
        if !are_used(list.as_slice(), *indexes) {
            return false;
        }
    }
    lists.len() == wanted.len()
}

fn are_polygons(polygons: &[Items<Items<ArcRef>>], wanted: &[&[&[i64]]]) -> bool {
    for (rings, lists) in polygons.iter().zip(wanted) {
        if !are_lists(rings.as_slice(), *lists) {
            return false;
        }
    }
    polygons.len() == wanted.len()
}

fn is_body(body: &Body, listed: Listed) -> bool {
    match (body, listed) {
        (Body::Null, Listed::Null) => true,
        (Body::Point(position), Listed::Point(place)) => is_at(position, &place),
        (Body::MultiPoint(positions), Listed::Points(place)) => {
            matches!(positions.as_slice(), [position] if is_at(position, &place))
        }
        (Body::Line(list), Listed::Line(indexes)) => are_used(list.as_slice(), indexes),
        (Body::MultiLine(lists), Listed::Lines(indexes)) => are_lists(lists.as_slice(), &[indexes]),
        (Body::Polygon(rings), Listed::Polygon(indexes)) => are_lists(rings.as_slice(), &[indexes]),
        (Body::MultiPolygon(polygons), Listed::Polygons(wanted)) => {
            are_polygons(polygons.as_slice(), wanted)
        }
        _ => false,
    }
}

fn check_bodies(rt: &impl Abort, text: &str, geometries: &[Geom], bodies: &[Listed]) {
    for (place, (geometry, listed)) in geometries.iter().zip(bodies).enumerate() {
        assert!(rt;
            is_body(&geometry.body, *listed),
            "{text}: geometry {place}"
        );
    }
    assert!(rt; geometries.len() == bodies.len(), "{text}");
}

/// The geometries of the only layer, where it has that name.
fn geometries_of<'a>(parts: &'a TextParts, name: &str) -> Option<&'a [Geom]> {
    match parts.layers.as_slice() {
        [layer] if layer.name().text() == name => Some(layer.geometries()),
        _ => None,
    }
}

/// A layer of five geometries, each of another kind.
const EACH_KIND: &str = topology!(
    "[[[0,0],[1,0]],[[1,0],[0,1],[-1,-1]]]",
    r#"{"b":{"type":"GeometryCollection","geometries":[{"type":"MultiPolygon","arcs":[[[0,1]]],"id":7},{"type":"MultiPoint","coordinates":[[3,4]]},{"type":"MultiLineString","arcs":[[-1]]},{"type":null},{"type":"Point","coordinates":[1,2]}]}}"#
);

/// Polygons of which the first has no ring.
const NO_RINGS: &str = topology!(
    "[[[0,0],[1,0]],[[1,0],[0,1],[-1,-1]]]",
    r#"{"a":{"type":"GeometryCollection","geometries":[{"type":"MultiPolygon","arcs":[[]]},{"arcs":[[],[[0,1]]],"type":"MultiPolygon"},{"type":"MultiPolygon","arcs":[[],[],[[0],[1]],[]]}]}}"#
);

/// The text of a topology with this geometry alone.
macro_rules! of_geometry {
    ($geometry:literal) => {
        topology!(
            "[[[0,0],[1,0]],[[1,0],[0,1],[-1,-1]]]",
            concat!(r#"{"a":"#, $geometry, "}")
        )
    };
}

/// Texts, the name of the only layer of each, and its bodies.
const BODIES: &[(&str, &str, &[Listed])] = rows! {
    EACH_KIND, "b", &[Listed::Polygons(&[&[&[0, 1]]]), Listed::Points((3, 4)), Listed::Lines(&[-1]), Listed::Null, Listed::Point((1, 2))];
    NO_RINGS, "a", &[Listed::Polygons(&[&[]]), Listed::Polygons(&[&[], &[&[0, 1]]]), Listed::Polygons(&[&[], &[], &[&[0], &[1]], &[]])];
    OTHER_TOOL, "a", &[Listed::Polygon(&[0, 1])];

    // Lines with coordinates and points with lists of arcs, before and after the type.
    of_geometry!(r#"{"type":"LineString","arcs":[0],"coordinates":[5,6]}"#), "a", &[Listed::Line(&[0])];
    of_geometry!(r#"{"coordinates":[5,6],"arcs":[-1],"type":"LineString"}"#), "a", &[Listed::Line(&[-1])];
    of_geometry!(r#"{"coordinates":[[5,6]],"type":"Polygon","arcs":[[1]]}"#), "a", &[Listed::Polygon(&[1])];
    of_geometry!(r#"{"type":"MultiLineString","coordinates":{"x":[0.5,null]},"arcs":[[1]]}"#), "a", &[Listed::Lines(&[1])];
    of_geometry!(r#"{"arcs":[[[1]]],"type":"MultiPolygon","coordinates":"x"}"#), "a", &[Listed::Polygons(&[&[&[1]]])];
    of_geometry!(r#"{"type":"Point","arcs":[9],"coordinates":[5,6]}"#), "a", &[Listed::Point((5, 6))];
    of_geometry!(r#"{"arcs":[[9]],"coordinates":[5,6],"type":"Point"}"#), "a", &[Listed::Point((5, 6))];
    of_geometry!(r#"{"type":"MultiPoint","coordinates":[[5,6]],"arcs":false}"#), "a", &[Listed::Points((5, 6))];
    of_geometry!(r#"{"type":null,"coordinates":0,"arcs":0.5}"#), "a", &[Listed::Null];
    of_geometry!(r#"{"coordinates":[5,6],"arcs":[],"type":null}"#), "a", &[Listed::Null];
    of_geometry!(r#"{"type":"LineString","type":"Point","coordinates":[5,6]}"#), "a", &[Listed::Point((5, 6))];

    // Positions at the limits: of grid numbers, 2^40, on the unit grid, and of absolute numbers, 2^53 - 1, on another.
    on_grid!(r#"{"scale":[1,1],"translate":[0,0]}"#, "[-1099511627776,1099511627776]", "[2199023255552,-2199023255552]"), "a", &[Listed::Point((-1_099_511_627_776, 1_099_511_627_776))];
    on_grid!(r#"{"scale":[1,1],"translate":[0,0]}"#, "[1099511627776,-1099511627776]", "[-2199023255552,2199023255552]"), "a", &[Listed::Point((1_099_511_627_776, -1_099_511_627_776))];
    on_grid!(r#"{"scale":[1000000,9000],"translate":[1000000000000,-1]}"#, "[-9008199254,1000799917193]", "[18014398508,-2001599834386]"), "a", &[Listed::Point((-9_008_199_254, 1_000_799_917_193))];
    on_grid!(r#"{"scale":[1000000,9000],"translate":[1000000000000,-1]}"#, "[9006199254,-1000799917193]", "[-18014398508,2001599834386]"), "a", &[Listed::Point((9_006_199_254, -1_000_799_917_193))];
};

#[test]
fn bodies_of_each_kind(rt: HostRuntime) {
    for (text, name, bodies) in BODIES {
        let parts = read_parts(rt.alloc(), text.as_bytes())
            .ok()
            .expect(&rt, *text);
        let geometries = geometries_of(&parts, *name).expect(&rt, *text);
        check_bodies(&rt, *text, geometries, *bodies);
    }
}

/// A layer of one feature whose id is the greatest.
const GREATEST_ID: &str = topology!("[]", r#"{"a":{"type":null,"id":9223372036854775807}}"#);

/// Layers of which two have names that come again.
const NAMES_AGAIN: &str = topology!(
    "[]",
    r#"{"b":{"type":null,"id":1},"a":{"type":null,"id":2},"c":{"type":null,"id":3},"b":{"type":null,"id":4},"":{"type":null,"id":5},"b":{"type":null,"id":6},"c":{"type":null,"id":7}}"#
);

/// Texts, how many layers each has, the place and the name of one of them, and the id of its only geometry. Of layers by
/// one name the last stays.
const LAYERS: &[(&str, usize, usize, &str, i64)] = rows! {
    NAMES_AGAIN, 4, 0, "", 5;
    NAMES_AGAIN, 4, 1, "a", 2;
    NAMES_AGAIN, 4, 2, "b", 6;
    NAMES_AGAIN, 4, 3, "c", 7;
    GREATEST_ID, 1, 0, "a", i64::MAX;
};

#[test]
fn layers_in_the_order_of_their_names(rt: HostRuntime) {
    for (text, count, place, name, id) in LAYERS {
        let parts = read_parts(rt.alloc(), text.as_bytes())
            .ok()
            .expect(&rt, *text);
        let layer = parts.layers.get(*place).expect(&rt, *text);
        let is_only = matches!(layer.geometries(), [only] if only.id == Id::Number(*id));
        let is_named = parts.layers.len() == *count && layer.name().text() == *name;
        assert!(rt; is_only && is_named, "{text}: {name}");
    }
}

/// Whether the parts are three arcs on the unit grid, of which the second ends at the origin.
fn are_arcs_of_other_tool(parts: &TextParts) -> bool {
    match parts.arcs.as_slice() {
        [_, second, _] => {
            parts.grid.scale() == (1, 1)
                && second
                    .as_slice()
                    .last()
                    .is_some_and(|position| is_at(position, &(0, 0)))
        }
        _ => false,
    }
}

#[test]
fn arcs_as_they_are(rt: HostRuntime) -> Result<(), Fail> {
    let parts = read_parts(rt.alloc(), OTHER_TOOL.as_bytes())?;
    assert!(rt; are_arcs_of_other_tool(&parts));
    Ok(())
}
