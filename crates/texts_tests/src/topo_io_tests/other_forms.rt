//! Texts in the form of other tools: arcs by first sight and as they were met, cut or doubled, features in the order of
//! the input.
ghost use Rattle.validate.specs.Accept.Laws.{HaveI64};

use crate::topo_io_tests::texts::{built_text, is_read_as_built};
use grid::{Grid, Pos};
use lines::items::Items;
use normalize::{normalize, without_repeats};
use std::alloc::Global;
use std::test::Fail;
use topo::Layer;
use topo_io::read_parts;
use validate::accept::{Accepted, layers_sorted, take};
use worked_maps::{boxed, rows};

/// The text of a topology on the unit grid with these arcs and these geometries, in the order in which
/// topojson-server writes its members.
macro_rules! topology {
    ($arcs:literal, $geometries:literal) => {
        concat!(
            r#"{"type":"Topology","bbox":[0,0,9,9],"transform":{"scale":[1,1],"translate":[0,0]},"objects":{"a":{"type":"GeometryCollection","geometries":"#,
            $geometries,
            r#"}},"arcs":"#,
            $arcs,
            "}"
        )
    };
}

/// Whether arcs and layers are taken once they are normalized.
fn are_taken(alloc: Global, grid: Grid, arcs: &[Items<Pos>], layers: &[Layer]) -> Result<bool, Fail>
    requires { HaveI64 layers.now }
{
    let Some(normalized) = normalize(alloc, arcs, layers)? else {
        return Ok(false);
    };
    let layers = normalized.layers;
    let sorted = layers_sorted(alloc, &normalized.arcs, layers)?;
    let arcs = normalized.arcs.into_arcs(alloc)?;
    let accepted = boxed(alloc, take(alloc, grid, arcs, sorted))?;
    Ok(matches!(*accepted, Accepted::Whole(_)))
}

/// Whether the arcs and the layers of a text are taken once they are without repeated positions, and normalized.
fn is_taken_normalized(alloc: Global, text: &str) -> Result<bool, Fail> {
    let Ok(parts) = read_parts(alloc, text.as_bytes()) else {
        return Err("refused".into());
    };
    match without_repeats(alloc, &parts.arcs, &parts.layers)? {
        Some(without) => are_taken(alloc, parts.grid, &without.arcs, &without.layers),
        None => are_taken(alloc, parts.grid, &parts.arcs, &parts.layers),
    }
}

const LEFT_FIRST: &str = topology!(
    "[[[1,0],[0,1]],[[1,1],[-1,0],[0,-1],[1,0]],[[1,0],[1,0],[0,1],[-1,0]]]",
    r#"[{"type":"Polygon","arcs":[[0,1]],"id":"left"},{"type":"Polygon","arcs":[[2,-1]],"id":"right"}]"#
);

const RIGHT_FIRST: &str = topology!(
    "[[[1,0],[1,0],[0,1],[-1,0]],[[1,1],[0,-1]],[[1,1],[-1,0],[0,-1],[1,0]]]",
    r#"[{"type":"Polygon","arcs":[[0,1]],"id":"right"},{"type":"Polygon","arcs":[[-2,2]],"id":"left"}]"#
);

/// Texts of the form of topojson-server.
const OTHER_FORMS: &[(&str, &str)] = rows! {
    // Arcs, rings or features are in another order.
    "two squares that share an edge, the left one first", LEFT_FIRST;
    "two squares that share an edge, the right one first", RIGHT_FIRST;
    "an island with a lake, both begun elsewhere and the lake first against its direction", topology!("[[[4,0],[0,4],[-4,0],[0,-4],[4,0]],[[1,3],[2,0],[0,-2],[-2,0],[0,2]]]",
        r#"[{"type":"Polygon","arcs":[[0],[1]],"properties":{"name":"island"}}]"#);
    "a lake that touches a junction", topology!("[[[4,0],[0,4]],[[4,4],[-4,0],[0,-4],[4,0]],[[4,4],[-2,-1],[1,-1],[1,2]],[[4,0],[4,0],[0,4],[-4,0]]]",
        r#"[{"type":"Polygon","arcs":[[0,1],[2]],"id":1},{"type":"Polygon","arcs":[[3,-1]],"id":2}]"#);
    "a line that is used against the direction of its arcs", topology!("[[[2,0],[-1,0]],[[1,0],[-1,0]],[[1,0],[0,1]]]",
        r#"[{"type":"LineString","arcs":[0,1],"id":"b"},{"type":"LineString","arcs":[2],"id":"a"}]"#);
    "features out of order by ids, where numbers come before texts and none before both", topology!("[[[0,0],[1,0]],[[2,0],[1,0]],[[4,0],[1,0]],[[6,0],[1,0]],[[8,0],[1,0]]]",
        r#"[{"type":"LineString","arcs":[0],"id":"b"},{"type":"LineString","arcs":[1],"id":10},{"type":"LineString","arcs":[2],"id":"a"},{"type":"LineString","arcs":[3],"id":-9},{"type":"LineString","arcs":[4]}]"#);
    "features out of order by properties", topology!("[[[0,0],[1,0]],[[2,0],[1,0]],[[4,0],[1,0]]]",
        r#"[{"type":"LineString","arcs":[0],"properties":{"n":2}},{"type":"LineString","arcs":[1],"properties":{"n":10}},{"type":"LineString","arcs":[2],"properties":{"m":3}}]"#);
    "features out of order by kind", topology!("[[[0,0],[1,0]],[[2,0],[0,1],[1,0],[-1,-1]]]",
        r#"[{"type":"Polygon","arcs":[[1]]},{"type":"MultiLineString","arcs":[[0]]},{"type":"Point","coordinates":[5,5]},{"type":null}]"#);

    // Arcs are cut, doubled or used by nobody.
    "a border that is cut at a vertex of two", topology!("[[[1,0],[0,1]],[[1,1],[-1,0],[0,-1]],[[0,0],[1,0]],[[1,0],[1,0],[0,1],[-1,0]]]",
        r#"[{"type":"Polygon","arcs":[[0,1,2]],"id":"left"},{"type":"Polygon","arcs":[[3,-1]],"id":"right"}]"#);
    "a border that stands twice among the arcs", topology!("[[[1,0],[0,1]],[[1,1],[-1,0],[0,-1],[1,0]],[[1,0],[1,0],[0,1],[-1,0]],[[1,1],[0,-1]]]",
        r#"[{"type":"Polygon","arcs":[[0,1]],"id":"left"},{"type":"Polygon","arcs":[[2,3]],"id":"right"}]"#);
    "an arc that no list uses", topology!("[[[1,0],[0,1]],[[1,1],[-1,0],[0,-1],[1,0]],[[7,7],[1,1]]]",
        r#"[{"type":"Polygon","arcs":[[0,1]],"id":"left"}]"#);
    "a line that goes on across a junction", topology!("[[[0,1],[1,0],[1,0]],[[1,0],[0,1],[0,1]]]",
        r#"[{"type":"LineString","arcs":[0],"id":1},{"type":"LineString","arcs":[1],"id":2}]"#);

    // Features of one layer agree in id, properties and kind, or are there twice.
    "a feature that is there twice", topology!("[[[1,0],[0,1]],[[1,1],[-1,0],[0,-1],[1,0]],[[1,0],[1,0],[0,1],[-1,0]]]",
        r#"[{"type":"Polygon","arcs":[[0,1]],"id":"left"},{"type":"Polygon","arcs":[[2,-1]],"id":"right"},{"type":"Polygon","arcs":[[0,1]],"id":"left"}]"#);
    "a feature that is there twice, the second time begun elsewhere and by other arcs", topology!("[[[1,0],[0,1]],[[1,1],[-1,0],[0,-1],[1,0]],[[0,0],[1,0],[0,1],[-1,0],[0,-1]]]",
        r#"[{"type":"Polygon","arcs":[[0,1]]},{"type":"Point","coordinates":[5,5]},{"type":"Polygon","arcs":[[2]]}]"#);
    "two squares without ids, the right one first", topology!("[[[1,0],[1,0],[0,1],[-1,0]],[[1,1],[0,-1]],[[1,1],[-1,0],[0,-1],[1,0]]]",
        r#"[{"type":"Polygon","arcs":[[0,1]]},{"type":"Polygon","arcs":[[-2,2]]}]"#);
    "lines without ids, out of order", topology!("[[[3,0],[1,0]],[[0,0],[1,0]],[[1,0],[0,1]]]",
        r#"[{"type":"LineString","arcs":[0]},{"type":"LineString","arcs":[1,2]},{"type":"LineString","arcs":[1]}]"#);
    "points, lists of points, lists of lines and of polygons without ids, out of order", topology!("[[[3,0],[1,0],[0,1],[-1,-1]],[[0,0],[1,0]],[[1,0],[0,1]],[[0,0],[0,1],[1,0],[-1,-1]]]",
        r#"[{"type":"MultiPolygon","arcs":[[[0]],[[3]]]},{"type":"MultiPolygon","arcs":[[[3]],[[0]]]},{"type":"MultiLineString","arcs":[[2],[1]]},{"type":"MultiLineString","arcs":[[1],[2]]},{"type":"MultiPoint","coordinates":[[7,7],[6,6]]},{"type":"MultiPoint","coordinates":[[6,6]]},{"type":"Point","coordinates":[5,6]},{"type":"Point","coordinates":[5,5]},{"type":"Point","coordinates":[5,6]},{"type":null},{"type":null}]"#);
    "lakes whose lists begin behind their least steps, out of order", topology!("[[[4,0],[0,4],[-4,0],[0,-4],[4,0]],[[3,0],[0,3],[-3,0],[0,-3],[3,0]],[[3,0],[1,0]],[[4,0],[3,0]]]",
        r#"[{"type":"Polygon","arcs":[[0]]},{"type":"LineString","arcs":[3]},{"type":"LineString","arcs":[2]}]"#);

    // Arcs repeat positions.
    "a position twice inside an arc, and at both ends of another", topology!("[[[1,0],[0,0],[0,1]],[[1,1],[0,0],[-1,0],[0,-1],[0,0],[0,0],[1,0],[0,0]],[[1,0],[1,0],[0,1],[0,0],[0,0],[-1,0]]]",
        r#"[{"type":"Polygon","arcs":[[0,1]],"id":"left"},{"type":"Polygon","arcs":[[2,-1]],"id":"right"}]"#);
    "an arc of equal positions alone, first, between others and last, and one that no list uses", topology!("[[[1,0],[0,0]],[[1,0],[0,1]],[[1,1],[0,0],[0,0]],[[1,1],[-1,0],[0,-1],[1,0]],[[7,7],[0,0]]]",
        r#"[{"type":"Polygon","arcs":[[0,1,2,3,-1]],"id":"left"},{"type":"LineString","arcs":[-1,1,-3]},{"type":"MultiLineString","arcs":[[-4,-3,2],[1]]}]"#);
    "an arc that is another one with a position twice, used against its direction", topology!("[[[0,0],[1,0],[0,1]],[[1,1],[0,-1],[0,0],[-1,0]]]",
        r#"[{"type":"LineString","arcs":[-2]},{"type":"LineString","arcs":[0],"id":1},{"type":"LineString","arcs":[0]}]"#);
    "a ring whose least vertex is there twice inside its arc", topology!("[[[4,0],[0,4],[-4,0],[0,0],[0,-4],[0,0],[4,0]]]",
        r#"[{"type":"MultiPolygon","arcs":[[[0]]]},{"type":"Polygon","arcs":[[-1]]}]"#);
};

/// Each text's topology is as it is built, and is taken once the text is normalized.
#[test]
fn texts_of_the_form_of_topojson_server_are_taken(rt: HostRuntime) -> Result<(), Fail> {
    for (title, text) in OTHER_FORMS {
        assert!(rt; is_read_as_built(rt.alloc(), *text, *text)?, "{title}");
        assert!(rt; is_taken_normalized(rt.alloc(), *text)?, "{title}: taken");
    }
    Ok(())
}

#[test]
fn both_orders_of_two_squares_are_one_topology(rt: HostRuntime) -> Result<(), Fail> {
    let built = built_text(rt.alloc(), LEFT_FIRST)?;
    assert!(rt; built == built_text(rt.alloc(), RIGHT_FIRST)?);
    Ok(())
}
