//! Shapes out of coordinates, by the type of the geometry.
ghost use Rattle.geojson_io.specs.Geometries.{coordinates_faults, form_of};
ghost use Rattle.geojson_io.specs.TokenCoordinates.{nested_faults, CoordinatesMean, OutlineOf, OutlinesOf, PolygonsOf, IsShapeOf};
ghost use Rattle.reading.specs.Plain.{plain_form};
ghost use Rattle.std.specs.List.{AllZip};
ghost use Rattle.std.specs.Prelude.{◌≡◌, [], IfOk, OnOk, ◌++◌, ◌∷◌};

use crate::token_reader::coordinates::Coordinates;
use grid::pos::Pos;
use lines::items::Items;
use lines::line::Line;
use lines::ring::Ring;
use lines::shape_fault::ShapeFault;
use reading::geometry::GeometryType;
use reading::outline::Outline;
use reading::tokens::from_tokens::Stop;
use shapes::shape::Shape;
use std::alloc::Global;

fn outline_of<O: Outline>(alloc: Global, positions: Vec<Pos>) -> Result<O, Stop>
    ensures { IfOk result (OutlineOf O.fault O.seen O.of positions) }
{
    match O::from_list(alloc, positions) {
        Ok(outline) => Ok(outline),
        Err(ShapeFault::OutOfMemory) => Err(Stop::OutOfMemory),
        Err(_) => Err(Stop::Unread),
    }
}

fn outlines_of<O: Outline>(alloc: Global, lists: Vec<Vec<Pos>>) -> Result<Vec<O>, Stop>
    ensures { IfOk result (OutlinesOf O.fault O.seen O.of lists) }
{
    let mut found = Vec::new(alloc);
    for list in lists {
        match found.push(outline_of(alloc, list)?) {
            Ok(()) => {}
            Err(_) => return Err(Stop::OutOfMemory),
        }
    }
    Ok(found)
}

fn polygons_of(alloc: Global, groups: Vec<Vec<Vec<Pos>>>) -> Result<Vec<Items<Ring>>, Stop>
    ensures { IfOk result (PolygonsOf groups) }
{
    let mut found = Vec::new(alloc);
    for lists in groups {
        let rings = outlines_of(alloc, lists)?;
        match found.push(Items::from_vec(rings)) {
            Ok(()) => {}
            Err(_) => return Err(Stop::OutOfMemory),
        }
    }
    Ok(found)
}

fn shape_of_place(kind: GeometryType, place: Pos) -> Result<Shape, Stop>
    ensures { IfOk result (IsShapeOf kind (Coordinates.Place place)) }
{
    match kind {
        GeometryType::Point => Ok(Shape::Point(place)),
        _ => Err(Stop::Unread),
    }
}

fn shape_of_places(alloc: Global, kind: GeometryType, places: Vec<Pos>) -> Result<Shape, Stop>
    ensures { IfOk result (IsShapeOf kind (Coordinates.Places places)) }
{
    match kind {
        GeometryType::MultiPoint => Ok(Shape::MultiPoint(Items::from_vec(places))),
        GeometryType::LineString => Ok(Shape::Line(outline_of(alloc, places)?)),
        _ => Err(Stop::Unread),
    }
}

fn shape_of_lists(alloc: Global, kind: GeometryType, lists: Vec<Vec<Pos>>) -> Result<Shape, Stop>
    ensures { IfOk result (IsShapeOf kind (Coordinates.Lists lists)) }
{
    match kind {
        GeometryType::MultiLineString => {
            let lines: Vec<Line> = outlines_of(alloc, lists)?;
            Ok(Shape::MultiLine(Items::from_vec(lines)))
        }
        GeometryType::Polygon => {
            let rings: Vec<Ring> = outlines_of(alloc, lists)?;
            Ok(Shape::Polygon(Items::from_vec(rings)))
        }
        _ => Err(Stop::Unread),
    }
}

fn shape_of_groups(
    alloc: Global,
    kind: GeometryType,
    groups: Vec<Vec<Vec<Pos>>>,
) -> Result<Shape, Stop>
    ensures { IfOk result (IsShapeOf kind (Coordinates.Groups groups)) }
{
    match kind {
        GeometryType::MultiPolygon => {
            let polygons = polygons_of(alloc, groups)?;
            Ok(Shape::MultiPolygon(Items::from_vec(polygons)))
        }
        _ => Err(Stop::Unread),
    }
}

// Of the empty list of coordinates.
fn shape_of_nothing(alloc: Global, kind: GeometryType) -> Result<Shape, Stop>
    ensures { IfOk result (IsShapeOf kind Coordinates.Empty) }
{
    match kind {
        GeometryType::MultiPoint => shape_of_places(alloc, kind, Vec::new(alloc)),
        GeometryType::MultiLineString => shape_of_lists(alloc, kind, Vec::new(alloc)),
        GeometryType::Polygon => shape_of_lists(alloc, kind, Vec::new(alloc)),
        GeometryType::MultiPolygon => shape_of_groups(alloc, kind, Vec::new(alloc)),
        _ => Err(Stop::Unread),
    }
}

/// The shape that coordinates mean in a geometry of that type.
pub fn shape_of(alloc: Global, kind: GeometryType, coordinates: Coordinates) -> Result<Shape, Stop>
    ensures { IfOk result (IsShapeOf kind coordinates) }
{
    match coordinates {
        Coordinates::Empty => shape_of_nothing(alloc, kind),
        Coordinates::Place(place) => shape_of_place(kind, place),
        Coordinates::Places(places) => shape_of_places(alloc, kind, places),
        Coordinates::Lists(lists) => shape_of_lists(alloc, kind, lists),
        Coordinates::Groups(groups) => shape_of_groups(alloc, kind, groups),
    }
}
