//! Geometries that have coordinates, whose members come in any order.
ghost use Rattle.decimal_maps.specs.Geometries.{IsSimple};
ghost use Rattle.decimal_maps.specs.Members.{AreCounted, IsShapeOf, KnowsSimple, LookupMeans};
ghost use Rattle.decimal_maps.specs.Reads.{Gives};
ghost use Rattle.json.specs.Json.{Json, Members, no_members, object};
ghost use Rattle.std.specs.Prelude.{◌≡◌, IfOk};

use crate::coordinates::{Coordinates, read_coordinates, read_typed};
use crate::from_tokens::{FromTokens, Stop};
use crate::kind::{Kind, take_kind};
use crate::object::{Lookup, TakeMember, read_object, skip_value};
use crate::rules::DecimalGrid;
use crate::tally::Tally;
use fixing::Items;
use fixing::raw::RawShape;
use grid::Pos;
use json::Reader;
use reading::geometry::GeometryType;
use std::alloc::Global;

/// What a geometry is read by, and what was counted before it.
#[derive(Drop)]
pub struct GeometryStart {
    pub grid: DecimalGrid,
    pub counted: Tally,
}

/// What was read of a geometry: its type, and its coordinates with what is counted behind them.
#[derive(Drop)]
pub struct SimpleMembers {
    pub kind: Lookup<Kind>,
    pub coordinates: Lookup<(Coordinates, Tally)>,
}

/// Nothing was read yet.
pub fn no_simple_members() -> SimpleMembers
    ensures { (on : GeometryStart) → KnowsSimple on result no_members }
{
    SimpleMembers {
        kind: Lookup::Missing,
        coordinates: Lookup::Missing,
    }
}

// Coordinates by their type, if it is known.
fn read_of<'t>(
    alloc: Global,
    on: &GeometryStart,
    kind: &Lookup<Kind>,
    reader: &mut Reader<'t>,
    depth: usize,
) -> Result<Lookup<(Coordinates, Tally)>, Stop>
    ensures { IfOk result (λ n. (j : Json) × Gives depth reader.old j reader.new × LookupMeans (AreCounted on.now) j n) }
{
    let mut tally = on.counted;
    let coordinates = match kind {
        Lookup::Read(Kind::Simple(kind)) => {
            read_typed(alloc, &on.grid, *kind, reader, depth, &mut tally)?
        }
        Lookup::Missing => read_coordinates(alloc, &on.grid, reader, depth, &mut tally)?,
        _ => {
            skip_value(reader, depth)?;
            return Ok(Lookup::Skipped);
        }
    };
    Ok(Lookup::Read((coordinates, tally)))
}

impl<'t> TakeMember<'t, GeometryStart> for SimpleMembers {
    ghost knows = { λ on m ms. KnowsSimple on m ms };

    fn take(
        &mut self,
        alloc: Global,
        on: &GeometryStart,
        name: &'t str,
        reader: &mut Reader<'t>,
        depth: usize,
    ) -> Result<(), Stop> {
        if name == "type" {
            let kind = take_kind(reader)?;
            self.kind = Lookup::Read(kind);
            return Ok(());
        }
        if name == "coordinates" {
            let coordinates = read_of(alloc, on, &self.kind, reader, depth)?;
            self.coordinates = coordinates;
            return Ok(());
        }
        skip_value(reader, depth)
    }
}

// The shape of the empty list of coordinates.
fn shape_of_nothing(alloc: Global, kind: GeometryType) -> RawShape
    ensures { IsShapeOf kind Coordinates.Empty result }
{
    match kind {
        GeometryType::Point => RawShape::Null,
        GeometryType::MultiPoint => RawShape::MultiPoint(Items::from_vec(Vec::new(alloc))),
        GeometryType::LineString => RawShape::Line(Items::from_vec(Vec::new(alloc))),
        GeometryType::MultiLineString => RawShape::MultiLine(Items::from_vec(Vec::new(alloc))),
        GeometryType::Polygon => RawShape::Polygon(Items::from_vec(Vec::new(alloc))),
        GeometryType::MultiPolygon => RawShape::MultiPolygon(Items::from_vec(Vec::new(alloc))),
    }
}

fn shape_of_place(kind: GeometryType, place: Pos) -> Result<RawShape, Stop>
    ensures { IfOk result (IsShapeOf kind (Coordinates.Place place)) }
{
    match kind {
        GeometryType::Point => Ok(RawShape::Point(place)),
        _ => Err(Stop::Unread),
    }
}

fn shape_of_places(kind: GeometryType, places: Items<Pos>) -> Result<RawShape, Stop>
    ensures { IfOk result (IsShapeOf kind (Coordinates.Places places)) }
{
    match kind {
        GeometryType::MultiPoint => Ok(RawShape::MultiPoint(places)),
        GeometryType::LineString => Ok(RawShape::Line(places)),
        _ => Err(Stop::Unread),
    }
}

fn shape_of_lists(kind: GeometryType, lists: Items<Items<Pos>>) -> Result<RawShape, Stop>
    ensures { IfOk result (IsShapeOf kind (Coordinates.Lists lists)) }
{
    match kind {
        GeometryType::MultiLineString => Ok(RawShape::MultiLine(lists)),
        GeometryType::Polygon => Ok(RawShape::Polygon(lists)),
        _ => Err(Stop::Unread),
    }
}

fn shape_of_groups(kind: GeometryType, groups: Items<Items<Items<Pos>>>) -> Result<RawShape, Stop>
    ensures { IfOk result (IsShapeOf kind (Coordinates.Groups groups)) }
{
    match kind {
        GeometryType::MultiPolygon => Ok(RawShape::MultiPolygon(groups)),
        _ => Err(Stop::Unread),
    }
}

// The shape that coordinates are in a geometry of that type.
fn shape_of(alloc: Global, kind: GeometryType, coordinates: Coordinates) -> Result<RawShape, Stop>
    ensures { IfOk result (IsShapeOf kind coordinates) }
{
    match coordinates {
        Coordinates::Empty => Ok(shape_of_nothing(alloc, kind)),
        Coordinates::Place(place) => shape_of_place(kind, place),
        Coordinates::Places(places) => shape_of_places(kind, places),
        Coordinates::Lists(lists) => shape_of_lists(kind, lists),
        Coordinates::Groups(groups) => shape_of_groups(kind, groups),
    }
}

/// The shape of such a geometry, with what is counted behind it.
pub fn simple_of(alloc: Global, members: SimpleMembers) -> Result<(RawShape, Tally), Stop>
    ensures { IfOk result (λ s. (on : GeometryStart) (ms : Members) → KnowsSimple on members ms → IsSimple on.grid (object ms) s.0 on.counted s.1) }
{
    let SimpleMembers { kind, coordinates } = members;
    let Lookup::Read(Kind::Simple(kind)) = kind else {
        return Err(Stop::Unread);
    };
    let (coordinates, tally) = coordinates.into_required()?;
    let shape = shape_of(alloc, kind, coordinates)?;
    Ok((shape, tally))
}

/// The reader of such geometries.
#[derive(Drop)]
pub struct SimpleGeometry {
    pub grid: DecimalGrid,
}

impl<'t> FromTokens<'t> for SimpleGeometry {
    type Made = RawShape;

    type Count = Tally;

    ghost means = { λ p. IsSimple p.grid };

    fn read(
        &self,
        alloc: Global,
        reader: &mut Reader<'t>,
        depth: usize,
        count: &mut Tally,
    ) -> Result<RawShape, Stop> {
        let start = GeometryStart {
            grid: self.grid,
            counted: *count,
        };
        let mut members = no_simple_members();
        read_object(alloc, &start, &mut members, reader, depth)?;
        let (shape, tally) = simple_of(alloc, members)?;
        *count = tally;
        Ok(shape)
    }
}
