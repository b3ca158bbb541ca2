//! Coordinates by how deep their brackets nest.
ghost use Rattle.decimal_maps.specs.Members.{CoordinatesMean};
ghost use Rattle.decimal_maps.specs.Reads.{Reads};
ghost use Rattle.std.specs.Prelude.{IfOk};

use crate::from_tokens::{FromTokens, Stop};
use crate::list::ListOf;
use crate::opened::{FromOpened, number_or_array};
use crate::rules::DecimalGrid;
use crate::tally::Tally;
use crate::token::take_begin_array;
use fixing::Items;
use grid::Pos;
use json::Reader;
use reading::geometry::GeometryType;
use std::alloc::Global;

/// A position, a list of them, a list of lists, or a list of those.
#[derive(Drop)]
pub enum Coordinates {
    /// The empty list, of whatever.
    Empty,
    Place(Pos),
    Places(Items<Pos>),
    Lists(Items<Items<Pos>>),
    Groups(Items<Items<Items<Pos>>>),
}

/// The coordinates that come next, whatever the type beside them.
pub fn read_coordinates<'t>(
    alloc: Global,
    grid: &DecimalGrid,
    reader: &mut Reader<'t>,
    depth: usize,
    tally: &mut Tally,
) -> Result<Coordinates, Stop>
    ensures { IfOk result (λ n. Reads (CoordinatesMean grid.now) depth reader.old reader.new tally.old tally.new n) }
{
    let places = ListOf { of: *grid };
    let lists = ListOf { of: places };
    let groups = ListOf { of: lists };
    take_begin_array(reader, depth)?;
    if reader.take_end_array() {
        return Ok(Coordinates::Empty);
    }
    if let Some(x) = number_or_array(reader)? {
        return Ok(Coordinates::Place(grid.read_opened(alloc, x, reader, depth, tally)?));
    }
    if let Some(x) = number_or_array(reader)? {
        return Ok(Coordinates::Places(places.read_opened(alloc, x, reader, depth, tally)?));
    }
    if let Some(x) = number_or_array(reader)? {
        return Ok(Coordinates::Lists(lists.read_opened(alloc, x, reader, depth, tally)?));
    }
    if let Some(x) = number_or_array(reader)? {
        return Ok(Coordinates::Groups(groups.read_opened(alloc, x, reader, depth, tally)?));
    }
    Err(Stop::Unread)
}

/// The coordinates that come next, of a geometry of this type.
pub fn read_typed<'t>(
    alloc: Global,
    grid: &DecimalGrid,
    kind: GeometryType,
    reader: &mut Reader<'t>,
    depth: usize,
    tally: &mut Tally,
) -> Result<Coordinates, Stop>
    ensures { IfOk result (λ n. Reads (CoordinatesMean grid.now) depth reader.old reader.new tally.old tally.new n) }
{
    let places = ListOf { of: *grid };
    let lists = ListOf { of: places };
    let groups = ListOf { of: lists };
    match kind {
        GeometryType::Point => read_coordinates(alloc, grid, reader, depth, tally),
        GeometryType::MultiPoint | GeometryType::LineString => Ok(Coordinates::Places(places.read(
            alloc, reader, depth, tally,
        )?)),
        GeometryType::MultiLineString | GeometryType::Polygon => Ok(Coordinates::Lists(lists.read(
            alloc, reader, depth, tally,
        )?)),
        GeometryType::MultiPolygon => Ok(Coordinates::Groups(groups.read(
            alloc, reader, depth, tally,
        )?)),
    }
}
