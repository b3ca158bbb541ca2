//! Geometries of any type, whose members come in any order.
ghost use Rattle.decimal_maps.specs.Geometries.{IsGeometry};
ghost use Rattle.decimal_maps.specs.Members.{AreSimple, IsCountedGeometry, KnowsGeometry, LookupMeans};
ghost use Rattle.decimal_maps.specs.Reads.{Gives, GivesMembers};
ghost use Rattle.decimal_maps.specs.Tally.{nothing_counted};
ghost use Rattle.json.specs.Json.{Json, Members, no_members, object};
ghost use Rattle.std.specs.Prelude.{◌≡◌, IfOk};

use crate::from_tokens::Stop;
use crate::kind::Kind;
use crate::list::read_list;
use crate::object::{Lookup, TakeMember, read_members, skip_value};
use crate::rules::DecimalGrid;
use crate::simple::{GeometryStart, SimpleGeometry, SimpleMembers, no_simple_members, simple_of};
use crate::tally::Tally;
use fixing::raw::{RawGeometry, RawShape};
use json::{Reader, Token};
use std::alloc::Global;

/// What was read of a geometry: what it has if it is no collection, and its geometries if it is one, with what is
/// counted behind them.
#[derive(Drop)]
pub struct GeometryMembers {
    pub simple: SimpleMembers,
    pub geometries: Lookup<(Vec<RawShape>, Tally)>,
}

/// Nothing was read yet.
pub fn no_geometry_members() -> GeometryMembers
    ensures { (on : GeometryStart) → KnowsGeometry on result no_members }
{
    GeometryMembers {
        simple: no_simple_members(),
        geometries: Lookup::Missing,
    }
}

// The geometries of a collection, none of which is a collection.
fn read_geometries<'t>(
    alloc: Global,
    on: &GeometryStart,
    reader: &mut Reader<'t>,
    depth: usize,
) -> Result<(Vec<RawShape>, Tally), Stop>
    ensures { IfOk result (λ n. (j : Json) × Gives depth reader.old j reader.new × AreSimple on.now j n) }
{
    let mut tally = on.counted;
    let simple = SimpleGeometry { grid: on.grid };
    let shapes = read_list(alloc, &simple, reader, depth, &mut tally)?;
    Ok((shapes, tally))
}

// The geometries of a collection, or nothing where the type is that of no collection.
fn read_collected<'t>(
    alloc: Global,
    on: &GeometryStart,
    kind: &Lookup<Kind>,
    reader: &mut Reader<'t>,
    depth: usize,
) -> Result<Lookup<(Vec<RawShape>, Tally)>, Stop>
    ensures { IfOk result (λ n. (j : Json) × Gives depth reader.old j reader.new × LookupMeans (AreSimple on.now) j n) }
{
    match kind {
        Lookup::Missing => Ok(Lookup::Read(read_geometries(alloc, on, reader, depth)?)),
        Lookup::Read(Kind::GeometryCollection) => {
            Ok(Lookup::Read(read_geometries(alloc, on, reader, depth)?))
        }
        _ => {
            skip_value(reader, depth)?;
            Ok(Lookup::Skipped)
        }
    }
}

impl<'t> TakeMember<'t, GeometryStart> for GeometryMembers {
    ghost knows = { λ on m ms. KnowsGeometry on m ms };

    fn take(
        &mut self,
        alloc: Global,
        on: &GeometryStart,
        name: &'t str,
        reader: &mut Reader<'t>,
        depth: usize,
    ) -> Result<(), Stop> {
        if name == "geometries" {
            let geometries = read_collected(alloc, on, &self.simple.kind, reader, depth)?;
            self.geometries = geometries;
            return Ok(());
        }
        self.simple.take(alloc, on, name, reader, depth)
    }
}

/// The geometry of such members, with what is counted behind it.
pub fn geometry_of(alloc: Global, members: GeometryMembers) -> Result<(RawGeometry, Tally), Stop>
    ensures { IfOk result (λ g. (on : GeometryStart) (ms : Members) → KnowsGeometry on members ms → IsGeometry on.grid (object ms) g.0 on.counted g.1) }
{
    let GeometryMembers { simple, geometries } = members;
    if let Lookup::Read(Kind::GeometryCollection) = simple.kind {
        let (shapes, tally) = geometries.into_required()?;
        return Ok((RawGeometry::Collection(shapes), tally));
    }
    let (shape, tally) = simple_of(alloc, simple)?;
    Ok((RawGeometry::One(shape), tally))
}

// The geometry of an object that has begun.
fn read_started<'t>(
    alloc: Global,
    grid: &DecimalGrid,
    reader: &mut Reader<'t>,
    depth: usize,
) -> Result<(RawGeometry, Tally), Stop>
    ensures { IfOk result (λ g. (ms : Members) × GivesMembers depth reader.old ms reader.new × IsGeometry grid.now (object ms) g.0 nothing_counted g.1) }
{
    let start = GeometryStart {
        grid: *grid,
        counted: Tally::new(),
    };
    let mut members = no_geometry_members();
    read_members(alloc, &start, &mut members, reader, depth)?;
    geometry_of(alloc, members)
}

/// The geometry or the null that comes next.
pub fn read_geometry<'t>(
    alloc: Global,
    grid: &DecimalGrid,
    reader: &mut Reader<'t>,
    depth: usize,
) -> Result<(RawGeometry, Tally), Stop>
    ensures { IfOk result (λ g. (j : Json) × Gives depth reader.old j reader.new × IsCountedGeometry grid.now j g) }
{
    let Some(token) = reader.next() else {
        return Err(Stop::Unread);
    };
    match token {
        Token::Null => Ok((RawGeometry::One(RawShape::Null), Tally::new())),
        Token::BeginObject => {
            if depth == 0 {
                return Err(Stop::Unread);
            }
            read_started(alloc, grid, reader, depth - 1)
        }
        _ => Err(Stop::Unread),
    }
}
