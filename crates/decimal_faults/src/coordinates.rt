//! The coordinates of geometries.
ghost use Rattle.decimal_faults.specs.Geometries.{coordinates_faults, is_nothing, point_faults};
ghost use Rattle.decimal_faults.specs.Shapes.{IsShapeOf};
ghost use Rattle.fixing.specs.declared.rules.FixingRules.{FixingRules as Rules};
ghost use Rattle.json.specs.Find.{as_array};
ghost use Rattle.json.specs.Value.{value_view};
ghost use Rattle.reading.specs.FaultLists.Found.{pairs_of};
ghost use Rattle.reading.specs.declared.geometry.GeometryType.TheVariants as kinds;
ghost use Rattle.std.specs.Prelude.{◌≡◌, ◌≢◌, [], IfOk, Err};

use crate::lists::{ListOf, items_of};
use crate::outline::{Outline, OutlineOn};
use crate::part::Part;
use decimal_maps::{DecimalGrid, Stop, Tally};
use faults::OutOfMemory;
use faults::fault::Fault;
use fixing::{FixingRules, RawShape};
use json::Value;
use reading::geometry::GeometryType;
use std::alloc::Global;

/// Whether a value is an array of nothing.
pub fn is_empty(value: &Value<'_>) -> bool
    ensures { result ≡ is_nothing (as_array (value_view value.now)) }
{
    match items_of(value) {
        Some(items) => items.len() == 0,
        None => false,
    }
}

// The faults of a point, which may be without a position.
fn judge_point(
    alloc: Global,
    grid: &DecimalGrid,
    fixing: &FixingRules,
    value: &Value<'_>,
) -> Result<Vec<Fault>, OutOfMemory>
    ensures { IfOk result (λ fs. pairs_of fs.items ≡ point_faults grid.now (value_view value.now)) }
{
    if is_empty(value) {
        return Ok(Vec::new(alloc));
    }
    grid.judge(alloc, fixing, value)
}

fn make_point(
    alloc: Global,
    grid: &DecimalGrid,
    value: &Value<'_>,
    tally: &mut Tally,
) -> Result<RawShape, Stop>
    ensures made { IfOk result (λ s. IsShapeOf grid.now kinds.Point (value_view value.now) s tally.old tally.new) }
    ensures refused { result ≡ Err Stop.Unread → Rules → point_faults grid.now (value_view value.now) ≢ [] }
{
    if is_empty(value) {
        return Ok(RawShape::Null);
    }
    match grid.make(alloc, value, tally) {
        Ok(place) => Ok(RawShape::Point(place)),
        Err(stop) => Err(stop),
    }
}

/// The member `coordinates` of a geometry of that type.
#[derive(Clone, Copy)]
pub struct CoordinatesOf {
    pub grid: DecimalGrid,
    pub kind: GeometryType,
}

impl CoordinatesOf {
    fn lists(&self, outline: Outline) -> ListOf<OutlineOn>
        ensures grid { result.of.grid ≡ self.now.grid }
        ensures outline { result.of.outline ≡ outline }
    {
        ListOf {
            of: OutlineOn {
                grid: self.grid,
                outline,
            },
        }
    }
}

impl Part for CoordinatesOf {
    type Made = RawShape;

    type Count = Tally;

    ghost faults = { λ p fixing. coordinates_faults p.grid fixing p.kind };

    ghost means = { λ p. IsShapeOf p.grid p.kind };

    fn judge(
        &self,
        alloc: Global,
        fixing: &FixingRules,
        value: &Value<'_>,
    ) -> Result<Vec<Fault>, OutOfMemory> {
        match self.kind {
            GeometryType::Point => judge_point(alloc, &self.grid, fixing, value),
            GeometryType::MultiPoint => ListOf { of: self.grid }.judge(alloc, fixing, value),
            GeometryType::LineString => self.lists(Outline::Line).of.judge(alloc, fixing, value),
            GeometryType::MultiLineString => self.lists(Outline::Line).judge(alloc, fixing, value),
            GeometryType::Polygon => self.lists(Outline::Ring).judge(alloc, fixing, value),
            GeometryType::MultiPolygon => {
                let of = self.lists(Outline::Ring);
                ListOf { of }.judge(alloc, fixing, value)
            }
        }
    }

    fn make(&self, alloc: Global, value: &Value<'_>, count: &mut Tally) -> Result<RawShape, Stop> {
        match self.kind {
            GeometryType::Point => make_point(alloc, &self.grid, value, count),
            GeometryType::MultiPoint => {
                let of = ListOf { of: self.grid };
                match of.make(alloc, value, count) {
                    Ok(made) => Ok(RawShape::MultiPoint(made)),
                    Err(stop) => Err(stop),
                }
            }
            GeometryType::LineString => {
                let of = self.lists(Outline::Line).of;
                match of.make(alloc, value, count) {
                    Ok(made) => Ok(RawShape::Line(made)),
                    Err(stop) => Err(stop),
                }
            }
            GeometryType::MultiLineString => {
                let of = self.lists(Outline::Line);
                match of.make(alloc, value, count) {
                    Ok(made) => Ok(RawShape::MultiLine(made)),
                    Err(stop) => Err(stop),
                }
            }
            GeometryType::Polygon => {
                let of = self.lists(Outline::Ring);
                match of.make(alloc, value, count) {
                    Ok(made) => Ok(RawShape::Polygon(made)),
                    Err(stop) => Err(stop),
                }
            }
            GeometryType::MultiPolygon => {
                let of = ListOf {
                    of: self.lists(Outline::Ring),
                };
                match of.make(alloc, value, count) {
                    Ok(made) => Ok(RawShape::MultiPolygon(made)),
                    Err(stop) => Err(stop),
                }
            }
        }
    }
}
