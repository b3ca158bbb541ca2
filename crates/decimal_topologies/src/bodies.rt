//! The coordinates and the arcs of geometries.
ghost use Rattle.decimal_faults.specs.Parts.{list_faults};
ghost use Rattle.decimal_topologies.specs.Geometries.{IsShapeOf, body_faults, body_name as named_body, outline_of as outline_as, parts_of, point_faults};
ghost use Rattle.decimal_arcs.specs.Places.{position_faults};
ghost use Rattle.fixing.specs.declared.rules.FixingRules.{FixingRules as Rules};
ghost use Rattle.json.specs.Value.{value_view};
ghost use Rattle.reading.specs.FaultLists.Found.{pairs_of};
ghost use Rattle.reading.specs.declared.geometry.GeometryType.TheVariants as kinds;
ghost use Rattle.std.specs.Prelude.{◌≡◌, ◌≢◌, [], IfOk, Err};

use crate::geometry::Topology;
use crate::stitching::StitchedTo;
use decimal_arcs::place::Quantization;
use decimal_faults::coordinates::is_empty;
use decimal_faults::lists::ListOf;
use decimal_faults::outline::Outline;
use decimal_faults::part::Part;
use decimal_maps::{Stop, Tally};
use faults::OutOfMemory;
use faults::fault::Fault;
use fixing::{FixingRules, RawShape};
use json::Value;
use reading::geometry::GeometryType;
use std::alloc::Global;

/// The member that says where a geometry of that type is.
pub fn body_name(kind: GeometryType) -> &'static str
    ensures { result.now ≡ named_body kind }
{
    match kind {
        GeometryType::Point | GeometryType::MultiPoint => "coordinates",
        _ => "arcs",
    }
}

// The faults of a point, which may be without a position.
fn judge_point(
    alloc: Global,
    quantization: &Quantization,
    fixing: &FixingRules,
    value: &Value<'_>,
) -> Result<Vec<Fault>, OutOfMemory>
    ensures { IfOk result (λ fs. pairs_of fs.items ≡ point_faults quantization.now (value_view value.now)) }
{
    if is_empty(value) {
        return Ok(Vec::new(alloc));
    }
    quantization.judge(alloc, fixing, value)
}

fn make_point(
    alloc: Global,
    topology: &Topology<'_>,
    value: &Value<'_>,
    tally: &mut Tally,
) -> Result<RawShape, Stop>
    ensures made { IfOk result (λ s. IsShapeOf (parts_of topology.now) kinds.Point (value_view value.now) s tally.old tally.new) }
    ensures refused { result ≡ Err Stop.Unread → Rules → point_faults topology.now.quantization (value_view value.now) ≢ [] }
{
    if is_empty(value) {
        return Ok(RawShape::Null);
    }
    match topology.quantization.make(alloc, value, tally) {
        Ok(place) => Ok(RawShape::Point(place)),
        Err(stop) => Err(stop),
    }
}

fn make_points(
    alloc: Global,
    topology: &Topology<'_>,
    value: &Value<'_>,
    tally: &mut Tally,
) -> Result<RawShape, Stop>
    ensures made { IfOk result (λ s. IsShapeOf (parts_of topology.now) kinds.MultiPoint (value_view value.now) s tally.old tally.new) }
    ensures refused { result ≡ Err Stop.Unread → Rules → list_faults (position_faults topology.now.quantization) (value_view value.now) ≢ [] }
{
    let of = ListOf {
        of: topology.quantization,
    };
    match of.make(alloc, value, tally) {
        Ok(places) => Ok(RawShape::MultiPoint(places)),
        Err(stop) => Err(stop),
    }
}

// What the lists of a geometry of that type are to be.
fn outline_of(kind: GeometryType) -> Outline
    ensures { result ≡ outline_as kind }
{
    match kind {
        GeometryType::Polygon | GeometryType::MultiPolygon => Outline::Ring,
        _ => Outline::Line,
    }
}

/// The member `coordinates` or `arcs` of a geometry of that type.
#[derive(Clone, Copy)]
pub struct BodyOf<'m, 't> {
    pub topology: &'m Topology<'t>,
    pub kind: GeometryType,
}

impl<'m, 't> Part for BodyOf<'m, 't> {
    type Made = RawShape;

    type Count = Tally;

    ghost faults = { λ p fixing. body_faults (parts_of p.topology.now) fixing p.kind };

    ghost means = { λ p. IsShapeOf (parts_of p.topology.now) p.kind };

    fn judge(
        &self,
        alloc: Global,
        fixing: &FixingRules,
        value: &Value<'_>,
    ) -> Result<Vec<Fault>, OutOfMemory> {
        let arcs = self.topology.arcs;
        let outline = outline_of(self.kind);
        let of = StitchedTo { arcs, outline };
        match self.kind {
            GeometryType::Point => judge_point(alloc, &self.topology.quantization, fixing, value),
            GeometryType::MultiPoint => {
                let of = self.topology.quantization;
                ListOf { of }.judge(alloc, fixing, value)
            }
            GeometryType::LineString => of.judge(alloc, fixing, value),
            GeometryType::MultiLineString => ListOf { of }.judge(alloc, fixing, value),
            GeometryType::Polygon => ListOf { of }.judge(alloc, fixing, value),
            GeometryType::MultiPolygon => {
                let of = ListOf { of };
                ListOf { of }.judge(alloc, fixing, value)
            }
        }
    }

    fn make(&self, alloc: Global, value: &Value<'_>, count: &mut Tally) -> Result<RawShape, Stop> {
        let arcs = self.topology.arcs;
        let outline = outline_of(self.kind);
        let of = StitchedTo { arcs, outline };
        match self.kind {
            GeometryType::Point => make_point(alloc, self.topology, value, count),
            GeometryType::MultiPoint => make_points(alloc, self.topology, value, count),
            GeometryType::LineString => match of.make(alloc, value, count) {
                Ok(made) => Ok(RawShape::Line(made)),
                Err(stop) => Err(stop),
            },
            GeometryType::MultiLineString => match (ListOf { of }).make(alloc, value, count) {
                Ok(made) => Ok(RawShape::MultiLine(made)),
                Err(stop) => Err(stop),
            },
            GeometryType::Polygon => match (ListOf { of }).make(alloc, value, count) {
                Ok(made) => Ok(RawShape::Polygon(made)),
                Err(stop) => Err(stop),
            },
            GeometryType::MultiPolygon => {
                let of = ListOf { of };
                match (ListOf { of }).make(alloc, value, count) {
                    Ok(made) => Ok(RawShape::MultiPolygon(made)),
                    Err(stop) => Err(stop),
                }
            }
        }
    }
}
