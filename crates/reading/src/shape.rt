//! Shapes by the types of geometries.
ghost use Rattle.faults.specs.Fault.{Pair};
ghost use Rattle.grid.specs.declared.pos.Pos.{Pos};
ghost use Rattle.reading.specs.Fault.{LeastOrWant};
ghost use Rattle.reading.specs.Outlines.{outline_faults, line_faults, ring_faults, line_of, ring_of};
ghost use Rattle.reading.specs.Plain.{plain_form};
ghost use Rattle.reading.specs.Shapes.{shape_faults, shape_form};
ghost use Rattle.serde_json.specs.Data.{Data};
ghost use Rattle.serde_json.specs.View.{view};
ghost use Rattle.std.specs.Prelude.{◌≡◌, [], List, IfOk, IfErr, OnOk};

use crate::geometry::GeometryType;
use crate::outline::{Outline, read_outline};
use crate::part::{Part, PartList};
use faults::fault::Fault;
use grid::pos::Pos;
use lines::line::Line;
use lines::ring::Ring;
use serde_json::Value;
use shapes::shape::Shape;
use std::alloc::Global;
use std::marker::PhantomData;

/// How a text gives positions: one by one, and in the lists that lines and rings are read from.
pub trait Positions: Copy {
    ghost position_faults: { Self → Data → List Pair };

    ghost position: { Self → Data → Pos };

    // The faults of a list, and then what is asked of its positions.
    ghost list_faults: { Self → (List Pos → List Pair) → Data → List Pair };

    ghost positions: { Self → Data → List Pos };

    fn read_position(&self, alloc: Global, value: &Value) -> Result<Pos, Fault>
        ensures ok { OnOk result (position_faults self.now (view value.now) ≡ []) }
        ensures made { IfOk result (λ p. p ≡ position self.now (view value.now)) }
        ensures err { IfErr result (λ f. LeastOrWant (position_faults self.now (view value.now)) f) };

    fn read_positions(&self, alloc: Global, value: &Value) -> Result<Vec<Pos>, Fault>
        ensures ok { IfOk result (λ ps. ((of : List Pos → List Pair) → list_faults self.now of (view value.now) ≡ of ps.items) × (ps.items ≡ positions self.now (view value.now))) }
        ensures err { IfErr result (λ f. (of : List Pos → List Pair) → LeastOrWant (list_faults self.now of (view value.now)) f) };
}

/// A position.
#[derive(Clone, Copy)]
struct PositionFrom<S> {
    from: S,
}

impl<S: Positions> Part for PositionFrom<S> {
    type Made = Pos;

    ghost faults = { λ p. S.position_faults p.from };

    ghost means = { λ p d x. x ≡ S.position p.from d };

    fn read(&self, alloc: Global, value: &Value) -> Result<Pos, Fault> {
        self.from.read_position(alloc, value)
    }
}

/// A line or a ring: a list of positions.
#[derive(Drop)]
struct OutlineFrom<S, O> {
    from: S,
    outline: PhantomData<O>,
}

impl<S: Positions, O: Outline> Part for OutlineFrom<S, O> {
    type Made = O;

    ghost faults = { λ p. S.list_faults p.from (λ ps. outline_faults (O.fault ps)) };

    ghost means = { λ p d o. O.seen o ≡ O.of (S.positions p.from d) };

    fn read(&self, alloc: Global, value: &Value) -> Result<O, Fault> {
        let positions = self.from.read_positions(alloc, value)?;
        read_outline(alloc, positions)
    }
}

/// The shape of a geometry of that type.
#[derive(Clone, Copy)]
pub struct ShapeFrom<S> {
    pub from: S,
    pub kind: GeometryType,
}

impl<S: Positions> Part for ShapeFrom<S> {
    type Made = Shape;

    ghost faults = { λ p. shape_faults (S.position_faults p.from) (S.list_faults p.from line_faults) (S.list_faults p.from ring_faults) p.kind };

    ghost means = { λ p d s. plain_form s ≡ shape_form (S.position p.from) (λ e. line_of (S.positions p.from e)) (λ e. ring_of (S.positions p.from e)) p.kind d };

    fn read(&self, alloc: Global, value: &Value) -> Result<Shape, Fault> {
        let from = self.from;
        let outline = PhantomData;
        let line: OutlineFrom<S, Line> = OutlineFrom { from, outline };
        let outline = PhantomData;
        let ring: OutlineFrom<S, Ring> = OutlineFrom { from, outline };
        let of = PositionFrom { from };
        match self.kind {
            GeometryType::Point => Ok(Shape::Point(of.read(alloc, value)?)),
            GeometryType::MultiPoint => Ok(Shape::MultiPoint(PartList { of }.read(alloc, value)?)),
            GeometryType::LineString => Ok(Shape::Line(line.read(alloc, value)?)),
            GeometryType::MultiLineString => {
                Ok(Shape::MultiLine(PartList { of: line }.read(alloc, value)?))
            }
            GeometryType::Polygon => Ok(Shape::Polygon(PartList { of: ring }.read(alloc, value)?)),
            GeometryType::MultiPolygon => {
                let of = PartList { of: ring };
                Ok(Shape::MultiPolygon(PartList { of }.read(alloc, value)?))
            }
        }
    }
}
