//! Transforms of decimal numbers as they are written.
ghost use Rattle.decimals.specs.Topology.BoxTransform.{IsBoxTransform, box_transform, corners_or_zero};
ghost use Rattle.decimals.specs.Topology.DecimalTransform.{quantizer_of, written_axis, written_transform};
ghost use Rattle.decimals.specs.Topology.TransformFaults.{IsAxisFault, IsTransformFault, IsTransformOf, IsWrittenAxis, numerals_at, text_numerals, transform_numerals};
ghost use Rattle.decimals.specs.declared.topology.fault.DecimalFault.TheVariants.{TooManyDigits};
ghost use Rattle.decimals.specs.declared.topology.transform_fault.TransformFault.TheVariants.{OutOfMemory};
ghost use Rattle.json.specs.Find.{as_str, get};
ghost use Rattle.json.specs.Value.{value_view};
ghost use Rattle.std.specs.Prelude.{◌≡◌, ◌≢◌, ◌⊎◌, ◌↔◌, ◌≤◌, Err, Ok, Some, IfErr, IfOk, IsTrue, OnOk, codes, option_and_then, option_map};

use crate::topology::box_transform::{box_axis, corners_of};
use crate::topology::fault::DecimalFault;
use crate::topology::pairs::{NumberPair, copies_of};
use crate::topology::quantized_axis::QuantizedAxis;
use crate::topology::quantizer::Quantizer;
use crate::topology::transform_fault::TransformFault;
use grid::Grid;
use json::{Error, Scratch, Value};
use numerals::{DecimalAxis, DecimalStep};
use std::alloc::Global;
use std::marker::Model;
use topo::topology::Topology;

/// What an absolute 1 is worth, and a transform in the unit of the map: its four numerals, and its axes.
#[derive(Drop)]
pub struct DecimalTransform {
    pub(crate) unit: DecimalStep,
    pub(crate) scale: NumberPair,
    pub(crate) translate: NumberPair,
    x: QuantizedAxis,
    y: QuantizedAxis,
}

impl Model for DecimalTransform {
    ghost use Rattle.decimals.specs.Topology.DecimalTransform.{DecimalTransformParts};
    ghost use Rattle.std.specs.Prelude.{string_bytes};

    ghost Value = { DecimalTransformParts };

    ghost view = { λ d. record { unit = d.unit; scale_x = string_bytes d.scale.first; scale_y = string_bytes d.scale.second; translate_x = string_bytes d.translate.first; translate_y = string_bytes d.translate.second; x = d.x; y = d.y } };
}

/// The numerals of a transform.
#[derive(Clone, Copy)]
struct Numerals<'a> {
    scale: (&'a str, &'a str),
    translate: (&'a str, &'a str),
}

/// The two numbers of a member that is a list of two.
fn two_numerals<'v, 'a>(value: &'v Value<'a>, name: &str) -> Option<(&'a str, &'a str)>
    ensures { option_map (λ p. (p.0.now, p.1.now)) result ≡ numerals_at name.now (value_view value.now) }
{
    let pair = value.get(name)?;
    if pair.at(2).is_some() {
        return None;
    }
    let first = pair.at(0)?.as_number()?;
    let second = pair.at(1)?.as_number()?;
    Some((first, second))
}

/// Whether a value is a topology, by its member `type`.
fn is_topology(value: &Value<'_>) -> bool
    ensures { IsTrue result ↔ (option_and_then as_str (get (codes "type") (value_view value.now)) ≡ Some (codes "Topology")) }
{
    match value.get("type") {
        None => false,
        Some(member) => match member.as_str() {
            None => false,
            Some(name) => name == "Topology",
        },
    }
}

/// The numerals of a topology's transform.
fn numerals_of<'v, 'a>(value: &'v Value<'a>) -> Result<Numerals<'a>, TransformFault>
    ensures ok { IfOk result (λ n. transform_numerals (value_view value.now) ≡ Ok ((n.scale.0.now, n.scale.1.now), (n.translate.0.now, n.translate.1.now))) }
    ensures err { IfErr result (λ f. transform_numerals (value_view value.now) ≡ Err f) }
{
    if !is_topology(value) {
        return Err(TransformFault::NotTopology);
    }
    let Some(transform) = value.get("transform") else {
        return Err(TransformFault::NoTransform);
    };
    match (
        two_numerals(transform, "scale"),
        two_numerals(transform, "translate"),
    ) {
        (Some(scale), Some(translate)) => Ok(Numerals { scale, translate }),
        _ => Err(TransformFault::NotTwoNumbers),
    }
}

/// The axis of the numerals of a scale and a translation.
fn axis_of(
    unit: &DecimalStep,
    scale: &str,
    translate: &str,
) -> Result<QuantizedAxis, TransformFault>
    ensures value { IfOk result (λ a. a ≡ written_axis unit.now scale.now translate.now) }
    ensures within { OnOk result (IsWrittenAxis unit.now scale.now translate.now) }
    ensures refused { IfErr result (IsAxisFault unit.now scale.now translate.now) }
{
    let Some(axis) = DecimalAxis::parse(scale.as_bytes(), translate.as_bytes()) else {
        return Err(TransformFault::TooManyDigits);
    };
    if axis.scale() == 0 {
        return Err(TransformFault::ZeroScale);
    }
    match QuantizedAxis::with_unit(unit, &axis) {
        Some(quantized) => Ok(quantized),
        None => Err(TransformFault::TooManyDigits),
    }
}

impl DecimalTransform {
    /// The transform of a topology's tree.
    fn of_value(
        alloc: Global,
        value: &Value<'_>,
        unit: &DecimalStep,
    ) -> Result<DecimalTransform, TransformFault>
        ensures made { IfOk result (IsTransformOf unit.now (transform_numerals (value_view value.now))) }
        ensures refused { IfErr result (λ f. f ≢ TransformFault.OutOfMemory → IsTransformFault unit.now (transform_numerals (value_view value.now)) f) }
    {
        let numerals = numerals_of(value)?;
        let (scale, translate) = (numerals.scale, numerals.translate);
        let x = axis_of(unit, scale.0, translate.0)?;
        let y = axis_of(unit, scale.1, translate.1)?;
        let scale = copies_of(alloc, scale.0, scale.1)?;
        let translate = copies_of(alloc, translate.0, translate.1)?;
        Ok(DecimalTransform {
            unit: *unit,
            scale,
            translate,
            x,
            y,
        })
    }

    /// The transform of a topology's text in the unit of the map, of which an absolute 1 is worth `unit`.
    ///
    /// # Errors
    /// Where the text is no topology with a transform of such numbers; `OutOfMemory`.
    pub fn read(
        alloc: Global,
        text: &[u8],
        unit: &DecimalStep,
    ) -> Result<DecimalTransform, TransformFault>
        ensures made { IfOk result (IsTransformOf unit.now (text_numerals text.now)) }
        ensures refused { IfErr result (λ f. f ≢ TransformFault.OutOfMemory → IsTransformFault unit.now (text_numerals text.now) f) }
    {
        let mut scratch = Scratch::new(alloc);
        match Value::from_slice(alloc, text, &mut scratch) {
            Ok(value) => DecimalTransform::of_value(alloc, &value, unit),
            Err(Error::Invalid) => Err(TransformFault::NotJson),
            Err(_) => Err(TransformFault::OutOfMemory),
        }
    }

    /// The transform of a topology's bounding box, with so many steps from its least x to its greatest, and as many in y:
    /// the scale is the least number of twelve places more than the unit has with which no position is farther, and 1
    /// where a side has no length.
    ///
    /// # Errors
    /// `TooManyDigits` where the unit has more than 18 places or a size of more than 10^6; `OutOfMemory`.
    pub fn of_box(
        alloc: Global,
        topology: &Topology,
        unit: &DecimalStep,
        steps: u64,
    ) -> Result<DecimalTransform, DecimalFault>
        requires { 1 ≤ steps }
        ensures value { IfOk result (λ d. d ≡ box_transform unit.now steps topology.now.bbox) }
        ensures within { OnOk result (IsBoxTransform unit.now steps (corners_or_zero topology.now.bbox)) }
        ensures refused { result ≡ Err DecimalFault.TooManyDigits → ¬ (IsBoxTransform unit.now steps (corners_or_zero topology.now.bbox)) }
    {
        let (west, south, east, north) = corners_of(topology.bbox());
        let x = match box_axis(alloc, unit, steps, west, east) {
            Ok(axis) => axis,
            Err(fault) => return Err(fault),
        };
        let y = match box_axis(alloc, unit, steps, south, north) {
            Ok(axis) => axis,
            Err(fault) => return Err(fault),
        };
        Ok(DecimalTransform {
            unit: *unit,
            scale: NumberPair {
                first: x.scale,
                second: y.scale,
            },
            translate: NumberPair {
                first: x.translate,
                second: y.translate,
            },
            x: x.axis,
            y: y.axis,
        })
    }

    /// The axes beside a grid.
    pub(crate) fn quantizer(&self, grid: Grid) -> Quantizer
        ensures { result ≡ quantizer_of self.now grid }
    {
        Quantizer {
            grid,
            x: self.x,
            y: self.y,
        }
    }
}
