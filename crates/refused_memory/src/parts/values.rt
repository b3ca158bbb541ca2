//! Values that features are made of, and copies of them.

use faults::{Fault, FaultKind, OutOfMemory, Step};
use grid::Pos;
use lines::position_filter::PositionFilter;
use refused_calls::calls::Borrowed;
use refused_calls::comparing::are_at;
use refused_calls::inputs::positions;
use refused_calls::outcome::Tally;
use refused_calls::tables::{Lends, Row, both};
use refused_calls::texts::Places;
use serde_json::Value;
use shapes::copying::{CopyIn, copy_each};
use shapes::{Items, Line, PropFault, Props, Ring, ShapeFault, Spelled};
use std::alloc::Global;

const PROPERTIES: &str = r#"{"n":1}"#;

/// A name with a quote.
const NAME: &str = "a\"b";

/// The unit square, which comes back to its first place.
const SQUARE: Places = &[(0, 0), (1, 0), (1, 1), (0, 1), (0, 0)];

/// Its vertices.
const VERTICES: Places = &[(0, 0), (1, 0), (1, 1), (0, 1)];

/// One of each kind of value.
#[derive(Drop)]
struct Values {
    places: Items<Pos>,
    line: Line,
    ring: Ring,
    name: Spelled,
    value: Value,
}

fn places(alloc: Global) -> Option<Items<Pos>> {
    Some(Items::from_vec(positions(alloc, SQUARE)?))
}

fn line(alloc: Global) -> Option<Line> {
    Line::from_positions(alloc, positions(alloc, SQUARE)?).ok()
}

fn ring(alloc: Global) -> Option<Ring> {
    Ring::from_closed(alloc, positions(alloc, SQUARE)?).ok()
}

fn value(alloc: Global) -> Option<Value> {
    Value::from_slice(alloc, PROPERTIES.as_bytes()).ok()
}

impl Borrowed for Values {
    fn is_as_before(&self) -> bool {
        are_at(self.places.as_slice(), SQUARE)
            && are_at(self.line.positions(), SQUARE)
            && are_at(self.ring.vertices(), VERTICES)
            && self.name.text() == NAME
    }
}

fn copy_line(alloc: Global, values: &Values) -> Result<bool, OutOfMemory> {
    Ok(values.line.copy(alloc)? == values.line)
}

fn copy_ring(alloc: Global, values: &Values) -> Result<bool, OutOfMemory> {
    Ok(values.ring.copy(alloc)? == values.ring)
}

fn copy_name(alloc: Global, values: &Values) -> Result<bool, OutOfMemory> {
    Ok(values.name.copy(alloc)? == values.name)
}

fn copy_in(alloc: Global, values: &Values) -> Result<bool, OutOfMemory> {
    Ok(values.places.copy_in(alloc)? == values.places)
}

fn copy_places(alloc: Global, values: &Values) -> Result<bool, OutOfMemory> {
    let copies = copy_each(alloc, values.places.as_slice())?;
    Ok(are_at(copies.as_slice(), SQUARE))
}

fn clone_places(alloc: Global, values: &Values) -> Result<bool, OutOfMemory> {
    Ok(Items::from_slice(alloc, values.places.as_slice())? == values.places)
}

fn clear_bits(alloc: Global, values: &Values) -> Result<bool, OutOfMemory> {
    let bits = PositionFilter::clear(alloc, 4)?;
    Ok(!may_hold_some(&bits, values.places.as_slice()))
}

fn bits_of(alloc: Global, values: &Values) -> Result<bool, OutOfMemory> {
    let bits = PositionFilter::of(alloc, values.places.as_slice())?;
    Ok(may_hold_each(&bits, values.places.as_slice()))
}

fn may_hold_some(bits: &PositionFilter, positions: &[Pos]) -> bool {
    for position in positions {
        if bits.may_hold(*position) {
            return true;
        }
    }
    false
}

fn may_hold_each(bits: &PositionFilter, positions: &[Pos]) -> bool {
    for position in positions {
        if !bits.may_hold(*position) {
            return false;
        }
    }
    true
}

fn properties(alloc: Global, values: &Values) -> Result<bool, OutOfMemory> {
    match Props::from_value(alloc, &values.value) {
        Ok(properties) => Ok(properties.text() == PROPERTIES),
        Err(PropFault::OutOfMemory) => Err(OutOfMemory),
        Err(_) => Ok(false),
    }
}

/// Whether a fault is that of a kind behind one step; want of memory is told as such.
fn is_behind(fault: &Fault, step: &Step) -> Result<bool, OutOfMemory> {
    match (fault.kind, fault.path.as_slice()) {
        (FaultKind::OutOfMemory, []) => Err(OutOfMemory),
        (FaultKind::WrongKind, [only]) => Ok(only == step),
        _ => Ok(false),
    }
}

fn under_index(alloc: Global) -> Result<bool, OutOfMemory> {
    let fault = Fault::here(alloc, FaultKind::WrongKind).under_index(3);
    is_behind(&fault, &Step::Index(3))
}

fn under_name(alloc: Global) -> Result<bool, OutOfMemory> {
    let step = Step::Name(String::from_str(alloc, "arcs")?);
    let fault = Fault::here(alloc, FaultKind::WrongKind).under_name(alloc, "arcs");
    is_behind(&fault, &step)
}

/// Whether a list is refused for want of memory alone.
fn is_wanting(fault: ShapeFault) -> Result<bool, OutOfMemory> {
    match fault {
        ShapeFault::OutOfMemory => Err(OutOfMemory),
        _ => Ok(false),
    }
}

/// The line of a list that is known to be one is that of a copy, of which it is asked.
fn known_line(alloc: Global, values: &Values) -> Result<bool, OutOfMemory> {
    let places = values.places.as_slice().to_vec(alloc)?;
    let copy = places.as_slice().to_vec(alloc)?;
    match Line::from_positions(alloc, places) {
        Ok(line) => Ok(Line::from_sound(copy) == line),
        Err(fault) => is_wanting(fault),
    }
}

fn known_ring(alloc: Global, values: &Values) -> Result<bool, OutOfMemory> {
    let places = values.places.as_slice().to_vec(alloc)?;
    let copy = places.as_slice().to_vec(alloc)?;
    match Ring::from_closed(alloc, places) {
        Ok(ring) => Ok(Ring::from_sound(copy) == ring),
        Err(fault) => is_wanting(fault),
    }
}

/// Tells the calls apart.
#[derive(Clone, Copy)]
enum Call {
    CopyLine,
    CopyRing,
    KnownLine,
    KnownRing,
    CopyName,
    CopyIn,
    CopyPlaces,
    ClonePlaces,
    ClearBits,
    BitsOf,
    Properties,
    UnderIndex,
    UnderName,
}

const ROWS: &[Row<Call>] = &[
    ("Line::copy", Call::CopyLine),
    ("Ring::copy", Call::CopyRing),
    ("Line::from_sound", Call::KnownLine),
    ("Ring::from_sound", Call::KnownRing),
    ("Spelled::copy", Call::CopyName),
    ("CopyIn::copy_in", Call::CopyIn),
    ("lines::copy_each", Call::CopyPlaces),
    ("Items::from_slice", Call::ClonePlaces),
    ("PositionFilter::clear", Call::ClearBits),
    ("PositionFilter::of", Call::BitsOf),
    ("Props::from_value", Call::Properties),
    ("Fault::under_index", Call::UnderIndex),
    ("Fault::under_name", Call::UnderName),
];

impl Lends for Values {
    type Call = Call;

    fn make(alloc: Global) -> Option<Values> {
        let lines = both(line(alloc), ring(alloc));
        let named = both(Spelled::new(alloc, NAME).ok(), value(alloc));
        let (places, ((line, ring), (name, value))) = both(places(alloc), both(lines, named))?;
        Some(Values {
            places,
            line,
            ring,
            name,
            value,
        })
    }

    fn answer(&self, alloc: Global, call: Call) -> Result<bool, OutOfMemory> {
        match call {
            Call::CopyLine => copy_line(alloc, self),
            Call::CopyRing => copy_ring(alloc, self),
            Call::KnownLine => known_line(alloc, self),
            Call::KnownRing => known_ring(alloc, self),
            Call::CopyName => copy_name(alloc, self),
            Call::CopyIn => copy_in(alloc, self),
            Call::CopyPlaces => copy_places(alloc, self),
            Call::ClonePlaces => clone_places(alloc, self),
            Call::ClearBits => clear_bits(alloc, self),
            Call::BitsOf => bits_of(alloc, self),
            Call::Properties => properties(alloc, self),
            Call::UnderIndex => under_index(alloc),
            Call::UnderName => under_name(alloc),
        }
    }
}

/// Makes each call of values.
pub(crate) fn test(rt: &HostRuntime, tally: &mut Tally) {
    tally.attempt_each::<Values>(rt, "values", ROWS);
}
