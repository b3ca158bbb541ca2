//! Lines and rings of lists of positions, with faults at the list.
ghost use Rattle.grid.specs.declared.pos.Pos.{Pos};
ghost use Rattle.lines.specs.Reading.{line_fault, ring_fault};
ghost use Rattle.lines.specs.Seen.{positions_of, vertices_of};
ghost use Rattle.lines.specs.Turned.{position_cmp};
ghost use Rattle.lines.specs.declared.shape_fault.ShapeFault.TheVariants as told;
ghost use Rattle.lines.specs.declared.shape_fault.ShapeFault.{ShapeFault};
ghost use Rattle.reading.specs.Fault.{LeastOrWant};
ghost use Rattle.reading.specs.Outlines.{outline_kind, outline_faults, line_of, ring_of};
ghost use Rattle.std.specs.Prelude.{◌≡◌, ◌≢◌, [], List, Option, Some, None, IfOk, IfErr, OnOk};

use faults::fault::{Fault, FaultKind};
use grid::pos::Pos;
use lines::line::Line;
use lines::ring::Ring;
use lines::shape_fault::ShapeFault;
use std::alloc::Global;

/// What a list of positions is read as: a line or a ring.
pub trait Outline: Sized + Drop {
    // Why a list is none.
    ghost fault: { List Pos → Option ShapeFault };

    // The positions that are seen of one.
    ghost seen: { Self → List Pos };

    // Those of the one that a list is read as.
    ghost of: { List Pos → List Pos };

    /// The one that a list is read as; a ring's is closed.
    fn from_list(alloc: Global, positions: Vec<Pos>) -> Result<Self, ShapeFault>
        ensures ok { IfOk result (λ _. fault positions.items ≡ None) }
        ensures made { IfOk result (λ made. seen made ≡ of positions.items) }
        ensures refused { IfErr result (λ f. f ≢ told.OutOfMemory → fault positions.items ≡ Some f) };
}

impl Outline for Line {
    ghost fault = { line_fault position_cmp };

    ghost seen = { positions_of };

    ghost of = { line_of };

    fn from_list(alloc: Global, positions: Vec<Pos>) -> Result<Line, ShapeFault> {
        Line::from_positions(alloc, positions)
    }
}

impl Outline for Ring {
    ghost fault = { ring_fault position_cmp };

    ghost seen = { vertices_of };

    ghost of = { ring_of };

    fn from_list(alloc: Global, positions: Vec<Pos>) -> Result<Ring, ShapeFault> {
        Ring::from_closed(alloc, positions)
    }
}

fn kind_of(fault: ShapeFault) -> FaultKind
    ensures { result ≡ outline_kind fault }
{
    match fault {
        ShapeFault::TooShort => FaultKind::TooShort,
        ShapeFault::NotClosed => FaultKind::NotClosed,
        ShapeFault::Revisit => FaultKind::Revisit,
        ShapeFault::OutOfMemory => FaultKind::OutOfMemory,
    }
}

/// The line or ring of a list of positions.
pub fn read_outline<O: Outline>(alloc: Global, positions: Vec<Pos>) -> Result<O, Fault>
    ensures ok { OnOk result (outline_faults (O.fault positions.items) ≡ []) }
    ensures made { IfOk result (λ made. O.seen made ≡ O.of positions.items) }
    ensures err { IfErr result (λ f. LeastOrWant (outline_faults (O.fault positions.items)) f) }
{
    match O::from_list(alloc, positions) {
        Ok(outline) => Ok(outline),
        Err(fault) => Err(Fault::here(alloc, kind_of(fault))),
    }
}
