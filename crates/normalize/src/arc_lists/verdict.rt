//! What is known of a list of used arcs.
use lines::shape_fault::ShapeFault;

/// What is known of a list of used arcs without putting its positions together.
#[derive(Clone, Copy, PartialEq, Eq, Debug)]
pub enum ListVerdict {
    /// Its positions are those of a line, or of a ring.
    Sound,
    /// One of its arcs doesn't begin where the one before it ends.
    Broken,
    /// Its positions have this fault.
    Faulty(ShapeFault),
    /// It runs on, but its positions have to be compared: it has arcs that overlap, or are connected by
    /// others that do.
    NeedsPositions,
    /// It has an arc that is not there, or has no position.
    NoEnds,
}
