//! The laws of arcs that are cut again, as contracts of functions that do nothing.
ghost use Rattle.split_heal.specs.SplittingLaws.{ArcsOfOneArc, JunctionsOfBoth, NoOtherArcs, OnePieces};

/// Junctions only grow: each of either map is one of both together.
pub fn junctions_of_both()
    ensures { JunctionsOfBoth }
{}

/// Each old arc has one list of pieces: no other list stitches to it, or, where it is a free loop that
/// meets a junction, to the loop read from its least one.
pub fn one_pieces()
    ensures { OnePieces }
{}

/// An arc of both maps together that has a segment of one of them is a piece of exactly one arc of that
/// map, at one place, and all its segments are that arc's.
pub fn arcs_of_one_arc()
    ensures { ArcsOfOneArc }
{}

/// Each arc of both maps together is a piece of an old one.
pub fn no_other_arcs()
    ensures { NoOtherArcs }
{}
