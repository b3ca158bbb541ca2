//! The laws of arcs that are joined again, as contracts of functions that do nothing.
ghost use Rattle.split_heal.specs.HealingLaws.{KeptArcsOccurOnce, OnePieces, OthersOccurNowhere};

/// The pieces of a new arc are the only list of old arcs that stitches to it, or, where it is a free
/// loop that met a junction, to the loop read from its least one.
pub fn one_pieces()
    ensures { OnePieces }
{}

/// An old arc that has a segment of what is left is at one place of one list of pieces, and all its
/// segments stay.
pub fn kept_arcs_occur_once()
    ensures { KeptArcsOccurOnce }
{}

/// An old arc that has no segment of what is left is in no list of pieces.
pub fn others_occur_nowhere()
    ensures { OthersOccurNowhere }
{}
