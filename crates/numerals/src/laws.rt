//! What snapping keeps, as contracts of functions that do nothing.
ghost use Rattle.numerals.specs.Amount.{TextsAreWorth};
ghost use Rattle.numerals.specs.Laws.{DistanceIsLeast, EqualNumeralsAreWholeAlike, EqualNumeralsSnapAlike, OrderIsKept, GridStays, NumbersAreNumerals, OnTheGridIsNotMoved};

/// Numerals that are worth the same have one position, however they are written: 1.5, 1.50 and 15e-1.
#[tactic(auto, using(crate::proofs::Keeping::equal_numerals_snap_alike))]
pub fn equal_numerals_snap_alike()
    ensures { EqualNumeralsSnapAlike }
{}

/// Positions are in the order of the numerals. So the bounding box of snapped positions is the snapped
/// bounding box.
#[tactic(auto, using(crate::proofs::Keeping::order_is_kept))]
pub fn order_is_kept()
    ensures { OrderIsKept }
{}

/// A numeral that is worth a whole number of steps has that position.
#[tactic(auto, using(crate::proofs::Keeping::grid_stays))]
pub fn grid_stays()
    ensures { GridStays }
{}

/// A numeral is within its distance from its position, and within no less from any whole number of steps.
#[tactic(auto, using(crate::proofs::Leasts::distance_is_least))]
pub fn distance_is_least()
    ensures { DistanceIsLeast }
{}

/// A numeral that is written as a whole number of steps is not moved, and each other one is.
#[tactic(auto, using(crate::proofs::Ceilings::on_the_grid_is_not_moved))]
pub fn on_the_grid_is_not_moved()
    ensures { OnTheGridIsNotMoved }
{}

/// Each number of JSON is a numeral, so `snap` refuses none but those beyond the limits.
pub fn numbers_are_numerals()
    ensures { NumbersAreNumerals }
{}

/// What is printed of a decimal number is a numeral that is worth just that number.
pub fn texts_are_worth()
    ensures { TextsAreWorth }
{}

/// Numerals that are worth the same are the same whole number, or none: 5, 5.0 and 50e-1.
#[tactic(auto, using(crate::proofs::Wholes::equal_numerals_are_whole_alike))]
pub fn equal_numerals_are_whole_alike()
    ensures { EqualNumeralsAreWholeAlike }
{}
