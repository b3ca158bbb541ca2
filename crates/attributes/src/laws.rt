//! What holds of definitions, as contracts of functions that do nothing.
ghost use Rattle.attributes.specs.Laws.{EqualNumeralsAreOneId, EqualNumeralsAreOneNumber, FaultsAscend, IntegersAreWorth, PropertiesStayBack, ReadWholeValuesStay, ScaledIsNearest, WholeValuesStay};

/// A value whose numbers are whole is the one that `serde_json` reads.
pub fn whole_values_stay()
    ensures text { WholeValuesStay }
    ensures read { ReadWholeValuesStay }
{}

/// A number is whole just where the numeral's value is.
pub fn integers_are_worth()
    ensures { IntegersAreWorth }
{}

/// Where a number becomes a whole one, each number of the same value becomes it, however it is written: `5`, `5.0` and
/// `50e-1` are one number, and one id.
pub fn equal_numerals_are_one_number()
    ensures value { EqualNumeralsAreOneNumber }
    ensures id { EqualNumeralsAreOneId }
{}

/// A scaled number is the nearest whole number, and there is none only where the nearest is beyond the limits.
pub fn scaled_is_nearest()
    ensures { ScaledIsNearest }
{}

/// The faults of ids and properties are in ascending order, each once.
pub fn faults_ascend()
    ensures { FaultsAscend }
{}

/// Without columns of numbers and scaled members, the way back prints properties as they are.
pub fn properties_stay_back()
    ensures { PropertiesStayBack }
{}
