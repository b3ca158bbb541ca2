//! Compact JSON texts read back: lemmas on the parts that both writers write.

ghost use Rattle.round_trip.specs.Compact.Good.{GoodTextsAreRead};

/// The compact text of a value whose parts read back is a document of that value.
#[tactic(auto, using(crate::proofs::CompactLemmas::Documents::good_texts_are_read))]
pub fn good_texts_are_read()
    ensures { GoodTextsAreRead }
{}
