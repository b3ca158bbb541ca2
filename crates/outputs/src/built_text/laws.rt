//! The laws of lists of GeoJSON texts, each promised by a function that does nothing.
ghost use Rattle.outputs.specs.BuiltText.Laws as law;

/// The texts, each after its layer's name, have only one map.
#[tactic(auto, using(crate::proofs::BuiltTextLemmas::ProvedLaws::one_map_of_texts))]
pub fn one_map_of_texts()
    ensures { law.OneMapOfTexts }
{}

/// And so only one text is the canonical text of their map.
pub fn one_text_of_texts()
    ensures { law.OneTextOfTexts }
{}
