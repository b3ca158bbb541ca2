//! The laws of merging, as contracts of functions that do nothing.
ghost use Rattle.merging.specs.Alike.{PlansAlike};
ghost use Rattle.merging.specs.MergeLaws.{MergeOfAllAlike, MergeOfAllMeanings, MergesAlike, MergeOfOneText, MergesThroughTexts, OneCanon, SegmentsOfMergeOnce};

/// Plans that name the same maps, in any order, with repeats and in any grouping, give the same union.
pub fn plans_alike()
    ensures { PlansAlike }
{}

/// A merged text is the canonical text of the union of the named maps, whatever maps on one grid are
/// taken for what the texts mean: there is but one choice.
pub fn merge_of_all_meanings()
    ensures { MergeOfAllMeanings }
{}

/// Plans that name the same texts, in any order, with repeats and in any grouping, give the same bytes:
/// merging is commutative and associative on bytes.
pub fn merges_alike()
    ensures { MergesAlike }
{}

/// All texts of a list give the bytes of each plan that names the same texts, over any list, in any order,
/// with repeats and in any grouping.
pub fn merge_of_all_alike()
    ensures { MergeOfAllAlike }
{}

/// A merged text merged with others gives the bytes of the one plan over all texts.
pub fn merges_through_texts()
    ensures { MergesThroughTexts }
{}

/// The canonical text of what a text means is one text.
pub fn one_canon()
    ensures { OneCanon }
{}

/// A text merged with itself gives its canonical text: merging is idempotent on bytes.
pub fn merge_of_one_text()
    ensures { MergeOfOneText }
{}

/// In the topology whose text a merge answers each segment is at one place of one arc, and arcs have
/// no other segment.
pub fn segments_of_merge_once()
    ensures { SegmentsOfMergeOnce }
{}
