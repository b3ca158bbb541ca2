//! The laws of merging, of taking features out and of edits, as contracts of functions that do nothing.
//! Those of arcs that are split or healed are passed on from `split_heal`, and those that
//! need nothing of either from the crates below.
ghost use Rattle.refine.specs.EditLaws.{JoinsAreUndoneByEdits, OneEditIsAList};
ghost use Rattle.refine.specs.Removals.{JoinsAreUndone};
ghost use Rattle.refine.specs.TextLaws.{MergedTextsMeanUnions};

pub use merging::laws::{
    merge_of_all_alike, merge_of_all_meanings, merge_of_one_text, merges_alike,
    merges_through_texts, one_canon, plans_alike, segments_of_merge_once,
};
pub use split_heal::healing_laws::{
    kept_arcs_occur_once, one_pieces as one_pieces_of_new_arcs, others_occur_nowhere,
};
pub use split_heal::splitting_laws::{
    arcs_of_one_arc, junctions_of_both, no_other_arcs, one_pieces as one_pieces_of_old_arcs,
};
pub use topo::layer_laws::laws::equal_features_equal_lists;

/// A merged text is accepted, and means the union of the named maps, where memory holds the topology of the
/// union: stitching it by the standard gives exactly their features.
pub fn merged_texts_mean_unions()
    ensures { MergedTextsMeanUnions }
{}

/// A join is undone to the byte: where the second map has only names of the first and under each no
/// feature of the first, what is left of the topology of both without the second's features is that of
/// the first, and has its canonical text.
pub fn joins_are_undone()
    ensures { JoinsAreUndone }
{}

/// One edit is the list of it alone: `Session::apply` does what `Session::apply_all` does with such a list.
pub fn one_edit_is_a_list()
    ensures { OneEditIsAList }
{}

/// What is joined in a session, and then removed, leaves the map that was there before, where none of
/// its features was there and no layer was new; so the text is the same, byte by byte.
pub fn joins_are_undone_by_edits()
    ensures { JoinsAreUndoneByEdits }
{}
