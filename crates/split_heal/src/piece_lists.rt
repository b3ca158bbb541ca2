//! Lists of used arcs, kept one after another in one list.
ghost use Rattle.split_heal.specs.Bounds.{AreBounds, parts_between};
ghost use Rattle.std.specs.List.{between};
ghost use Rattle.std.specs.Option.{option_map};
ghost use Rattle.std.specs.Prelude.{◌≡◌, ◌≤◌, length, slice_get};

use chains::table::ArcRef;
use std::marker::Model;

/// The used arcs from a place up to another.
fn part(refs: &[ArcRef], from: usize, to: usize) -> &[ArcRef]
    requires order { from ≤ to }
    requires bound { to ≤ length refs.now }
    ensures { result.now ≡ between from to refs.now }
{
    &refs[from..to]
}

/// Lists of used arcs: one list of all, and the places where each begins. There is no place in memory
/// for each list, of which there are as many as arcs.
#[derive(Drop)]
pub(crate) struct PieceLists {
    refs: Vec<ArcRef>,
    /// Where each list begins, and last where the last one ends.
    bounds: Vec<usize>,
}

impl Model for PieceLists {
    ghost use Rattle.split_heal.specs.Bounds.{AreBounds, parts_between};
    ghost use Rattle.std.specs.Prelude.{List, length};
    ghost use Rattle.theory.specs.ArcNumbers as numbers;

    ghost Value = { List (List numbers.ArcRef) };

    ghost view = { λ a. parts_between a.bounds.items a.refs.items };

    ghost invariant = { λ a. AreBounds a.bounds.items (length a.refs.items) };
}

impl PieceLists {
    /// The lists between neighbouring bounds.
    pub(crate) fn between(refs: Vec<ArcRef>, bounds: Vec<usize>) -> PieceLists
        requires { AreBounds bounds.items (length refs.items) }
        ensures { result ≡ parts_between bounds.items refs.items }
    {
        PieceLists { refs, bounds }
    }

    /// The list of a number, `None` exactly past the last one.
    pub(crate) fn get(&self, number: usize) -> Option<&[ArcRef]>
        ensures { option_map (λ r. r.now) result ≡ slice_get self.now number }
    {
        match self.bounds.get(number) {
            Some(from) => match self.bounds.get(number + 1) {
                Some(to) => Some(part(&self.refs, *from, *to)),
                None => None,
            },
            None => None,
        }
    }
}
