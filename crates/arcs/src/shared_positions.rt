//! A list with several owners, which contracts see as its items.
ghost use Rattle.std.proofs.Common.{rules};
ghost use Rattle.std.specs.Cmp.Lexicographic.{lists_agrees, lists_equiv, lists_per, lists_po, lists_ties, lists_total};
ghost use Rattle.std.specs.Cmp.Lexicographic.{slice_cmp, slice_partial_cmp};
ghost use Rattle.std.specs.Prelude.{◌≡◌, IfOk};
ghost use lib.Pointwise.{pointwise};

use lines::items::Items;
use std::alloc::{AllocError, Global};
use std::cmp::Ordering;
use std::marker::Model;
use std::rc::Rc;

/// Items that all of their owners read and none changes. They are dropped with the last owner.
#[derive(Drop, Debug)]
pub(crate) struct SharedPositions<T> {
    items: Rc<Items<T>>,
}

impl<T> Model for SharedPositions<T> {
    ghost use Rattle.std.specs.Prelude.{List};

    ghost Value = { List T };

    ghost view = { λ a. a.items.value };
}

impl<T: Drop> SharedPositions<T> {
    /// Items with one owner.
    pub(crate) fn new(alloc: Global, items: Items<T>) -> Result<SharedPositions<T>, AllocError>
        ensures { IfOk result (λ s. s ≡ items) }
    {
        let items = Rc::new(alloc, items)?;
        Ok(SharedPositions { items })
    }

    /// One more owner of the same items.
    pub(crate) fn share(&self) -> Result<SharedPositions<T>, AllocError>
        ensures { IfOk result (λ s. s ≡ self.now) }
    {
        let items = self.items.clone()?;
        Ok(SharedPositions { items })
    }

    /// The items, moved where they have no other owner, and else cloned.
    pub(crate) fn into_items(self, alloc: Global) -> Result<Items<T>, AllocError>
    where
        T: Clone,
        ensures { IfOk result (λ made. ((x y : T) → T.is_clone x y → y ≡ x) → made ≡ self) }
    {
        match Rc::try_unwrap(self.items) {
            Ok(items) => Ok(items),
            Err(shared) => Items::from_slice(alloc, shared.as_slice()),
        }
    }
}

impl<T> SharedPositions<T> {
    /// The items, borrowed.
    pub(crate) fn as_slice(&self) -> &[T]
        ensures { result.now ≡ self.now }
    {
        self.items.as_slice()
    }
}

impl<T: PartialEq> PartialEq for SharedPositions<T> {
    ghost eq = { pointwise T.eq };

    ghost laws = { lists_per T.laws };

    fn eq(&self, other: &SharedPositions<T>) -> bool {
        self.items == other.items
    }
}

impl<T: Eq> Eq for SharedPositions<T> {
    ghost laws = { lists_equiv T.Eq.laws };
}

impl<T: PartialOrd> PartialOrd for SharedPositions<T> {
    ghost partial_cmp = { slice_partial_cmp T.partial_cmp };

    ghost laws = { lists_po T.PartialOrd.laws };

    fn partial_cmp(&self, other: &SharedPositions<T>) -> Option<Ordering> {
        self.items.partial_cmp(&other.items)
    }
}

impl<T: Ord> Ord for SharedPositions<T> {
    ghost cmp = { slice_cmp T.cmp };

    ghost total = { lists_total T.Ord.total };

    ghost matches_partial_cmp = { lists_agrees T.matches_partial_cmp };

    ghost matches_eq = { lists_ties T.cmp T.matches_eq };

    fn cmp(&self, other: &SharedPositions<T>) -> Ordering {
        self.items.cmp(&other.items)
    }
}
