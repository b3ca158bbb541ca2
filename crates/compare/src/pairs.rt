//! The layers of two topologies that have one name.
ghost use Rattle.compare.specs.Compared.{AreInOrder};
ghost use Rattle.compare.specs.Pairing.{IsPairing, order_by_name, pair_by_order};
ghost use Rattle.std.specs.Option.{option_copied};
ghost use Rattle.std.specs.Ordering.{MatchOrdering};
ghost use Rattle.std.specs.Prelude.{◌≡◌, IfOk, IfSome, IsSome};

use std::alloc::{AllocError, Global};
use std::cmp::Ordering;
use topo::Layer;

/// The numbers of the layers of one name in an old topology and in a new one; None in one that has no such layer.
/// Numbers count the layers from 0, in the order of their names.
#[derive(Clone, Copy, PartialEq, Eq, Debug)]
pub struct LayerPair {
    /// The number of the layer in the old topology.
    pub old: Option<usize>,
    /// The number of the layer in the new one.
    pub new: Option<usize>,
}

/// Which of two layers comes first, by their names; one that is there alone does. None where neither is there.
fn order_of(old: Option<&Layer>, new: Option<&Layer>) -> Option<Ordering>
    ensures there { IfSome result (λ o. MatchOrdering o (IsSome old.entry) (IsSome old.entry × IsSome new.entry) (IsSome new.entry)) }
    ensures order { result ≡ order_by_name (option_copied old.entry) (option_copied new.entry) }
{
    match old {
        Some(old) => match new {
            Some(new) => Some(old.name().text().cmp(new.name().text())),
            None => Some(Ordering::Less),
        },
        None => match new {
            Some(_) => Some(Ordering::Greater),
            None => None,
        },
    }
}

/// The pair of the layer that comes first, or of both.
fn pair_by(order: Ordering, old: usize, new: usize) -> LayerPair
    ensures { result ≡ pair_by_order order old new }
{
    match order {
        Ordering::Less => LayerPair {
            old: Some(old),
            new: None,
        },
        Ordering::Equal => LayerPair {
            old: Some(old),
            new: Some(new),
        },
        Ordering::Greater => LayerPair {
            old: None,
            new: Some(new),
        },
    }
}

/// The layers of each name, of layers in the order of their names.
pub(crate) fn pairs_of(
    alloc: Global,
    olds: &[Layer],
    news: &[Layer],
) -> Result<Vec<LayerPair>, AllocError>
    ensures { IfOk result (λ v. AreInOrder olds.now → AreInOrder news.now → IsPairing olds.now news.now v.items) }
{
    let mut pairs = Vec::new(alloc);
    let mut old = 0;
    let mut new = 0;
    while let Some(order) = order_of(olds.get(old), news.get(new)) {
        pairs.push(pair_by(order, old, new))?;
        match order {
            Ordering::Less => old += 1,
            Ordering::Equal => {
                old += 1;
                new += 1;
            }
            Ordering::Greater => new += 1,
        }
    }
    Ok(pairs)
}
