//! A piece: a chain in its least direction.
ghost use Rattle.arcs.specs.Pieces as spec;
ghost use Rattle.arcs.specs.Pieces.{chain_of, piece_along};
ghost use Rattle.lines.specs.Turned.{list_cmp};
ghost use Rattle.std.specs.Prelude.{◌≡◌, false, IfOk, reverse};

use crate::shared_positions::SharedPositions;
use grid::pos::Pos;
use lines::items::Items;
use std::alloc::{AllocError, Global};
use std::cmp::Ordering;

/// A chain in its least direction, with whether it is used against that direction, and whether it is
/// a free loop: a ring without a junction.
#[derive(PartialEq, Eq, PartialOrd, Ord, Debug, Drop)]
pub struct Piece {
    chain: SharedPositions<Pos>,
    reversed: bool,
    free: bool,
}

fn compare_backwards(chain: &[Pos]) -> Ordering
    ensures { result ≡ list_cmp (reverse chain.now) chain.now }
{
    chain.iter().rev().cmp(chain.iter())
}

fn is_backwards_less(chain: &[Pos]) -> bool
    ensures { result ≡ spec.is_backwards_less chain.now }
{
    compare_backwards(chain).is_lt()
}

/// Of a chain and its reverse the lesser, and whether it is the reverse.
fn least_direction(mut chain: Vec<Pos>) -> (Vec<Pos>, bool)
    ensures chain { result.0.items ≡ spec.least_direction chain.items }
    ensures reversed { result.1 ≡ spec.is_backwards_less chain.items }
{
    let reversed = is_backwards_less(&chain);
    if reversed {
        chain.reverse();
    }
    (chain, reversed)
}

impl Piece {
    /// An arc as its own one piece.
    pub(crate) fn whole(chain: SharedPositions<Pos>, free: bool) -> Piece
        ensures { result ≡ record { chain = chain; reversed = false; free = free } }
    {
        Piece {
            chain,
            reversed: false,
            free,
        }
    }

    /// The piece of a chain that is read in some direction.
    pub fn new(alloc: Global, chain: Vec<Pos>, free: bool) -> Result<Piece, AllocError>
        ensures { IfOk result (λ p. p ≡ piece_along free chain.items) }
    {
        let (least, reversed) = least_direction(chain);
        Ok(Piece {
            chain: SharedPositions::new(alloc, Items::from_vec(least))?,
            reversed,
            free,
        })
    }

    /// The piece of a chain that has other owners. It is shared with them, unless it has to be reversed.
    pub(crate) fn sharing(
        alloc: Global,
        chain: &SharedPositions<Pos>,
        free: bool,
    ) -> Result<Piece, AllocError>
        ensures { IfOk result (λ p. p ≡ piece_along free chain.now) }
    {
        let reversed = is_backwards_less(chain.as_slice());
        if reversed {
            return Piece::new(alloc, chain.as_slice().to_vec(alloc)?, free);
        }
        Ok(Piece::whole(chain.share()?, free))
    }

    pub(crate) fn into_chain(self) -> SharedPositions<Pos>
        ensures { result ≡ chain_of self }
    {
        self.chain
    }

    pub(crate) fn items(&self) -> &SharedPositions<Pos>
        ensures { result.now ≡ chain_of self.now }
    {
        &self.chain
    }

    /// The positions of the chain in its least direction.
    pub fn chain(&self) -> &[Pos]
        ensures { result.now ≡ chain_of self.now }
    {
        self.chain.as_slice()
    }

    /// Whether the line or ring runs along the chain against its least direction.
    pub fn reversed(&self) -> bool
        ensures { result ≡ spec.is_reversed self.now }
    {
        self.reversed
    }

    /// Whether the chain is a free loop: no junction lies on it.
    pub fn is_free(&self) -> bool
        ensures { result ≡ spec.is_free self.now }
    {
        self.free
    }
}
