//! Words in which positions set bits, so that most look-ups of a position end at once: most positions
//! that are not among those dealt find a bit of theirs not set.
ghost use Rattle.lines.specs.PositionFilter as spec;
ghost use Rattle.lines.specs.PositionFilter.{AreSet, mask_at, may_hold};
ghost use Rattle.lines.specs.Holding.{AreMarked, Holds, IsMarked};
ghost use Rattle.std.specs.Prelude.{◌≡◌, IfOk, max, replicate, true};

use grid::pos::Pos;
use std::alloc::{AllocError, Global};

/// A position sets three of the 64 bits of its word, and about two positions share a word.
const POSITIONS_EACH: usize = 2;

/// How many words there are, and the bits that positions set in them.
#[derive(Drop)]
pub struct PositionFilter {
    count: usize,
    words: Vec<u64>,
}

/// A number for a position. Positions near one another mostly have quite different ones.
fn hash(p: Pos) -> u64
    ensures { result ≡ spec.hash p }
{
    let across = p.x().cast_unsigned().wrapping_mul(11400714819323198485);
    let up = p.y().cast_unsigned().wrapping_mul(14029467366897019727);
    across.wrapping_add(up)
}

/// The place of a position, of so many.
pub fn index_among(count: usize, p: Pos) -> usize
    ensures { result ≡ spec.index_among count p }
{
    ((hash(p) >> 32).wrapping_mul(count as u64) >> 32) as usize
}

/// One bit of a word.
fn bit(n: u64) -> u64
    ensures { result ≡ spec.bit n }
{
    1 << (n % 64)
}

/// The bits of a position.
fn mask_of(p: Pos) -> u64
    ensures { result ≡ spec.mask_of p }
{
    let number = hash(p);
    bit(number >> 14) | bit(number >> 20) | bit(number >> 26)
}

/// Whether bits are set in a word; in what is no word all are.
fn has_mask(words: &[u64], at: usize, mask: u64) -> bool
    ensures { result ≡ mask_at words.now at mask }
{
    match words.get(at) {
        Some(word) => *word & mask == mask,
        None => true,
    }
}

/// Sets bits in a word.
fn set_mask(words: &mut Vec<u64>, at: usize, mask: u64)
    ensures { AreSet at mask words.old.items words.new.items }
{
    if at < words.len() {
        words[at] = words[at] | mask;
    }
}

impl PositionFilter {
    /// So many words, or one where that is none, in which no bits are set.
    pub fn clear(alloc: Global, count: usize) -> Result<PositionFilter, AllocError>
        ensures count { IfOk result (λ s. s.count ≡ max count 1) }
        ensures words { IfOk result (λ s. s.words.items ≡ replicate s.count 0) }
    {
        let count = count.max(1);
        let words = vec![in alloc; 0; count]?;
        Ok(PositionFilter { count, words })
    }

    /// Sets the bits of a position.
    pub fn mark(&mut self, p: Pos)
        ensures { IsMarked p (may_hold self.old) (may_hold self.new) }
    {
        set_mask(&mut self.words, index_among(self.count, p), mask_of(p));
    }

    /// Sets the bits of positions.
    fn mark_all(&mut self, positions: &[Pos])
        ensures { AreMarked positions.now (may_hold self.old) (may_hold self.new) }
    {
        for position in positions {
            self.mark(*position);
        }
    }

    /// The bits of positions.
    pub fn of(alloc: Global, positions: &[Pos]) -> Result<PositionFilter, AllocError>
        ensures { IfOk result (λ s. Holds (may_hold s) positions.now) }
    {
        let mut bits = PositionFilter::clear(alloc, positions.len() / POSITIONS_EACH)?;
        bits.mark_all(positions);
        Ok(bits)
    }

    /// Whether the bits of a position are set. Where they are not, it is none of those dealt.
    pub fn may_hold(&self, p: Pos) -> bool
        ensures { result ≡ may_hold self.now p }
    {
        has_mask(&self.words, index_among(self.count, p), mask_of(p))
    }
}
