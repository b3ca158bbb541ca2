//! Parts of which the first brackets and the first number are behind.
//!
//! Coordinates may come before the type that says how deep they nest. Their brackets are then
//! counted up to the first number, and the part for that depth reads on from there.
ghost use Rattle.decimal_maps.specs.Reads.{Reads};
ghost use Rattle.json.specs.Token as spec;
ghost use Rattle.json.specs.Token.{Token as SpecToken};
ghost use Rattle.std.specs.Prelude.{◌≡◌, ◌∷◌, List, IfOk, MatchOption};

use crate::from_tokens::{FromTokens, Stop};
use crate::list::{ListOf, read_rest, single};
use fixing::Items;
use json::{Reader, Token};
use std::alloc::Global;

/// Takes a number and gives its text, or takes the bracket that opens an array and gives none.
pub fn number_or_array<'t>(reader: &mut Reader<'t>) -> Result<Option<&'t str>, Stop>
    ensures { IfOk result (λ o. MatchOption o (reader.old ≡ spec.begin_array ∷ reader.new) (λ s. reader.old ≡ spec.number s.now ∷ reader.new)) }
{
    match reader.next() {
        Some(Token::Number(x)) => Ok(Some(x)),
        Some(Token::BeginArray) => Ok(None),
        _ => Err(Stop::Unread),
    }
}

/// What reads a part that begins with brackets and a number.
pub trait FromOpened<'t>: FromTokens<'t> {
    // The tokens with the part's brackets before them.
    ghost opening: { Self → List SpecToken → List SpecToken };

    /// Reads on in a value of which the brackets and the number `x` are behind, and gives what the
    /// whole value means.
    fn read_opened(
        &self,
        alloc: Global,
        x: &'t str,
        reader: &mut Reader<'t>,
        depth: usize,
        count: &mut Self::Count,
    ) -> Result<Self::Made, Stop>
        ensures { IfOk result (λ v. Reads (Self.means self.now) depth (opening self.now (spec.number x.now ∷ reader.old)) reader.new count.old count.new v) };
}

impl<'t, P: FromOpened<'t>> FromOpened<'t> for ListOf<P> {
    ghost opening = { λ p ts. spec.begin_array ∷ P.opening p.of ts };

    fn read_opened(
        &self,
        alloc: Global,
        x: &'t str,
        reader: &mut Reader<'t>,
        depth: usize,
        count: &mut P::Count,
    ) -> Result<Items<P::Made>, Stop> {
        if depth == 0 {
            return Err(Stop::Unread);
        }
        let first = self.of.read_opened(alloc, x, reader, depth - 1, count)?;
        let found = single(alloc, first)?;
        let all = read_rest(alloc, &self.of, reader, depth - 1, count, found)?;
        Ok(Items::from_vec(all))
    }
}
