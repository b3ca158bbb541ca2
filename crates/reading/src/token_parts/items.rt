//! Arrays of parts that are kept as `Items`.
ghost use Rattle.json.specs.Token as spec;
ghost use Rattle.reading.specs.Parts.{list_faults, elements};
ghost use Rattle.std.specs.List.{AllZip};
ghost use Rattle.std.specs.Prelude.{◌≡◌, ◌∷◌, [], IfOk};

use crate::token_parts::list::{read_list, single};
use crate::token_parts::opened::FromOpened;
use crate::tokens::from_tokens::{FromTokens, Stop};
use crate::tokens::list::read_rest;
use json::Reader;
use lines::items::Items;
use std::alloc::Global;

/// `ListOf` with `Items` in place of a `Vec`.
#[derive(Clone, Copy)]
pub struct ItemsOf<P> {
    pub of: P,
}

impl<P: FromTokens> FromTokens for ItemsOf<P> {
    type Made = Items<P::Made>;

    ghost faults = { λ p. list_faults (P.faults p.of) };

    ghost means = { λ p d xs. AllZip (P.means p.of) (elements d) xs };

    fn read<'a>(
        &self,
        alloc: Global,
        reader: &mut Reader<'a>,
        depth: usize,
    ) -> Result<Items<P::Made>, Stop> {
        let found = read_list(alloc, &self.of, reader, depth)?;
        Ok(Items::from_vec(found))
    }
}

impl<P: FromOpened> FromOpened for ItemsOf<P> {
    ghost opening = { λ p ts. spec.begin_array ∷ P.opening p.of ts };

    fn read_opened<'a>(
        &self,
        alloc: Global,
        x: &'a str,
        reader: &mut Reader<'a>,
        depth: usize,
    ) -> Result<Items<P::Made>, Stop> {
        if depth == 0 {
            return Err(Stop::Unread);
        }
        let first = self.of.read_opened(alloc, x, reader, depth - 1)?;
        let begun = single(alloc, first)?;
        let found = read_rest(alloc, &self.of, reader, depth - 1, begun)?;
        Ok(Items::from_vec(found))
    }
}
