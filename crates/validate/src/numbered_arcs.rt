//! Arcs that are taken by their numbers.
ghost use Rattle.grid.specs.declared.pos.Pos.{Pos};
ghost use Rattle.std.specs.Option.{option_map};
ghost use Rattle.std.specs.Prelude.{◌≡◌, List, slice_get};

use chains::table::ArcTable;
use grid::pos::Pos;
use lines::items::Items;

/// Arcs by their numbers: those of a list, or of a table.
pub trait NumberedArcs {
    // The arcs, by their numbers.
    ghost arcs: { Self → List (List Pos) };

    /// The arc of a number, `None` exactly past the last arc.
    fn arc(&self, number: usize) -> Option<&[Pos]>
        ensures { option_map (λ a. a.now) result ≡ slice_get (arcs self.now) number };
}

impl<'a> NumberedArcs for &'a [Items<Pos>] {
    ghost arcs = { λ s. s.now };

    fn arc(&self, number: usize) -> Option<&[Pos]> {
        match self.get(number) {
            Some(arc) => Some(arc.as_slice()),
            None => None,
        }
    }
}

impl NumberedArcs for ArcTable {
    ghost arcs = { λ t. t.arcs };

    fn arc(&self, number: usize) -> Option<&[Pos]> {
        self.arc(number)
    }
}
