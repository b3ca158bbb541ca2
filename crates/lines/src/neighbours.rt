//! Equal neighbours in a list.
ghost use Rattle.lines.specs.Neighbours.{equal_neighbours};
ghost use Rattle.std.specs.Prelude.{◌≡◌};

/// Whether two neighbours are equal. In a sorted list it says whether an item occurs twice.
pub fn has_equal_neighbours<T: PartialEq + Copy>(items: &[T]) -> bool
    ensures { result ≡ equal_neighbours T.eq items.now }
{
    let Some((first, others)) = items.split_first() else {
        return false;
    };
    let mut before = *first;
    for item in others {
        if *item == before {
            return true;
        }
        before = *item;
    }
    false
}
