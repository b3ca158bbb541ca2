//! Turning the list of a ring to begin at the used arc that starts least.
ghost use Rattle.arcs.specs.Keys.{key_of};
ghost use Rattle.arcs.specs.Turning.{used_key, least_index};
ghost use Rattle.lines.specs.Turned.{position_cmp};
ghost use Rattle.std.specs.Prelude.{◌≡◌, Some, reverse};
ghost use Rattle.theory.specs.ArcNumbers.{along};
ghost use Rattle.theory.specs.Refinement.{turned_used};

use crate::key::Key;
use crate::table::{ArcRef, ArcTable};
use grid::pos::Pos;
use itertools::Itertools;

fn key_against(arc: &[Pos]) -> Key
    ensures { result ≡ key_of (reverse arc.now) }
{
    let Some((first, others)) = arc.split_last() else {
        return Key {
            first: None,
            second: None,
        };
    };
    Key {
        first: Some(*first),
        second: others.last().copied(),
    }
}

/// The first two vertices along a used arc.
fn key_along(arcs: &ArcTable, used: &ArcRef) -> Key
    ensures { result ≡ used_key arcs.now.arcs used.now }
{
    match arcs.arc(used.arc) {
        Some(arc) => {
            if used.reversed {
                key_against(arc)
            } else {
                Key::of(arc)
            }
        }
        None => Key {
            first: None,
            second: None,
        },
    }
}

/// The place of the first used arc that starts least.
fn index_of_least(arcs: &ArcTable, used: &[ArcRef]) -> usize
    ensures { result ≡ least_index arcs.now.arcs used.now }
{
    used.iter()
        .position_min_by_key(|arc| key_along(arcs, arc))
        .unwrap_or(0)
}

/// Turns the list of a ring to begin at the first used arc that starts least: by its first vertex, then
/// by its second.
pub fn turn_ring(arcs: &ArcTable, used: &mut [ArcRef])
    ensures { used.new ≡ turned_used position_cmp arcs.now.arcs used.old }
{
    let index = index_of_least(arcs, used);
    used.rotate_left(index);
}
