//! Used arcs by their indexes, and comparisons of positions, of used arcs and of tables.
use crate::Places;
use chains::{ArcRef, ArcTable};
use grid::Pos;
use std::alloc::Global;
use std::test::Fail;

/// The used arcs of these indexes.
///
/// # Errors
/// Where memory is refused.
pub fn refs_of(alloc: Global, indexes: &[i64]) -> Result<Vec<ArcRef>, Fail> {
    let mut refs = Vec::new(alloc);
    for index in indexes {
        refs.push(ArcRef::from_index(*index))?;
    }
    Ok(refs)
}

/// Whether used arcs are those of the indexes.
pub fn are_used(used: &[ArcRef], indexes: &[i64]) -> bool {
    for (arc, index) in used.iter().zip(indexes) {
        if *arc != ArcRef::from_index(*index) {
            return false;
        }
    }
    used.len() == indexes.len()
}

/// Whether a position is at a place.
pub fn is_at(position: &Pos, place: &(i64, i64)) -> bool {
    position.x() == place.0 && position.y() == place.1
}

/// Whether positions are those of places.
pub fn are_at(positions: &[Pos], places: &[(i64, i64)]) -> bool {
    for (position, place) in positions.iter().zip(places) {
        if !is_at(position, place) {
            return false;
        }
    }
    positions.len() == places.len()
}

fn is_arc(table: &ArcTable, number: usize, places: Places, free: bool) -> bool {
    match table.arc(number) {
        Some(positions) => are_at(positions, places) && table.is_free(number) == free,
        None => false,
    }
}

/// Whether a table has the arcs of these places and no more, and those of them that are marked are free.
/// Where a mark is missing, it is not set.
pub fn has_arcs(table: &ArcTable, arcs: &[Places], free: &[bool]) -> bool {
    for (number, places) in arcs.iter().enumerate() {
        if !is_arc(table, number, *places, free.get(number) == Some(&true)) {
            return false;
        }
    }
    let count = arcs.len();
    table.len() == count && table.arc(count).is_none() && !table.is_free(count)
}

/// Whether two tables have the same arcs, and the same ones are free.
pub fn same_arcs(made: &ArcTable, whole: &ArcTable) -> bool {
    for number in 0..whole.len() {
        if made.arc(number) != whole.arc(number) || made.is_free(number) != whole.is_free(number) {
            return false;
        }
    }
    made.len() == whole.len()
}
