//! Values compared with copies of them and with what is worked out by hand, without memory.

use crate::texts::Places;
use chains::{ArcRef, ArcTable};
use grid::Pos;
use lines::items::Items;
use shapes::{Feature, FeatureMap};
use topo::Geom;

/// Whether positions are at these places, in their order.
pub fn are_at(positions: &[Pos], places: &[(i64, i64)]) -> bool {
    for (position, place) in positions.iter().zip(places) {
        if (position.x(), position.y()) != *place {
            return false;
        }
    }
    positions.len() == places.len()
}

/// Whether the arcs of a table are these lines, in their order.
pub fn are_arcs(table: &ArcTable, lines: &[Places]) -> bool {
    for (number, places) in lines.iter().enumerate() {
        let Some(arc) = table.arc(number) else {
            return false;
        };
        if !are_at(arc, places) {
            return false;
        }
    }
    table.len() == lines.len()
}

/// Whether lists of positions are the arcs of a table, in their order.
pub fn are_lists_of(lists: &[Items<Pos>], table: &ArcTable) -> bool {
    for (number, list) in lists.iter().enumerate() {
        if table.arc(number) != Some(list.as_slice()) {
            return false;
        }
    }
    lists.len() == table.len()
}

/// Whether two tables have the same arcs, of which the same are free loops.
pub fn same_arcs(table: &ArcTable, other: &ArcTable) -> bool {
    for number in 0..table.len() {
        if table.arc(number) != other.arc(number) {
            return false;
        }
        if table.is_free(number) != other.is_free(number) {
            return false;
        }
    }
    table.len() == other.len()
}

/// Whether used arcs are those of the indexes.
pub fn are_used(used: &[ArcRef], indexes: &[i64]) -> bool {
    for (arc, index) in used.iter().zip(indexes) {
        if *arc != ArcRef::from_index(*index) {
            return false;
        }
    }
    used.len() == indexes.len()
}

/// Whether a map has each layer of another one, with the same features.
fn has_layers(map: &FeatureMap, other: &FeatureMap) -> bool {
    for layer in other.layers() {
        match map.layer(layer.name.text()) {
            Some(features) => {
                if *features != layer.features {
                    return false;
                }
            }
            None => return false,
        }
    }
    true
}

/// Whether two maps have the same layers and features.
pub fn same_map(map: &FeatureMap, other: &FeatureMap) -> bool {
    has_layers(map, other) && has_layers(other, map)
}

/// Whether features are those of the layer `a` of a map, in their order.
pub fn are_features(features: &[Feature], map: &FeatureMap) -> bool {
    let Some(layer) = map.layer("a") else {
        return false;
    };
    for (feature, other) in features.iter().zip(layer.iter()) {
        if feature != other {
            return false;
        }
    }
    features.len() == layer.len()
}

/// Whether two lists of geometries are the same.
pub fn same_geometries(geometries: &[Geom], others: &[Geom]) -> bool {
    for (geometry, other) in geometries.iter().zip(others) {
        if geometry.id != other.id || geometry.props != other.props {
            return false;
        }
        if geometry.body != other.body {
            return false;
        }
    }
    geometries.len() == others.len()
}

/// Whether lists of neighbours are those that are expected.
pub fn are_neighbors(lists: &[Vec<usize>], expected: &[&[usize]]) -> bool {
    for (list, numbers) in lists.iter().zip(expected) {
        if list.as_slice() != *numbers {
            return false;
        }
    }
    lists.len() == expected.len()
}
