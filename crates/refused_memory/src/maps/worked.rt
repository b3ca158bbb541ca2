//! The calls that are made of each worked map, which take memory and are lent what they need.

use crate::maps::texts::{ROWS, Row};
use crate::maps::{asking, readers, writers};
use grid::Grid;
use refused_calls::calls::Borrowed;
use refused_calls::comparing::same_map;
use refused_calls::inputs::is_of;
use refused_calls::outcome::Tally;
use refused_calls::tables::both;
use shapes::FeatureMap;
use std::alloc::Global;
use topo::Topology;

/// A worked map in each form in which it is lent, and a copy of its features.
#[derive(Drop)]
pub(crate) struct Worked {
    pub(crate) row: &'static Row,
    pub(crate) sources: Vec<(String, Vec<u8>)>,
    pub(crate) text: Vec<u8>,
    pub(crate) grid: Grid,
    pub(crate) map: FeatureMap,
    pub(crate) copy: FeatureMap,
    pub(crate) topology: Topology,
}

/// The GeoJSON text of a map after the name of its layer, alone in a list.
fn sources_of(alloc: Global, row: &Row) -> Option<Vec<(String, Vec<u8>)>> {
    let name = String::from_str(alloc, "a").ok()?;
    let text = row.geojson.as_bytes().to_vec(alloc).ok()?;
    let mut sources = Vec::new(alloc);
    sources.push((name, text)).ok()?;
    Some(sources)
}

impl Worked {
    fn with_map(alloc: Global, row: &'static Row, grid: Grid, map: FeatureMap) -> Option<Worked> {
        let text = row.topology.as_bytes().to_vec(alloc).ok();
        let texts = both(sources_of(alloc, row), text);
        let topology = Topology::build(alloc, &grid, &map).ok();
        let copy = map.copy().ok();
        let rest = both(topology, both(Some(map), copy));
        let ((sources, text), (topology, (map, copy))) = both(texts, rest)?;
        Some(Worked {
            row,
            sources,
            text,
            grid,
            map,
            copy,
            topology,
        })
    }

    fn of(alloc: Global, row: &'static Row) -> Option<Worked> {
        let (grid, map) = topo_io::read(alloc, row.topology.as_bytes()).ok()?;
        Worked::with_map(alloc, row, grid, map)
    }

    /// The GeoJSON text that is lent.
    pub(crate) fn geojson(&self) -> &[u8] {
        match self.sources.as_slice() {
            [source] => source.1.as_slice(),
            _ => b"",
        }
    }
}

impl Borrowed for Worked {
    fn is_as_before(&self) -> bool {
        self.geojson() == self.row.geojson.as_bytes()
            && self.text.as_slice() == self.row.topology.as_bytes()
            && same_map(&self.map, &self.copy)
            && is_of(&self.topology, self.row.topology)
    }
}

fn test_row(rt: &HostRuntime, tally: &mut Tally, row: &'static Row) {
    let made = tally.borrowed(rt, row.title, "its map", |alloc| Worked::of(alloc, row));
    if let Some(worked) = made {
        readers::test(rt, tally, &worked);
        asking::test(rt, tally, &worked);
        writers::test(rt, tally, &worked);
    }
}

/// Makes each call of each worked map.
pub(crate) fn test(rt: &HostRuntime, tally: &mut Tally) {
    for row in ROWS {
        test_row(rt, tally, row);
    }
}
