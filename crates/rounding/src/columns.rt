//! The columns of numbers of what is printed.
use crate::layers::MapLayer;
use attributes::Columns;
use faults::OutOfMemory;
use rounded_maps::{Outcome, Rounded, RoundedFeature, RoundedMap};
use std::alloc::Global;
use std::collections::{BTreeMap, BTreeSet};
use topo::Topology;
use topo::topology::Layer;

/// The columns of numbers of layers in which numbers became texts, by the layers' names.
#[derive(Drop)]
pub struct PrintedColumns {
    layers: BTreeMap<String, Columns>,
}

/// Adds the properties of the features that are printed of one: as many as it has shapes.
fn add_feature(
    alloc: Global,
    columns: &mut Columns,
    feature: &RoundedFeature,
) -> Result<(), OutOfMemory> {
    for _shape in &feature.feature.shapes {
        columns.add(alloc, &feature.feature.props)?;
    }
    Ok(())
}

/// The columns of a map.
fn columns_of_map(alloc: Global, map: &RoundedMap) -> Result<Columns, OutOfMemory> {
    let mut columns = Columns::new(alloc);
    for feature in &map.features {
        add_feature(alloc, &mut columns, feature)?;
    }
    Ok(columns)
}

/// The columns of a layer.
fn columns_of_layer(alloc: Global, layer: &Layer) -> Result<Columns, OutOfMemory> {
    let mut columns = Columns::new(alloc);
    for geometry in layer.geometries() {
        columns.add(alloc, &geometry.props)?;
    }
    Ok(columns)
}

/// The names of layers with a map of which numbers became texts.
fn layers_with_texts<'m>(
    alloc: Global,
    layers: &[MapLayer<'m>],
    outcomes: &[Outcome],
) -> Result<BTreeSet<&'m str>, OutOfMemory> {
    let mut names = BTreeSet::new(alloc);
    for (layer, outcome) in layers.iter().zip(outcomes) {
        if outcome.reals > 0 {
            names.insert(layer.name)?;
        }
    }
    Ok(names)
}

impl PrintedColumns {
    /// No columns.
    pub fn new(alloc: Global) -> PrintedColumns {
        PrintedColumns {
            layers: BTreeMap::new(alloc),
        }
    }

    fn insert(&mut self, alloc: Global, name: &str, columns: Columns) -> Result<(), OutOfMemory> {
        self.layers.insert(String::from_str(alloc, name)?, columns)?;
        Ok(())
    }

    /// The columns of a topology.
    pub fn of_topology(
        alloc: Global,
        layers: &[MapLayer<'_>],
        rounded: &Rounded,
        topology: &Topology,
    ) -> Result<PrintedColumns, OutOfMemory> {
        let names = layers_with_texts(alloc, layers, rounded.outcomes.as_slice())?;
        let mut printed = PrintedColumns::new(alloc);
        for layer in topology.layers() {
            let name = layer.name().text();
            if names.contains(name) {
                printed.insert(alloc, name, columns_of_layer(alloc, layer)?)?;
            }
        }
        Ok(printed)
    }

    /// The columns of maps that are printed each for itself.
    pub fn of_maps(
        alloc: Global,
        layers: &[MapLayer<'_>],
        rounded: &Rounded,
        maps: &[RoundedMap],
    ) -> Result<PrintedColumns, OutOfMemory> {
        let mut printed = PrintedColumns::new(alloc);
        let outcomes = rounded.outcomes.iter().zip(maps);
        for (layer, (outcome, map)) in layers.iter().zip(outcomes) {
            if outcome.reals > 0 {
                printed.insert(alloc, layer.name, columns_of_map(alloc, map)?)?;
            }
        }
        Ok(printed)
    }

    /// The columns of a map's layer, where numbers of the map became texts.
    pub(crate) fn of_map(
        &self,
        layer: &MapLayer<'_>,
        outcome: &Outcome,
    ) -> Option<&BTreeMap<String, u64>> {
        if outcome.reals == 0 {
            return None;
        }
        Some(self.layers.get(layer.name)?.numbers())
    }

    /// The names of all columns, each once.
    pub(crate) fn names(&self, alloc: Global) -> Result<BTreeSet<&str>, OutOfMemory> {
        let mut names = BTreeSet::new(alloc);
        for columns in self.layers.values() {
            add_names(&mut names, columns.numbers())?;
        }
        Ok(names)
    }
}

fn add_names<'c>(
    names: &mut BTreeSet<&'c str>,
    numbers: &'c BTreeMap<String, u64>,
) -> Result<(), OutOfMemory> {
    for name in numbers.keys() {
        names.insert(name.as_str())?;
    }
    Ok(())
}
