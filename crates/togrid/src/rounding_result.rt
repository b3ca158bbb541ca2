//! What is made of files: printed, and asked for properties.
use crate::printing::Printed;
use command_line::files::Files;
use command_line::refusal::Refusal;
use faults::OutOfMemory;
use json::{Error, Scratch, Value};
use rounded_maps::{Rounded, RoundedMap};
use rounding::columns::PrintedColumns;
use rounding::layers::MapLayer;
use rounding::options::GridOptions;
use shapes::Props;
use sinks::Sink;
use std::alloc::Global;
use topo::Topology;
use topo::topology::Layer;

/// Whether properties have a member of this name.
fn has_member(alloc: Global, props: &Props, name: &str) -> Result<bool, OutOfMemory> {
    let mut scratch = Scratch::new(alloc);
    match Value::parse(alloc, props.text(), &mut scratch) {
        Ok(value) => Ok(value.get(name).is_some()),
        Err(Error::OutOfMemory) => Err(OutOfMemory),
        Err(_) => Ok(false),
    }
}

/// Whether a feature of a layer has a property.
fn is_in_layer(alloc: Global, layer: &Layer, name: &str) -> Result<bool, OutOfMemory> {
    for geometry in layer.geometries() {
        if has_member(alloc, &geometry.props, name)? {
            return Ok(true);
        }
    }
    Ok(false)
}

/// Whether a feature of a map that is printed has a property.
fn is_in_map(alloc: Global, map: &RoundedMap, name: &str) -> Result<bool, OutOfMemory> {
    for feature in &map.features {
        let feature = &feature.feature;
        if !feature.shapes.is_empty() && has_member(alloc, &feature.props, name)? {
            return Ok(true);
        }
    }
    Ok(false)
}

/// Whether a feature of a topology has a property.
fn is_in_topology(alloc: Global, topology: &Topology, name: &str) -> Result<bool, OutOfMemory> {
    for layer in topology.layers() {
        if is_in_layer(alloc, layer, name)? {
            return Ok(true);
        }
    }
    Ok(false)
}

/// Whether a feature of maps has a property.
fn is_in_maps(alloc: Global, maps: &[RoundedMap], name: &str) -> Result<bool, OutOfMemory> {
    for map in maps {
        if is_in_map(alloc, map, name)? {
            return Ok(true);
        }
    }
    Ok(false)
}

/// What is made of files: one topology, or maps.
#[derive(Drop)]
pub(crate) enum RoundingResult {
    Topology(Topology),
    Maps(Vec<RoundedMap>),
}

impl RoundingResult {
    /// Whether a feature has a property.
    fn has_property(&self, alloc: Global, name: &str) -> Result<bool, OutOfMemory> {
        match self {
            RoundingResult::Topology(topology) => is_in_topology(alloc, topology, name),
            RoundingResult::Maps(maps) => is_in_maps(alloc, maps.as_slice(), name),
        }
    }

    /// The properties that the words scale and no feature has, where anything is reported.
    pub(crate) fn absent<'a>(
        &self,
        alloc: Global,
        options: &GridOptions<'a>,
    ) -> Result<Vec<&'a str>, OutOfMemory> {
        let mut absent = Vec::new(alloc);
        if !options.reports() {
            return Ok(absent);
        }
        for scale in &options.scales {
            if !self.has_property(alloc, scale.property)? {
                absent.push(scale.property)?;
            }
        }
        Ok(absent)
    }

    /// The columns of numbers that are printed, where anything is reported.
    pub(crate) fn columns(
        &self,
        alloc: Global,
        options: &GridOptions<'_>,
        layers: &[MapLayer<'_>],
        rounded: &Rounded,
    ) -> Result<PrintedColumns, OutOfMemory> {
        if !options.reports() {
            return Ok(PrintedColumns::new(alloc));
        }
        match self {
            RoundingResult::Topology(topology) => {
                PrintedColumns::of_topology(alloc, layers, rounded, topology)
            }
            RoundingResult::Maps(maps) => PrintedColumns::of_maps(
                alloc,
                layers,
                rounded,
                maps.as_slice(),
            ),
        }
    }

    /// Prints it where it goes. On standard output it comes last, since a terminal shows it with the report.
    pub(crate) fn print<'a, F: Files, O: Sink>(
        &self,
        alloc: Global,
        options: &GridOptions<'a>,
        layers: &[MapLayer<'_>],
        files: &mut F,
        out: &mut O,
    ) -> Result<(), Refusal<'a>> {
        match self {
            RoundingResult::Topology(topology) => {
                Printed::Topology(topology).print(alloc, options.output, files, out)
            }
            RoundingResult::Maps(maps) => print_maps(
                alloc,
                options,
                layers,
                maps.as_slice(),
                files,
                out,
            ),
        }
    }
}

/// Prints the FeatureCollection of no features, where no map is there and the output is no folder.
fn print_nothing<'a, F: Files, O: Sink>(
    alloc: Global,
    options: &GridOptions<'a>,
    files: &mut F,
    out: &mut O,
) -> Result<(), Refusal<'a>> {
    if options.target.is_folder() {
        return Ok(());
    }
    Printed::Map(&[], &options.grid).print(alloc, options.output, files, out)
}

/// Prints each map where it goes.
fn print_maps<'a, F: Files, O: Sink>(
    alloc: Global,
    options: &GridOptions<'a>,
    layers: &[MapLayer<'_>],
    maps: &[RoundedMap],
    files: &mut F,
    out: &mut O,
) -> Result<(), Refusal<'a>> {
    if maps.is_empty() {
        return print_nothing(alloc, options, files, out);
    }
    for (layer, map) in layers.iter().zip(maps) {
        let printed = Printed::Map(map.features.as_slice(), &options.grid);
        match options.target.file(alloc, layer.name)? {
            Some(file) => printed.print(alloc, Some(file.as_str()), files, out)?,
            None => printed.print(alloc, None, files, out)?,
        }
    }
    Ok(())
}
