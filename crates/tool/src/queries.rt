//! The commands that ask one topology: `feature`, `mesh`, `neighbors` and `info`.
use crate::topologies::word;
use clap::ArgMatches;
use command_line::refusal::{Refusal, Usage};
use command_line::status::Status;
use itoa::Buffer;
use outputs::info_text::{write_json, write_lines};
use query::{
    Edges, LayerFault, QueryFault, borders, borders_by, neighbors, neighbors_by, write_layer,
    write_mesh, write_neighbor_ids, write_neighbors, write_neighbors_keyed, write_sequence,
    write_sequences,
};
use shapes::Id;
use sinks::Sink;
use std::alloc::Global;
use topo::{Geom, Topology};

/// A topology, and the words that ask about it.
#[derive(Drop)]
pub(crate) struct Question<'t, 'a> {
    pub(crate) alloc: Global,
    pub(crate) topology: &'t Topology,
    pub(crate) found: &'t ArgMatches<'a>,
}

impl<'t, 'a> Question<'t, 'a> {
    /// Prints a layer as GeoJSON, or a layer or all layers as features, a line each.
    pub(crate) fn print_feature<O: Sink>(&self, out: &mut O) -> Result<Status, Refusal<'a>> {
        let layer = word(self.found, "layer");
        if !self.found.get_flag("seq") {
            return done(layer, write_layer(self.topology, layer, out));
        }
        if self.found.get_str("layer").is_some() {
            return done(layer, write_sequence(self.topology, layer, out));
        }
        write_sequences(self.topology, out)?;
        Ok(Status::Done)
    }

    /// Prints the borders of a layer, or of all layers.
    pub(crate) fn print_mesh<O: Sink>(&self, out: &mut O) -> Result<Status, Refusal<'a>> {
        let layer = self.found.get_str("layer");
        let lines = match self.found.get_str("by") {
            Some(property) => borders_by(self.alloc, self.topology, layer, property),
            None => {
                let edges = edges_of_word(word(self.found, "edges"));
                borders(self.alloc, self.topology, layer, edges)
            }
        };
        match lines {
            Ok(lines) => {
                write_mesh(&self.topology.grid(), &lines, out)?;
                Ok(Status::Done)
            }
            Err(fault) => Err(query_refusal(layer.unwrap_or(""), fault)),
        }
    }

    /// Prints which features of a layer share a border.
    pub(crate) fn print_neighbors<O: Sink>(&self, out: &mut O) -> Result<Status, Refusal<'a>> {
        let layer = word(self.found, "layer");
        let lists = match self.neighbor_lists(layer) {
            Ok(lists) => lists,
            Err(fault) => return Err(query_refusal(layer, fault)),
        };
        if self.found.get_flag("ids") {
            return self.print_ids(layer, lists.as_slice(), out);
        }
        write_neighbors(lists.as_slice(), out)?;
        Ok(Status::Done)
    }

    /// The neighbors of each feature of a layer, or those that differ from it in a property.
    fn neighbor_lists(&self, layer: &str) -> Result<Vec<Vec<usize>>, QueryFault> {
        match self.found.get_str("by") {
            Some(property) => neighbors_by(self.alloc, self.topology, layer, property),
            None => neighbors(self.alloc, self.topology, layer),
        }
    }

    /// Prints the ids of the neighbors of each feature of a layer.
    fn print_ids<O: Sink>(
        &self,
        layer: &'a str,
        lists: &[Vec<usize>],
        out: &mut O,
    ) -> Result<Status, Refusal<'a>> {
        let geometries = geometries_with_ids(self.topology, layer)?;
        if !self.found.get_flag("keyed") {
            write_neighbor_ids(geometries, lists, out)?;
            return Ok(Status::Done);
        }
        if has_key_twice(geometries) {
            return Err(Refusal::Usage(Usage::SameIds(layer)));
        }
        write_neighbors_keyed(geometries, lists, out)?;
        Ok(Status::Done)
    }

    /// Prints what a topology is made of.
    pub(crate) fn print_info<O: Sink>(&self, out: &mut O) -> Result<Status, Refusal<'a>> {
        if self.found.get_flag("json") {
            write_json(self.topology, out)?;
        } else {
            write_lines(self.topology, out)?;
        }
        Ok(Status::Done)
    }
}

/// What the word after `--edges` names; all where there is none.
fn edges_of_word(word: &str) -> Edges {
    match word {
        "interior" => Edges::Interior,
        "exterior" => Edges::Exterior,
        _ => Edges::All,
    }
}

/// What a layer's text was written with.
fn done<'a>(layer: &'a str, written: Result<(), LayerFault>) -> Result<Status, Refusal<'a>> {
    match written {
        Ok(()) => Ok(Status::Done),
        Err(LayerFault::NoLayer) => Err(Refusal::NoLayer(layer)),
        Err(LayerFault::Write) => Err(Refusal::Write),
    }
}

/// The geometries of a layer, each of which has to have an id.
fn geometries_with_ids<'a, 't>(
    topology: &'t Topology,
    layer: &'a str,
) -> Result<&'t [Geom], Refusal<'a>> {
    let geometries = topology.geometries(layer).unwrap_or(&[]);
    for geometry in geometries {
        if geometry.id == Id::None {
            return Err(Refusal::Usage(Usage::NoId(layer)));
        }
    }
    Ok(geometries)
}

/// Whether two of a layer's geometries, which come in the order of their ids, have one key in an object.
fn has_key_twice(geometries: &[Geom]) -> bool {
    let mut before: Option<&Id> = None;
    for geometry in geometries {
        if is_same(before, &geometry.id) || is_number_too(geometries, &geometry.id) {
            return true;
        }
        before = Some(&geometry.id);
    }
    false
}

fn is_same(before: Option<&Id>, id: &Id) -> bool {
    match before {
        Some(before) => *before == *id,
        None => false,
    }
}

/// Whether an id is a text, and the decimal text of the number that is another one's id.
fn is_number_too(geometries: &[Geom], id: &Id) -> bool {
    let Id::Text(text) = id else {
        return false;
    };
    let Ok(number) = text.text().parse::<i64>() else {
        return false;
    };
    let is_its_text = Buffer::new().format(number) == text.text();
    let number = Id::Number(number);
    is_its_text
        && geometries
            .binary_search_by(|geometry| geometry.id.cmp(&number))
            .is_ok()
}

fn query_refusal<'a>(layer: &'a str, fault: QueryFault) -> Refusal<'a> {
    match fault {
        QueryFault::NoLayer => Refusal::NoLayer(layer),
        QueryFault::OutOfMemory => Refusal::OutOfMemory,
    }
}
