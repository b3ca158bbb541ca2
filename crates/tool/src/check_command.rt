//! The command `check`: whether a text is canonical, and the tests of the map that are asked for beside it.
use crate::topologies::{of_file, word};
use clap::ArgMatches;
use command_line::files::{Files, read_named};
use command_line::refusal::{Refusal, Usage};
use command_line::status::Status;
use compare::quality::{NearPlace, NearVertices, near_vertices, repeated_ids, without_id};
use itoa::{Buffer, Integer};
use shapes::Id;
use sinks::{Sink, WriteFault, put};
use std::alloc::Global;
use topo::{Layer, Topology};

/// The most steps that `--near` may name.
const MOST_STEPS: u32 = 100;

/// How many of the pairs that are near each other are printed.
const PRINTED_PAIRS: usize = 10;

/// What `check` found out of a text.
#[derive(Drop)]
pub(crate) struct Checked {
    is_canonical: bool,
    map: Option<CheckedMap>,
}

/// A map, and what the tests that were asked for found.
#[derive(Drop)]
struct CheckedMap {
    topology: Topology,
    ids: Option<Vec<LayerIds>>,
    near: Option<(u32, NearVertices)>,
}

/// The numbers of a layer's features without an id, and of those whose id occurs more than once.
#[derive(Drop)]
struct LayerIds {
    missing: Vec<usize>,
    repeated: Vec<usize>,
}

/// Reads a text, and tests what the words ask for.
pub(crate) fn check<'a, F: Files>(
    alloc: Global,
    found: &ArgMatches<'a>,
    files: &mut F,
) -> Result<Checked, Refusal<'a>> {
    let steps = steps_asked(found.get_str("near"))?;
    let file = word(found, "FILE");
    let text = read_named(alloc, files, file)?;
    let topology = of_file(file, topo_io::read_topology(alloc, text.as_slice()))?;
    let is_canonical = topo_io::is_text_of(&topology, text.as_slice());
    drop(text);
    if steps.is_none() && !found.get_flag("ids") {
        return Ok(Checked {
            is_canonical,
            map: None,
        });
    }
    Ok(Checked {
        is_canonical,
        map: Some(checked_map(alloc, topology, found.get_flag("ids"), steps)?),
    })
}

/// The number of steps that a word names, where there is one: digits, for a number from 1 to the most.
fn steps_asked<'a>(word: Option<&'a str>) -> Result<Option<u32>, Refusal<'a>> {
    let Some(word) = word else {
        return Ok(None);
    };
    if !word.as_bytes().iter().all(|byte| byte.is_ascii_digit()) {
        return Err(Refusal::Usage(Usage::BadSteps(word)));
    }
    match word.parse::<u32>() {
        Ok(steps) if steps >= 1 && steps <= MOST_STEPS => Ok(Some(steps)),
        _ => Err(Refusal::Usage(Usage::BadSteps(word))),
    }
}

fn checked_map<'a>(
    alloc: Global,
    topology: Topology,
    is_by_ids: bool,
    steps: Option<u32>,
) -> Result<CheckedMap, Refusal<'a>> {
    let ids = if is_by_ids {
        Some(ids_of(alloc, topology.layers())?)
    } else {
        None
    };
    let near = match steps {
        Some(steps) => Some((
            steps,
            near_vertices(alloc, &topology, steps, PRINTED_PAIRS)?,
        )),
        None => None,
    };
    Ok(CheckedMap {
        topology,
        ids,
        near,
    })
}

/// For each layer which ids are missing, and which occur more than once.
fn ids_of<'a>(alloc: Global, layers: &[Layer]) -> Result<Vec<LayerIds>, Refusal<'a>> {
    let mut ids = Vec::new(alloc);
    for layer in layers {
        ids.push(LayerIds {
            missing: without_id(alloc, layer.geometries())?,
            repeated: repeated_ids(alloc, layer.geometries())?,
        })?;
    }
    Ok(ids)
}

/// Prints whether the text is canonical, and then what each other test found. The status says no where one of them does.
pub(crate) fn print_checked<'a, O: Sink>(
    checked: &Checked,
    out: &mut O,
) -> Result<Status, Refusal<'a>> {
    put_verdict(checked.is_canonical, out)?;
    let Some(map) = &checked.map else {
        return Ok(status_of(checked.is_canonical));
    };
    let mut is_good = checked.is_canonical;
    if let Some(ids) = &map.ids {
        is_good = put_ids(&map.topology, ids.as_slice(), out)? && is_good;
    }
    if let Some((steps, near)) = &map.near {
        is_good = put_near(&map.topology, *steps, near, out)? && is_good;
    }
    Ok(status_of(is_good))
}

fn status_of(is_good: bool) -> Status {
    if is_good {
        Status::Done
    } else {
        Status::NotCanonical
    }
}

/// Prints whether a text is canonical.
fn put_verdict<O: Sink>(is_canonical: bool, out: &mut O) -> Result<(), WriteFault> {
    if is_canonical {
        put(out, b"canonical\n")
    } else {
        put(out, b"not canonical\n")
    }
}

/// Prints how many ids are missing and occur more than once, and a line for each. Answers whether there are none.
fn put_ids<O: Sink>(
    topology: &Topology,
    ids: &[LayerIds],
    out: &mut O,
) -> Result<bool, WriteFault> {
    let (missing, repeated) = count_ids(topology, ids);
    put_count_of(out, "ids: ", missing, "feature")?;
    put_count_of(out, " without an id, ", repeated, "id")?;
    put(out, b" more than once\n")?;
    for (layer, found) in topology.layers().iter().zip(ids.iter()) {
        put_missing(layer, found.missing.as_slice(), out)?;
        put_repeated(layer, found.repeated.as_slice(), out)?;
    }
    Ok(missing == 0 && repeated == 0)
}

/// How many features of all layers have no id, and how many ids occur more than once in a layer.
fn count_ids(topology: &Topology, ids: &[LayerIds]) -> (u64, u64) {
    let mut missing = 0u64;
    let mut repeated = 0u64;
    for (layer, found) in topology.layers().iter().zip(ids.iter()) {
        missing = missing.saturating_add(found.missing.len() as u64);
        repeated = repeated.saturating_add(count_repeated(layer, found.repeated.as_slice()));
    }
    (missing, repeated)
}

/// How many ids the features of these numbers have, of which those of one id are side by side.
fn count_repeated(layer: &Layer, numbers: &[usize]) -> u64 {
    let mut before = None;
    let mut count = 0u64;
    for number in numbers {
        let id = id_at(layer, *number);
        if id != before {
            count = count.saturating_add(1);
        }
        before = id;
    }
    count
}

/// The id of a layer's feature.
fn id_at(layer: &Layer, number: usize) -> Option<&Id> {
    let geometry = layer.geometries().get(number)?;
    Some(&geometry.id)
}

/// A line for each feature without an id.
fn put_missing<O: Sink>(layer: &Layer, numbers: &[usize], out: &mut O) -> Result<(), WriteFault> {
    for number in numbers {
        put_layer(layer, out)?;
        put_count(out, ": feature ", *number)?;
        put(out, b" has no id\n")?;
    }
    Ok(())
}

/// A line for each id that occurs more than once, with the numbers of its features, which are side by side.
fn put_repeated<O: Sink>(layer: &Layer, numbers: &[usize], out: &mut O) -> Result<(), WriteFault> {
    let mut before = None;
    let mut end: &[u8] = b"";
    for number in numbers {
        let id = id_at(layer, *number);
        if id == before {
            put_count(out, ", ", *number)?;
        } else {
            put(out, end)?;
            put_layer(layer, out)?;
            put(out, b": ")?;
            put_id(id.unwrap_or(&Id::None), out)?;
            put_count(out, " more than once: features ", *number)?;
        }
        before = id;
        end = b"\n";
    }
    put(out, end)
}

/// Prints how many pairs of vertices are near each other, and a line for each of the first. Answers whether there are none.
fn put_near<O: Sink>(
    topology: &Topology,
    steps: u32,
    near: &NearVertices,
    out: &mut O,
) -> Result<bool, WriteFault> {
    put_count(out, "near: ", near.count)?;
    put(
        out,
        if near.count == 1 {
            b" pair of vertices at most "
        } else {
            b" pairs of vertices at most "
        },
    )?;
    put_count_of(out, "", u64::from(steps), "step")?;
    put(out, b" apart")?;
    if near.count > PRINTED_PAIRS as u128 {
        put_count(out, ", the first ", PRINTED_PAIRS)?;
    }
    put(out, b"\n")?;
    for (one, other) in near.first.iter() {
        put_place(topology, one, out)?;
        put(out, b" and ")?;
        put_place(topology, other, out)?;
        put(out, b"\n")?;
    }
    Ok(near.count == 0)
}

/// Prints where a vertex lies, in the map's coordinates, and a feature that has it.
fn put_place<O: Sink>(
    topology: &Topology,
    place: &NearPlace,
    out: &mut O,
) -> Result<(), WriteFault> {
    let (x, y) = topology.grid().to_absolute(place.at);
    put_count(out, "[", x)?;
    put_count(out, ",", y)?;
    put(out, b"] of ")?;
    let mut number = place.feature;
    for layer in topology.layers() {
        let Some(geometry) = layer.geometries().get(number) else {
            number = number.saturating_sub(layer.geometries().len());
            continue;
        };
        put_layer(layer, out)?;
        return match geometry.id {
            Id::None => put_count(out, " feature ", number),
            _ => {
                put(out, b" ")?;
                put_id(&geometry.id, out)
            }
        };
    }
    Ok(())
}

/// Prints a layer's name in quotes.
fn put_layer<O: Sink>(layer: &Layer, out: &mut O) -> Result<(), WriteFault> {
    put(out, b"layer ")?;
    put(out, layer.name().spelling().as_bytes())
}

/// Prints an id as JSON.
fn put_id<O: Sink>(id: &Id, out: &mut O) -> Result<(), WriteFault> {
    match id {
        Id::None => put(out, b"no id"),
        Id::Number(number) => put_count(out, "id ", *number),
        Id::Text(text) => {
            put(out, b"id ")?;
            put(out, text.spelling().as_bytes())
        }
    }
}

/// Prints a word, and then how many there are of something.
fn put_count_of<O: Sink>(
    out: &mut O,
    word: &str,
    count: u64,
    what: &str,
) -> Result<(), WriteFault> {
    put_count(out, word, count)?;
    put(out, b" ")?;
    put(out, what.as_bytes())?;
    if count == 1 {
        return Ok(());
    }
    put(out, b"s")
}

/// Prints a word, and then a number.
fn put_count<O: Sink, N: Integer>(out: &mut O, word: &str, number: N) -> Result<(), WriteFault> {
    put(out, word.as_bytes())?;
    put(out, Buffer::new().format(number).as_bytes())
}
