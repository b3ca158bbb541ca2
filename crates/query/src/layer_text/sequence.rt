//! Writing a layer as a sequence of GeoJSON features, a line each, piece by piece and with no memory.
ghost use Rattle.query.specs.ByArcs.{geom_text};
ghost use Rattle.query.specs.Sequences.{lines, layer_lines, lines_by_arcs, map_lines};
ghost use Rattle.query.specs.declared.layer_text.fault.LayerFault.TheVariants.{NoLayer, Write};
ghost use Rattle.sinks.specs.Writes.{TookAll, TookPart};
ghost use Rattle.std.specs.FinMap as map;
ghost use Rattle.std.specs.Prelude.{◌≡◌, ◌↔◌, Err, IfErr, IsTrue, OnErr, OnOk};
ghost use Rattle.topo.specs.ItsMap.{ForItsMap};

use crate::layer_text::collection::GeometriesOf;
use crate::layer_text::fault::LayerFault;
use sinks::written::{Noted, Text, Then, Written};
use sinks::{Sink, WriteFault};
use topo::{Geom, Layer, Topology};

/// Writes the features of geometries, each with a newline behind it.
fn write_lines<W: Sink>(
    topology: &Topology,
    geometries: &[Geom],
    sink: &mut W,
) -> Result<(), WriteFault>
    ensures whole { OnOk result (TookAll (W.seen sink.old) (W.seen sink.new) (lines (geom_text topology.now) geometries.now)) }
    ensures part { OnErr result (TookPart (W.seen sink.old) (W.seen sink.new) (lines (geom_text topology.now) geometries.now)) }
{
    let mut left = geometries;
    while let Some((geometry, after)) = left.split_first() {
        let line = Then(Noted(geometry, &GeometriesOf(topology)), Text(b"\n"));
        match line.write(sink) {
            Ok(()) => left = after,
            Err(fault) => return Err(fault),
        }
    }
    Ok(())
}

/// Writes the features of a layer, in their order, as GeoJSON Features in absolute numbers: each is one compact
/// line, with a newline at its end. A layer without features gives no line. It takes no memory.
///
/// # Errors
/// `NoLayer` exactly where the topology has no layer of that name, and nothing was offered to the sink;
/// `Write` where the sink failed, which then took a beginning of the text.
pub fn write_sequence<W: Sink>(
    topology: &Topology,
    layer: &str,
    sink: &mut W,
) -> Result<(), LayerFault>
    ensures whole { OnOk result (ForItsMap topology.now (λ m. TookAll (W.seen sink.old) (W.seen sink.new) (layer_lines topology.now.grid m layer.now))) }
    ensures part { IfErr result (λ f. f ≡ Write → ForItsMap topology.now (λ m. TookPart (W.seen sink.old) (W.seen sink.new) (layer_lines topology.now.grid m layer.now))) }
    ensures no_layer { ForItsMap topology.now (λ m. (result ≡ Err NoLayer) ↔ (¬ IsTrue (map.contains_key m layer.now))) }
    ensures untouched { result ≡ Err NoLayer → sink.new ≡ sink.old }
{
    let Some(geometries) = topology.geometries(layer) else {
        return Err(LayerFault::NoLayer);
    };
    match write_lines(topology, geometries, sink) {
        Ok(()) => Ok(()),
        Err(WriteFault::Write) => Err(LayerFault::Write),
    }
}

/// Writes the features of all layers, by the names of the layers and then in their order, as `write_sequence` does
/// for one. It takes no memory.
///
/// # Errors
/// `Write` where the sink failed; it then took a beginning of the text.
pub fn write_sequences<W: Sink>(topology: &Topology, sink: &mut W) -> Result<(), WriteFault>
    ensures whole { OnOk result (ForItsMap topology.now (λ m. TookAll (W.seen sink.old) (W.seen sink.new) (map_lines topology.now.grid m))) }
    ensures part { OnErr result (ForItsMap topology.now (λ m. TookPart (W.seen sink.old) (W.seen sink.new) (map_lines topology.now.grid m))) }
{
    write_layers(topology, topology.layers(), sink)
}

/// Writes the features of layers, each with a newline behind it.
fn write_layers<W: Sink>(
    topology: &Topology,
    layers: &[Layer],
    sink: &mut W,
) -> Result<(), WriteFault>
    ensures whole { OnOk result (TookAll (W.seen sink.old) (W.seen sink.new) (lines_by_arcs topology.now layers.now)) }
    ensures part { OnErr result (TookPart (W.seen sink.old) (W.seen sink.new) (lines_by_arcs topology.now layers.now)) }
{
    let mut left = layers;
    while let Some((layer, after)) = left.split_first() {
        match write_lines(topology, layer.geometries(), sink) {
            Ok(()) => left = after,
            Err(fault) => return Err(fault),
        }
    }
    Ok(())
}
