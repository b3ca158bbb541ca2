//! What differs between two topologies, feature by feature and member by member, as lines for people and as a JSON
//! object.
#![tactic(auto)]

ghost use Rattle.difference_text.specs.DifferenceJson.{IsDifferenceText, difference_text};
ghost use Rattle.difference_text.specs.DifferenceText.{AgreeAt, LackLayer};
ghost use Rattle.difference_text.specs.declared.fault.DifferenceFault.TheVariants.{OtherGrid, NoLayer, Write};
ghost use Rattle.shapes.specs.Maps.{Layers};
ghost use Rattle.sinks.specs.Writes.{TookAll, TookPart};
ghost use Rattle.std.specs.Option.{option_copied};
ghost use Rattle.std.specs.Prelude.{◌≡◌, ◌↔◌, IfErr, IfOk, IsErrOf, List, OnErr, OnOk, false, ℕ};
ghost use Rattle.topo.specs.OfMap.{IsOf};

mod difference;
mod fault;
mod geometry;
mod members;
mod object;
mod parts;
mod text;
mod vertices;

pub use difference::{
    ChangeCounts, Difference, FeatureChange, LayerChanges, Single, find_difference,
};
pub use fault::DifferenceFault;
pub use geometry::GeometryChange;
pub use members::MemberChange;
pub use object::write_json;
use sinks::{Sink, WriteFault};
use std::alloc::Global;
pub use text::write_lines;
use topo::Topology;

/// What is asked of a difference.
#[derive(Clone, Copy, Debug)]
pub struct DifferenceOptions<'a> {
    /// The one layer to compare; all layers where it is left out.
    pub layer: Option<&'a str>,
    /// The property by whose value features pair; their ids where it is left out.
    pub key: Option<&'a str>,
    /// One JSON object in place of lines.
    pub json: bool,
}

/// Writes what differs between two topologies, and says whether anything does. Nothing is offered to the sink before
/// all is known.
///
/// # Errors
/// `OtherGrid` exactly where the grids differ; else `NoLayer` exactly where a layer is asked for that neither topology
/// has; `OutOfMemory`; `Write` where the sink failed, which then took a beginning of the text.
pub fn write_difference<W: Sink>(
    alloc: Global,
    old: &Topology,
    new: &Topology,
    options: &DifferenceOptions<'_>,
    sink: &mut W,
) -> Result<bool, DifferenceFault>
    ensures same { IfOk result (λ b. (m n : Layers) → IsOf m old.now → IsOf n new.now → ((b ≡ false) ↔ AgreeAt (option_copied options.now.layer) m n)) }
    ensures other_grid { IsErrOf result OtherGrid ↔ ¬ (old.now.grid ≡ new.now.grid) }
    ensures no_layer { (m n : Layers) → IsOf m old.now → IsOf n new.now → (IsErrOf result NoLayer ↔ ((old.now.grid ≡ new.now.grid) × LackLayer (option_copied options.now.layer) m n)) }
    ensures whole { IfOk result (λ _. (t : List ℕ) × IsDifferenceText (option_copied options.now.layer) (option_copied options.now.key) options.now.json old.now new.now t × TookAll (W.seen sink.old) (W.seen sink.new) t) }
    ensures part { IfErr result (λ f. f ≡ Write → (t : List ℕ) × IsDifferenceText (option_copied options.now.layer) (option_copied options.now.key) options.now.json old.now new.now t × TookPart (W.seen sink.old) (W.seen sink.new) t) }
    ensures untouched { IfErr result (λ f. ¬ (f ≡ Write) → sink.new ≡ sink.old) }
{
    let difference = match find_difference(alloc, old, new, options) {
        Ok(difference) => difference,
        Err(fault) => return Err(fault),
    };
    match write_found(&difference, old, new, options.json, sink) {
        Ok(()) => Ok(!difference.is_empty()),
        Err(WriteFault::Write) => Err(DifferenceFault::Write),
    }
}

/// Writes a difference, as lines or as a JSON object.
fn write_found<W: Sink>(
    difference: &Difference,
    old: &Topology,
    new: &Topology,
    is_json: bool,
    sink: &mut W,
) -> Result<(), WriteFault>
    ensures whole { OnOk result (TookAll (W.seen sink.old) (W.seen sink.new) (difference_text is_json difference.now old.now new.now)) }
    ensures part { OnErr result (TookPart (W.seen sink.old) (W.seen sink.new) (difference_text is_json difference.now old.now new.now)) }
{
    if is_json {
        write_json(difference, old, new, sink)
    } else {
        write_lines(difference, old, new, sink)
    }
}
