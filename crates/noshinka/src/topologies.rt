//! Topologies of borrowed texts.
ghost use Rattle.noshinka.specs.Answers.{IsCanonical, IsNotCanonical};
ghost use Rattle.c_calls.specs.Ends.{Says};
ghost use Rattle.c_calls.specs.Why.{IsTextRefusal};
ghost use Rattle.std.specs.Prelude.{◌<◌, ◌^◌, IfErr, IfOk, length};
ghost use Rattle.topo_io.specs.Means.{MeansTopology};

use c_calls::refusal::CallRefusal;
use std::alloc::Global;
use topo::Topology;

/// The topology of what the text at a place means.
pub(crate) fn topology_of(alloc: Global, place: usize, text: &[u8]) -> Result<Topology, CallRefusal>
    ensures means { IfOk result (MeansTopology text.now) }
    ensures few { IfOk result (λ t. length t.arcs.arcs < 2 ^ 63) }
    ensures refused { IfErr result (IsTextRefusal place text.now) }
{
    match topo_io::read_topology(alloc, text) {
        Ok(topology) => Ok(topology),
        Err(fault) => Err(CallRefusal::of_text(place, fault)),
    }
}

/// Whether a borrowed text is canonical.
pub(crate) fn check(alloc: Global, text: &[u8]) -> Result<bool, CallRefusal>
    ensures said { IfOk result (Says (IsCanonical text.now) (IsNotCanonical text.now)) }
    ensures refused { IfErr result (IsTextRefusal 0 text.now) }
{
    match topo_io::is_canonical(alloc, text) {
        Ok(is_canonical) => Ok(is_canonical),
        Err(fault) => Err(CallRefusal::of_text(0, fault)),
    }
}
