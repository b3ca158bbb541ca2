//! From GeoJSON texts to a topology and to its text.
ghost use Rattle.outputs.specs.BuiltText.Maps.{borrowed_texts, named_texts, IsMapOfTexts, IsTextOfTexts, IsTopologyOfTexts, MeansTexts};
ghost use Rattle.outputs.specs.BuiltText.Sources.{AreAccepted, IsRefusal, IsFaultAt};
ghost use Rattle.outputs.specs.declared.built_text.building.BuildFault.TheVariants.{OutOfMemory as WantOfMemory};
ghost use Rattle.std.specs.Prelude.{◌≡◌, map, OnOk, IfOk, IfErr};

use faults::{Fault, FaultKind, OutOfMemory};
use grid::Grid;
use shapes::FeatureMap;
use std::alloc::Global;
use std::convert::{AsSlice, AsStr};
use thiserror::Error;
use topo::Topology;

/// Why texts were not built into a topology.
#[derive(Debug, Drop, Error)]
pub enum BuildFault {
    /// The place of the first refused text, and its first error, which is never out of memory.
    #[error("text {0} is refused")]
    Text(usize, Fault),
    /// A growth of memory was refused.
    #[error("out of memory")]
    OutOfMemory,
}

impl From<OutOfMemory> for BuildFault {
    ghost from_gives = { λ _ e. e ≡ WantOfMemory };

    fn from(_fault: OutOfMemory) -> BuildFault {
        BuildFault::OutOfMemory
    }
}

/// The canonical text of the topology of GeoJSON texts. Before each text is the name of the
/// layer that its features are put into; texts with one name share a layer. `topo_io::read` accepts
/// the text, and reads the grid and the texts' features.
///
/// # Errors
/// `Text` with the first refused text of the list and its first error; `OutOfMemory`.
pub fn build_text(
    alloc: Global,
    grid: &Grid,
    texts: &[(String, Vec<u8>)],
) -> Result<Vec<u8>, BuildFault>
    ensures accepted { OnOk result (AreAccepted grid.now (map (λ s. s.1.items) texts.now)) }
    ensures canonical { IfOk result (λ t. IsTextOfTexts grid.now (named_texts texts.now) t.items) }
    ensures read_back { IfOk result (λ t. MeansTexts grid.now (named_texts texts.now) t.items) }
    ensures refused { IfErr result (IsRefusal grid.now (map (λ s. s.1.items) texts.now)) }
{
    text_of(alloc, grid, texts)
}

/// `build_text` of borrowed names and texts, none of which is copied.
///
/// # Errors
/// As `build_text`.
pub fn build_borrowed(
    alloc: Global,
    grid: &Grid,
    texts: &[(&str, &[u8])],
) -> Result<Vec<u8>, BuildFault>
    ensures accepted { OnOk result (AreAccepted grid.now (map (λ s. s.1.now) texts.now)) }
    ensures canonical { IfOk result (λ t. IsTextOfTexts grid.now (borrowed_texts texts.now) t.items) }
    ensures read_back { IfOk result (λ t. MeansTexts grid.now (borrowed_texts texts.now) t.items) }
    ensures refused { IfErr result (IsRefusal grid.now (map (λ s. s.1.now) texts.now)) }
{
    text_of(alloc, grid, texts)
}

/// The topology of GeoJSON texts, each after its layer's name.
///
/// # Errors
/// As `build_text`.
pub fn build_topology(
    alloc: Global,
    grid: &Grid,
    texts: &[(String, Vec<u8>)],
) -> Result<Topology, BuildFault>
    ensures accepted { OnOk result (AreAccepted grid.now (map (λ s. s.1.items) texts.now)) }
    ensures topology { IfOk result (IsTopologyOfTexts grid.now (named_texts texts.now)) }
    ensures refused { IfErr result (IsRefusal grid.now (map (λ s. s.1.items) texts.now)) }
{
    topology_of(alloc, grid, texts)
}

/// The canonical text of the topology of GeoJSON texts, each after its layer's name.
fn text_of<N: AsStr, T: AsSlice<u8>>(
    alloc: Global,
    grid: &Grid,
    texts: &[(N, T)],
) -> Result<Vec<u8>, BuildFault>
    ensures accepted { OnOk result (AreAccepted grid.now (map (λ s. T.items s.1) texts.now)) }
    ensures canonical { IfOk result (λ t. IsTextOfTexts grid.now (map (λ s. (N.text s.0, T.items s.1)) texts.now) t.items) }
    ensures read_back { IfOk result (λ t. MeansTexts grid.now (map (λ s. (N.text s.0, T.items s.1)) texts.now) t.items) }
    ensures refused { IfErr result (IsRefusal grid.now (map (λ s. T.items s.1) texts.now)) }
{
    let topology = topology_of(alloc, grid, texts)?;
    let text = topo_io::text_of(alloc, &topology)?;
    Ok(text)
}

/// The topology of GeoJSON texts, each after its layer's name.
fn topology_of<N: AsStr, T: AsSlice<u8>>(
    alloc: Global,
    grid: &Grid,
    texts: &[(N, T)],
) -> Result<Topology, BuildFault>
    ensures accepted { OnOk result (AreAccepted grid.now (map (λ s. T.items s.1) texts.now)) }
    ensures topology { IfOk result (IsTopologyOfTexts grid.now (map (λ s. (N.text s.0, T.items s.1)) texts.now)) }
    ensures refused { IfErr result (IsRefusal grid.now (map (λ s. T.items s.1) texts.now)) }
{
    let map = read_layers(alloc, grid, texts)?;
    Ok(Topology::build_owned(alloc, grid, map)?)
}

/// The features of GeoJSON texts, each after its layer's name.
fn read_layers<N: AsStr, T: AsSlice<u8>>(
    alloc: Global,
    grid: &Grid,
    texts: &[(N, T)],
) -> Result<FeatureMap, BuildFault>
    ensures accepted { OnOk result (AreAccepted grid.now (map (λ s. T.items s.1) texts.now)) }
    ensures map { IfOk result (IsMapOfTexts grid.now (map (λ s. (N.text s.0, T.items s.1)) texts.now)) }
    ensures refused { IfErr result (IsRefusal grid.now (map (λ s. T.items s.1) texts.now)) }
{
    let mut map = FeatureMap::new(alloc);
    let mut place = 0;
    let mut left = texts;
    while let Some((source, after)) = left.split_first() {
        match geojson_io::read(alloc, source.1.as_slice(), grid) {
            Ok(features) => map = map.with_features(source.0.as_str(), features)?,
            Err(fault) => return Err(refuse_text(place, fault)),
        }
        place += 1;
        left = after;
    }
    Ok(map)
}

fn refuse_text(place: usize, fault: Fault) -> BuildFault
    ensures { IsFaultAt place fault result }
{
    match fault.kind {
        FaultKind::OutOfMemory => BuildFault::OutOfMemory,
        _ => BuildFault::Text(place, fault),
    }
}
