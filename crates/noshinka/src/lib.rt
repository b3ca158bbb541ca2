//! The library for C and for all that calls C. Each call borrows texts and a room for its answer. It keeps nothing, and
//! gives back all memory that it asks for. `c/noshinka.h` says what a caller owes.
#![tactic(auto)]

ghost use Rattle.outputs.specs.BuiltText.Maps.{IsTextOfTexts};
ghost use Rattle.merging.specs.Merge.{borrowed_texts, IsMergeOf};
ghost use Rattle.noshinka.specs.Answers.{IsCanonical, IsFeatureText, IsInfoAnswer, IsNotCanonical, IsRemoval};
ghost use Rattle.noshinka.specs.Asking.{IsMeshRefusal, IsMeshText, IsNeighborsAnswer, IsNeighborsRefusal};
ghost use Rattle.noshinka.specs.Differing.{IsDiffAsked, IsDiffRefusal};
ghost use Rattle.c_calls.specs.Ends.{EndsWith, EndsWithYesOrNo};
ghost use Rattle.c_calls.specs.Borrowed.{grid_of, borrowed_sources};
ghost use Rattle.noshinka.specs.Listing.{IsFaultsAnswer, IsListRefusal};
ghost use Rattle.noshinka.specs.Editing.{IsEditAnswer, IsEditRefusal};
ghost use Rattle.noshinka.specs.FaultNames.{IsFaultName, IsNameless};
ghost use Rattle.noshinka.specs.Rounding.{IsRoundAnswer, IsRoundRefusal};
ghost use Rattle.noshinka.specs.Quality.{IsQualityAnswer, IsQualityRefusal};
ghost use Rattle.noshinka.specs.WayBack.{IsBackAnswer, IsBackRefusal};
ghost use Rattle.c_calls.specs.Why.{IsBuildRefusal, IsMergeRefusal, IsQuestionRefusal, IsRemoveRefusal, IsTextRefusal};
ghost use Rattle.std.specs.List.{range_with_len};
ghost use Rattle.std.specs.Prelude.{◌≡◌, ◌≤◌, None, Some, length};

mod back_options;
mod differing;
mod editing;
mod fault_names;
mod fault_texts;
mod keys;
mod making;
mod map_quality;
mod questions;
mod round_options;
mod rounding;
mod rules;
mod topologies;
mod way_back;

pub use back_options::WayBackOptions;
pub use c_calls::borrowed::{GridNumbers, SourceText};
pub use c_calls::outcome::CallOutcome;
use c_calls::room::{answer, verdict};
pub use differing::DiffOptions;
use differing::diff;
pub use editing::Change;
use editing::edit;
use fault_names::fault_name;
use fault_texts::faults;
use making::{build, merge, remove};
pub use map_quality::QualityOptions;
use map_quality::quality;
pub use questions::{MeshOptions, NeighborsOptions};
use questions::{feature, info, mesh, neighbors};
pub use round_options::{PropertyScale, RoundOptions};
use rounding::round;
use std::alloc::Global;
use topologies::check;
use way_back::back;

/// The version of the calls. A caller that was written for another one calls nothing else.
#[unsafe(no_mangle)]
pub extern "C" fn noshinka_version() -> u32
    ensures { result ≡ 1 }
{
    1
}

/// Puts the canonical text of the topology of GeoJSON texts into the room. The features of each text are put into the
/// layer of its name.
#[unsafe(no_mangle)]
pub extern "C" fn noshinka_build(
    alloc: Global,
    grid: &GridNumbers,
    sources: &[SourceText<'_>],
    room: &mut [u8],
) -> CallOutcome
    ensures { EndsWith (IsTextOfTexts (grid_of grid.now) (borrowed_sources sources.now)) (IsBuildRefusal (grid_of grid.now) (borrowed_sources sources.now)) result room.old room.new }
{
    answer(alloc, build(alloc, grid, sources), room)
}

/// Puts the canonical text of the union of the features of topologies' texts into the room.
#[unsafe(no_mangle)]
pub extern "C" fn noshinka_merge(alloc: Global, texts: &[&[u8]], room: &mut [u8]) -> CallOutcome
    ensures { EndsWith (IsMergeOf (borrowed_texts texts.now) (range_with_len 0 (length texts.now))) (IsMergeRefusal (borrowed_texts texts.now)) result room.old room.new }
{
    answer(alloc, merge(alloc, texts), room)
}

/// Puts the canonical text of a topology's text without the features of another one into the room. The texts have the
/// places 0 and 1.
#[unsafe(no_mangle)]
pub extern "C" fn noshinka_remove(
    alloc: Global,
    text: &[u8],
    removed: &[u8],
    room: &mut [u8],
) -> CallOutcome
    ensures { EndsWith (IsRemoval text.now removed.now) (IsRemoveRefusal text.now removed.now) result room.old room.new }
{
    answer(alloc, remove(alloc, text, removed), room)
}

/// Says whether a topology's text is canonical: status 0, or 1 if it isn't. The room is for the path of a fault alone.
#[unsafe(no_mangle)]
pub extern "C" fn noshinka_check(alloc: Global, text: &[u8], room: &mut [u8]) -> CallOutcome
    ensures { EndsWithYesOrNo (IsCanonical text.now) (IsNotCanonical text.now) (IsTextRefusal 0 text.now) result room.old room.new }
{
    verdict(alloc, check(alloc, text), room)
}

/// Puts all faults of a text into the room, as a JSON array of objects: those of a topology's text if `format` is 0, of a
/// GeoJSON text on the grid if it is 1.
#[unsafe(no_mangle)]
pub extern "C" fn noshinka_faults(
    alloc: Global,
    text: &[u8],
    format: u32,
    grid: &GridNumbers,
    room: &mut [u8],
) -> CallOutcome
    ensures { EndsWith (IsFaultsAnswer format (grid_of grid.now) text.now) (IsListRefusal format (grid_of grid.now)) result room.old room.new }
{
    answer(alloc, faults(alloc, text, format, grid), room)
}

/// Puts the features of a layer of a topology's text into the room, as a GeoJSON FeatureCollection.
#[unsafe(no_mangle)]
pub extern "C" fn noshinka_feature(
    alloc: Global,
    text: &[u8],
    layer: &[u8],
    room: &mut [u8],
) -> CallOutcome
    ensures { EndsWith (IsFeatureText text.now layer.now) (IsQuestionRefusal ⊥ text.now (Some layer.now)) result room.old room.new }
{
    answer(alloc, feature(alloc, text, layer), room)
}

/// Puts the borders of a topology's text that the options ask for into the room, as a GeoJSON MultiLineString.
#[unsafe(no_mangle)]
pub extern "C" fn noshinka_mesh(
    alloc: Global,
    options: &MeshOptions<'_>,
    text: &[u8],
    room: &mut [u8],
) -> CallOutcome
    ensures { EndsWith (IsMeshText options.now text.now) (IsMeshRefusal options.now text.now) result room.old room.new }
{
    answer(alloc, mesh(alloc, options, text), room)
}

/// Puts the neighbours of each feature of a layer of a topology's text into the room, as JSON: by their places or by ids.
#[unsafe(no_mangle)]
pub extern "C" fn noshinka_neighbors(
    alloc: Global,
    options: &NeighborsOptions<'_>,
    text: &[u8],
    layer: &[u8],
    room: &mut [u8],
) -> CallOutcome
    ensures { EndsWith (IsNeighborsAnswer options.now text.now layer.now) (IsNeighborsRefusal options.now text.now layer.now) result room.old room.new }
{
    answer(alloc, neighbors(alloc, options, text, layer), room)
}

/// Puts what is in a topology's text into the room, as `topotool info` prints it: as lines if `json` is 0, as JSON if it
/// is 1.
#[unsafe(no_mangle)]
pub extern "C" fn noshinka_info(
    alloc: Global,
    text: &[u8],
    json: u32,
    room: &mut [u8],
) -> CallOutcome
    ensures { EndsWith (IsInfoAnswer text.now json) (IsQuestionRefusal (2 ≤ json) text.now None) result room.old room.new }
{
    answer(alloc, info(alloc, text, json), room)
}

/// Puts what texts in decimal numbers are rounded to into the room: the canonical text of their topology, or their features
/// as a FeatureCollection, behind a report where the options ask for it.
#[unsafe(no_mangle)]
pub extern "C" fn noshinka_round(
    alloc: Global,
    options: &RoundOptions<'_>,
    sources: &[SourceText<'_>],
    room: &mut [u8],
) -> CallOutcome
    ensures { EndsWith (IsRoundAnswer options.now (borrowed_sources sources.now)) (IsRoundRefusal options.now (borrowed_sources sources.now)) result room.old room.new }
{
    answer(alloc, round(alloc, options, sources), room)
}

/// Puts the canonical text of a topology's text after changes into the room, one change after the other. The text has the
/// place 0, those of the changes follow.
#[unsafe(no_mangle)]
pub extern "C" fn noshinka_edit(
    alloc: Global,
    text: &[u8],
    changes: &[Change<'_>],
    room: &mut [u8],
) -> CallOutcome
    ensures { EndsWith (IsEditAnswer text.now changes.now) (IsEditRefusal text.now changes.now) result room.old room.new }
{
    answer(alloc, edit(alloc, text, changes), room)
}

/// Puts a topology's text in the unit of the map into the room, as `togrid --back` prints it. The text has the place 0, that
/// whose transform it is written on the place 1.
#[unsafe(no_mangle)]
pub extern "C" fn noshinka_back(
    alloc: Global,
    options: &WayBackOptions<'_>,
    text: &[u8],
    room: &mut [u8],
) -> CallOutcome
    ensures { EndsWith (IsBackAnswer options.now text.now) (IsBackRefusal options.now text.now) result room.old room.new }
{
    answer(alloc, back(alloc, options, text), room)
}

/// Puts whether a topology's text is canonical into the room, and what the tests find that the options ask for, as a JSON
/// object.
#[unsafe(no_mangle)]
pub extern "C" fn noshinka_quality(
    alloc: Global,
    options: &QualityOptions,
    text: &[u8],
    room: &mut [u8],
) -> CallOutcome
    ensures { EndsWith (IsQualityAnswer options.now text.now) (IsQualityRefusal options.now text.now) result room.old room.new }
{
    answer(alloc, quality(alloc, options, text), room)
}

/// Puts the name of the fault with a number into the room.
#[unsafe(no_mangle)]
pub extern "C" fn noshinka_fault_name(alloc: Global, fault: u32, room: &mut [u8]) -> CallOutcome
    ensures { EndsWith (IsFaultName fault) (IsNameless fault) result room.old room.new }
{
    answer(alloc, fault_name(alloc, fault), room)
}

/// Puts what differs between two topologies' texts, which have the places 0 and 1, into the room, as `topotool diff` prints
/// it.
#[unsafe(no_mangle)]
pub extern "C" fn noshinka_diff(
    alloc: Global,
    options: &DiffOptions<'_>,
    text: &[u8],
    other: &[u8],
    room: &mut [u8],
) -> CallOutcome
    ensures { EndsWith (IsDiffAsked options.now text.now other.now) (IsDiffRefusal options.now text.now other.now) result room.old room.new }
{
    answer(alloc, diff(alloc, text, other, options), room)
}
