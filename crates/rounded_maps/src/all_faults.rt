//! All faults of a text.
ghost use Rattle.reading.specs.FaultLists.Found.{pairs_of};
ghost use Rattle.rounded_maps.specs.Rounded.{text_faults as faults_of};
ghost use Rattle.std.specs.Prelude.{◌≡◌, [], IfOk, IsTrue};

use crate::map::RoundedMap;
use crate::rounding::RoundingRules;
use decimal_maps::read_map;
use faults::{Fault, OutOfMemory};
use std::alloc::Global;

/// Whether it is seen along the tokens of a text that it has no faults. Otherwise it may have some, or memory was refused.
fn is_seen_sound(alloc: Global, bytes: &[u8], rules: &RoundingRules<'_>) -> bool
    ensures { IsTrue result → faults_of rules.now bytes.now ≡ [] }
{
    let _step = rules.map.grid.step.size();
    let Ok(text) = simdutf8::compat::from_utf8(bytes) else {
        return false;
    };
    let Ok(features) = read_map(alloc, &rules.map, text) else {
        return false;
    };
    let mut map = RoundedMap::new(alloc);
    match map.add_all(alloc, features, &rules.fixing, rules.numbers) {
        Ok(()) => true,
        Err(_) => false,
    }
}

/// All faults of a GeoJSON text in decimal numbers that the rules don't fix (RFC 7946, section 3), by path and then by
/// number. A text that has none is read once, along its tokens.
///
/// # Errors
/// Where memory is refused.
pub fn text_faults(
    alloc: Global,
    text: &[u8],
    rules: &RoundingRules<'_>,
) -> Result<Vec<Fault>, OutOfMemory>
    ensures { IfOk result (λ fs. pairs_of fs.items ≡ faults_of rules.now text.now) }
{
    if is_seen_sound(alloc, text, rules) {
        return Ok(Vec::new(alloc));
    }
    decimal_faults::faults(alloc, &rules.map, &rules.fixing, text)
}
