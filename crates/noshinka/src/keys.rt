//! Ids as names of the members of an object.
ghost use Rattle.noshinka.specs.Keys.{has_key_twice, key_of};
ghost use Rattle.std.specs.Prelude.{◌≡◌, ◌&&◌, IfOk, string_bytes};

use faults::OutOfMemory;
use itoa::Buffer;
use shapes::Id;
use std::alloc::Global;
use std::collections::BTreeMap;
use topo::Geom;

/// The name of the member that an id gives.
fn key_of(alloc: Global, id: &Id) -> Result<String, OutOfMemory>
    ensures { IfOk result (λ k. string_bytes k ≡ key_of id.now) }
{
    match id {
        Id::None => Ok(String::from_str(alloc, "null")?),
        Id::Number(number) => Ok(String::from_str(alloc, Buffer::new().format(*number))?),
        Id::Text(text) => Ok(String::from_str(alloc, text.text())?),
    }
}

/// Whether two geometries have one id, as names of members.
fn has_key_twice(alloc: Global, geometries: &[Geom]) -> Result<bool, OutOfMemory>
    ensures { IfOk result (λ b. b ≡ has_key_twice geometries.now) }
{
    let mut seen = BTreeMap::new(alloc);
    for geometry in geometries {
        let key = key_of(alloc, &geometry.id)?;
        let is_seen = seen.contains_key(key.as_str());
        if is_seen {
            return Ok(true);
        }
        seen.insert(key, 0u64)?;
    }
    Ok(false)
}

/// Whether a key is there twice, where names of members are asked for.
pub(crate) fn is_key_twice(
    alloc: Global,
    geometries: &[Geom],
    is_keyed: bool,
) -> Result<bool, OutOfMemory>
    ensures { IfOk result (λ b. b ≡ (is_keyed && has_key_twice geometries.now)) }
{
    if is_keyed {
        has_key_twice(alloc, geometries)
    } else {
        Ok(false)
    }
}
