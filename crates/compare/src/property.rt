//! The value of a property as a key.
ghost use Rattle.compare.specs.Keyed.{AreKeys, IsKey};
ghost use Rattle.shapes.specs.Parts.{properties_text};
ghost use Rattle.shapes.specs.PropertyValues.{property_text};
ghost use Rattle.std.specs.Prelude.{IfOk};

use faults::OutOfMemory;
use shapes::{Id, Props, Spelled};
use std::alloc::Global;
use topo::Geom;

/// The key of properties: the compact text of the value of a property, none where it is missing or null.
fn key_of(alloc: Global, props: &Props, name: &str) -> Result<Id, OutOfMemory>
    ensures { IfOk result (λ id. IsKey (property_text name.now (properties_text props.now)) id) }
{
    match props.value_text(alloc, name)? {
        Some(text) => Ok(Id::Text(Spelled::new(alloc, text.as_str())?)),
        None => Ok(Id::None),
    }
}

/// The keys of geometries.
pub(crate) fn keys_of(
    alloc: Global,
    geometries: &[Geom],
    name: &str,
) -> Result<Vec<Id>, OutOfMemory>
    ensures { IfOk result (λ v. AreKeys name.now geometries.now v.items) }
{
    let mut keys = Vec::with_capacity(alloc, geometries.len())?;
    for geometry in geometries {
        keys.push(key_of(alloc, &geometry.props, name)?)?;
    }
    Ok(keys)
}
