//! Properties with their numbers as they were.
ghost use Rattle.attributes.specs.Back.{properties_back};
ghost use Rattle.attributes.specs.Columns.{AreColumns};
ghost use Rattle.decimals.specs.Topology.LayersBack.{is_named, props_of};
ghost use Rattle.shapes.specs.Parts.{properties_text};
ghost use Rattle.std.specs.BTreeMap.{get_by_text};
ghost use Rattle.std.specs.Prelude.{◌≡◌, IfOk, List, ℕ, is_some, map, string_bytes};

use attributes::{Columns, Scale, properties_back};
use faults::OutOfMemory;
use shapes::Props;
use std::alloc::Global;
use std::collections::BTreeMap;
use topo::geom::Geom;

/// A column of each name.
pub(crate) fn columns_named(
    alloc: Global,
    names: &[&str],
) -> Result<BTreeMap<String, u64>, OutOfMemory>
    ensures { IfOk result (λ m. (q : List ℕ) → is_some (get_by_text m q) ≡ is_named names.now q) }
{
    let mut named = BTreeMap::new(alloc);
    for name in names {
        named.insert(String::from_str(alloc, name)?, 0)?;
    }
    Ok(named)
}

/// The columns of the properties of geometries.
pub(crate) fn columns_of(alloc: Global, geometries: &[Geom]) -> Result<Columns, OutOfMemory>
    ensures { IfOk result (λ c. AreColumns c (map props_of geometries.now)) }
{
    let mut columns = Columns::new(alloc);
    for geometry in geometries {
        columns.add(alloc, &geometry.props)?;
    }
    Ok(columns)
}

/// The text of properties with their numbers as they were, where some columns are numbers.
pub(crate) fn text_of_properties(
    alloc: Global,
    props: &Props,
    numbers: &BTreeMap<String, u64>,
    scales: &[Scale<'_>],
) -> Result<String, OutOfMemory>
    ensures { IfOk result (λ t. string_bytes t ≡ properties_back (λ name. is_some (get_by_text numbers.now name)) scales.now (properties_text props.now)) }
{
    if numbers.is_empty() && scales.is_empty() {
        return Ok(String::from_str(alloc, props.text())?);
    }
    properties_back(alloc, props, numbers, scales)
}
