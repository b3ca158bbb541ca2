//! Values of a property, and which geometries have one value.
ghost use Rattle.query.specs.ByProperty.{AreClasses, class_in, known_then, values_of};
ghost use Rattle.query.specs.EachOnce.{borrowed};
ghost use Rattle.std.specs.BTreeMap.{get_by_text};
ghost use Rattle.std.specs.Prelude.{◌≡◌, IfOk, List, OnOk, option_map, string_bytes, ℕ};

use faults::OutOfMemory;
use std::alloc::{AllocError, Global};
use std::collections::BTreeMap;
use topo::Geom;

/// The class of the value at an index: the first index with this value, or the index itself where there is none.
fn class_at(
    classes: &mut BTreeMap<String, usize>,
    index: usize,
    value: Option<String>,
) -> Result<usize, AllocError>
    ensures class { IfOk result (λ c. c ≡ class_in (get_by_text classes.old) index (option_map string_bytes value)) }
    ensures known { OnOk result ((q : List ℕ) → get_by_text classes.new q ≡ known_then (get_by_text classes.old) index (option_map string_bytes value) q) }
{
    let Some(text) = value else {
        return Ok(index);
    };
    if let Some(first) = classes.get(&text) {
        return Ok(*first);
    }
    classes.insert(text, index)?;
    Ok(index)
}

/// For each of the geometries a number, which two have in common where they have one value of the property.
pub(crate) fn classes_of(
    alloc: Global,
    geometries: &[&Geom],
    property: &str,
) -> Result<Vec<usize>, OutOfMemory>
    ensures { IfOk result (λ v. AreClasses (values_of property.now (borrowed geometries.now)) v.items) }
{
    let mut known = BTreeMap::new(alloc);
    let mut classes = Vec::new(alloc);
    for index in 0..geometries.len() {
        let value = geometries[index].props.value_text(alloc, property)?;
        classes.push(class_at(&mut known, index, value)?)?;
    }
    Ok(classes)
}
