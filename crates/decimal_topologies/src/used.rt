//! Which arcs the geometries of a topology use.
ghost use Rattle.decimal_topologies.specs.Layers.{seen_named};
ghost use Rattle.decimal_topologies.specs.Stitching.{ref_of as named};
ghost use Rattle.decimal_topologies.specs.Used.{is_arc, layers_use_arc, list_uses_arc, marked, member_uses_arc, members_use_arc, names_arc, some_names_arc, some_use_arc, used_arcs as used_by, uses_arc};
ghost use Rattle.json.specs.Value.{value_view, items_view, members_view};
ghost use Rattle.std.specs.Prelude.{◌≡◌, length, IfOk};

use crate::numbers::ref_of;
use crate::objects::members_of;
use decimal_faults::lists::items_of;
use faults::OutOfMemory;
use json::Value;
use std::alloc::Global;
use std::collections::BTreeMap;

// Marks the arc that a value names.
fn mark_number(value: &Value<'_>, used: &mut [bool])
    ensures { used.new ≡ marked (λ i. is_arc i (named (length used.old) (value_view value.now))) 0 used.old }
{
    match ref_of(used.len(), value) {
        Ok(arc) => used[arc.arc] = true,
        Err(_) => {}
    }
}

// Marks the arcs that a value names, or the lists in it.
#[cycle(numbers)]
fn mark_numbers(value: &Value<'_>, used: &mut [bool])
    ensures { used.new ≡ marked (λ i. names_arc (length used.old) i (value_view value.now)) 0 used.old }
{
    match items_of(value) {
        Some(items) => mark_each_number(items, used),
        None => mark_number(value, used),
    }
}

#[cycle(numbers)]
fn mark_each_number(values: &[Value<'_>], used: &mut [bool])
    ensures { used.new ≡ marked (λ i. some_names_arc (length used.old) i (items_view values.now)) 0 used.old }
{
    for i in 0..values.len() {
        mark_numbers(&values[i], used);
    }
}

// Marks the arcs that a geometry object uses.
#[cycle(geometries)]
fn mark_geometry(value: &Value<'_>, used: &mut [bool])
    ensures { used.new ≡ marked (λ i. uses_arc (length used.old) i (value_view value.now)) 0 used.old }
{
    match members_of(value) {
        Some(members) => mark_members(members, used),
        None => {}
    }
}

#[cycle(geometries)]
fn mark_members(members: &[(&str, Value<'_>)], used: &mut [bool])
    ensures { used.new ≡ marked (λ i. members_use_arc (length used.old) i (members_view members.now)) 0 used.old }
{
    for i in 0..members.len() {
        let member = &members[i];
        mark_member(member.0, &member.1, used);
    }
}

#[cycle(geometries)]
fn mark_member(name: &str, value: &Value<'_>, used: &mut [bool])
    ensures { used.new ≡ marked (λ i. member_uses_arc (length used.old) i name.now (value_view value.now)) 0 used.old }
{
    if name == "arcs" {
        mark_numbers(value, used);
    } else if name == "geometries" {
        mark_list(value, used);
    }
}

#[cycle(geometries)]
fn mark_list(value: &Value<'_>, used: &mut [bool])
    ensures { used.new ≡ marked (λ i. list_uses_arc (length used.old) i (value_view value.now)) 0 used.old }
{
    match items_of(value) {
        Some(items) => mark_each(items, used),
        None => {}
    }
}

#[cycle(geometries)]
fn mark_each(values: &[Value<'_>], used: &mut [bool])
    ensures { used.new ≡ marked (λ i. some_use_arc (length used.old) i (items_view values.now)) 0 used.old }
{
    for i in 0..values.len() {
        mark_geometry(&values[i], used);
    }
}

// Marks the arcs that layers use.
fn mark_layers(layers: &BTreeMap<&str, &Value<'_>>, used: &mut [bool])
    ensures { used.new ≡ marked (λ i. layers_use_arc (length used.old) i (seen_named layers.now.entries)) 0 used.old }
{
    for (_name, value) in layers.iter() {
        mark_geometry(*value, used);
    }
}

/// Which of so many arcs the layers use.
///
/// # Errors
/// Where memory is refused.
pub fn used_arcs(
    alloc: Global,
    count: usize,
    layers: &BTreeMap<&str, &Value<'_>>,
) -> Result<Vec<bool>, OutOfMemory>
    ensures used { IfOk result (λ used. used.items ≡ used_by count (seen_named layers.now.entries)) }
    ensures count { IfOk result (λ used. length used.items ≡ count) }
{
    let mut used = vec![in alloc; false; count]?;
    mark_layers(layers, used.as_mut_slice());
    Ok(used)
}
