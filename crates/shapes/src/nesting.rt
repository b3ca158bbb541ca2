//! What is asked of the numbers and of the depth of a JSON value.
ghost use Rattle.serde_json.specs.Data.{depth, items_depth, members_depth};
ghost use Rattle.serde_json.specs.View.{view, items_view, members_view};
ghost use Rattle.serde_json.specs.Written.{has_float, items_have_float, members_have_float};
ghost use Rattle.std.specs.Prelude.{◌≡◌, ◌≤◌, ◌↔◌, IsTrue};

use serde_json::{Map, Value};

/// How deep the containers of properties may nest, in containers, the object itself counting one (the
/// limit is this project's).
pub const GREATEST_PROPERTY_DEPTH: usize = 64;

/// Whether some number inside is neither an i64 nor a u64.
#[cycle(float)]
pub fn has_fraction(value: &Value) -> bool
    ensures { result ≡ has_float (view value.now) }
{
    match value {
        Value::Null => false,
        Value::Bool(_) => false,
        Value::Number(number) => number.is_f64(),
        Value::String(_) => false,
        Value::Array(items) => item_has_fraction(items),
        Value::Object(members) => member_has_fraction(members),
    }
}

#[cycle(float)]
fn item_has_fraction(items: &Vec<Value>) -> bool
    ensures { result ≡ items_have_float (items_view items.now.items) }
{
    for item in items {
        if has_fraction(item) {
            return true;
        }
    }
    false
}

#[cycle(float)]
fn member_has_fraction(members: &Map<String, Value>) -> bool
    ensures { result ≡ members_have_float (members_view members.now.entries) }
{
    for (_, member) in members.iter() {
        if has_fraction(member) {
            return true;
        }
    }
    false
}

/// Whether the containers nest at most `limit` deep.
#[cycle(nest)]
pub fn nests_within(value: &Value, limit: usize) -> bool
    ensures { IsTrue result ↔ (depth (view value.now) ≤ limit) }
{
    match value {
        Value::Array(items) => limit > 0 && items_nest_within(items, limit - 1),
        Value::Object(members) => limit > 0 && members_nest_within(members, limit - 1),
        _ => true,
    }
}

#[cycle(nest)]
fn items_nest_within(items: &Vec<Value>, limit: usize) -> bool
    ensures { IsTrue result ↔ (items_depth (items_view items.now.items) ≤ limit) }
{
    for item in items {
        if !nests_within(item, limit) {
            return false;
        }
    }
    true
}

#[cycle(nest)]
fn members_nest_within(members: &Map<String, Value>, limit: usize) -> bool
    ensures { IsTrue result ↔ (members_depth (members_view members.now.entries) ≤ limit) }
{
    for (_, member) in members.iter() {
        if !nests_within(member, limit) {
            return false;
        }
    }
    true
}
