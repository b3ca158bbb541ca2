//! What differs between the properties of two features, by their names.
use faults::OutOfMemory;
use serde_json::{Map, Value};
use shapes::{Props, Spelled};
use std::alloc::Global;

/// A property that differs.
#[derive(Drop, Debug)]
pub struct MemberChange {
    /// The property's name.
    pub name: Spelled,
    /// The compact text of its old value; None where it was missing.
    pub old: Option<String>,
    /// The compact text of its new value; None where it is missing.
    pub new: Option<String>,
}

/// The properties that differ, with their values, in the byte order of their names.
pub(crate) fn member_changes(
    alloc: Global,
    old: &Props,
    new: &Props,
) -> Result<Vec<MemberChange>, OutOfMemory> {
    let mut changes = Vec::new(alloc);
    if old.text() == new.text() {
        return Ok(changes);
    }
    let old = value_of(alloc, old)?;
    let new = value_of(alloc, new)?;
    let Value::Object(olds) = &old else {
        return Ok(changes);
    };
    let Value::Object(news) = &new else {
        return Ok(changes);
    };
    push_changed(alloc, &mut changes, olds, news)?;
    push_new(alloc, &mut changes, olds, news)?;
    changes.sort_unstable_by(|one, other| one.name.cmp(&other.name));
    Ok(changes)
}

/// The JSON value of properties.
fn value_of(alloc: Global, props: &Props) -> Result<Value, OutOfMemory> {
    match Value::from_str(alloc, props.text()) {
        Ok(value) => Ok(value),
        Err(_) => Err(OutOfMemory),
    }
}

/// Puts in the members of the old object that are missing or another in the new one.
fn push_changed(
    alloc: Global,
    changes: &mut Vec<MemberChange>,
    olds: &Map<String, Value>,
    news: &Map<String, Value>,
) -> Result<(), OutOfMemory> {
    for (name, old) in olds.iter() {
        let old = Some(old.to_string(alloc)?);
        let new = text_at(alloc, news, name.as_str())?;
        if old != new {
            let name = Spelled::new(alloc, name.as_str())?;
            changes.push(MemberChange { name, old, new })?;
        }
    }
    Ok(())
}

/// Puts in the members of the new object that the old one has not.
fn push_new(
    alloc: Global,
    changes: &mut Vec<MemberChange>,
    olds: &Map<String, Value>,
    news: &Map<String, Value>,
) -> Result<(), OutOfMemory> {
    for (name, new) in news.iter() {
        if olds.get(name.as_str()).is_none() {
            let new = Some(new.to_string(alloc)?);
            let name = Spelled::new(alloc, name.as_str())?;
            changes.push(MemberChange {
                name,
                old: None,
                new,
            })?;
        }
    }
    Ok(())
}

/// The compact text of a member; None where there is none of that name.
fn text_at(
    alloc: Global,
    members: &Map<String, Value>,
    name: &str,
) -> Result<Option<String>, OutOfMemory> {
    match members.get(name) {
        Some(value) => Ok(Some(value.to_string(alloc)?)),
        None => Ok(None),
    }
}
