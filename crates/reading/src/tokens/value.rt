//! A `serde_json` value of the next tokens, for parts that are read by way of a value.
ghost use Rattle.reading.specs.Tokens.Reads.{Gives, GivesItems, GivesMembers};
ghost use Rattle.serde_json.specs.View.{view, items_view, members_view};
ghost use Rattle.std.specs.Prelude.{◌<◌, ◌≡◌, length, string_bytes, IfOk, OnOk};

use crate::tokens::from_tokens::Stop;
use crate::tokens::number::read_number;
use json::{Reader, Token};
use serde_json::{Map, Value};
use std::alloc::Global;

fn copy_text(alloc: Global, text: &str) -> Result<String, Stop>
    ensures { IfOk result (λ s. string_bytes s ≡ text.now) }
{
    match String::from_str(alloc, text) {
        Ok(copy) => Ok(copy),
        Err(_) => Err(Stop::OutOfMemory),
    }
}

/// Makes a value of the next tokens, which may nest `depth` deep.
#[cycle(make)]
#[inline(always)]
pub fn make_value<'a>(alloc: Global, reader: &mut Reader<'a>, depth: usize) -> Result<Value, Stop>
    ensures read { IfOk result (λ v. Gives depth reader.old (view v) reader.new) }
    ensures shorter { OnOk result (length reader.new < length reader.old) }
{
    let token = reader.next().ok_or(Stop::Unread)?;
    match token {
        Token::String(text) => Ok(Value::String(copy_text(alloc, text)?)),
        Token::Bool(b) => Ok(Value::Bool(b)),
        Token::Null => Ok(Value::Null),
        Token::Number(text) => match read_number(text) {
            Some(number) => Ok(Value::Number(number)),
            None => Err(Stop::Unread),
        },
        Token::EndObject | Token::EndArray | Token::Key(_) | Token::Bad => Err(Stop::Unread),
        Token::BeginArray => {
            if depth == 0 {
                return Err(Stop::Unread);
            }
            Ok(Value::Array(make_items(alloc, reader, depth - 1)?))
        }
        Token::BeginObject => {
            if depth == 0 {
                return Err(Stop::Unread);
            }
            Ok(Value::Object(make_members(alloc, reader, depth - 1)?))
        }
    }
}

// The rest of an array.
#[cycle(make)]
#[inline(never)]
fn make_items<'a>(alloc: Global, reader: &mut Reader<'a>, depth: usize) -> Result<Vec<Value>, Stop>
    ensures read { IfOk result (λ v. GivesItems depth reader.old (items_view v.items) reader.new) }
    ensures shorter { OnOk result (length reader.new < length reader.old) }
{
    let mut found = Vec::new(alloc);
    'items: while !reader.take_end_array() {
        let item = make_value(alloc, reader, depth)?;
        match found.push(item) {
            Ok(()) => {}
            Err(_) => return Err(Stop::OutOfMemory),
        }
    }
    Ok(found)
}

/// Makes the members of an object of which the brace is behind. Of members by one name the last one
/// stays, as in `serde_json`.
#[cycle(make)]
#[inline(never)]
pub fn make_members<'a>(
    alloc: Global,
    reader: &mut Reader<'a>,
    depth: usize,
) -> Result<Map<String, Value>, Stop>
    ensures read { IfOk result
        (λ m. GivesMembers depth reader.old (members_view m.entries) reader.new) }
    ensures shorter { OnOk result (length reader.new < length reader.old) }
{
    let mut found = Map::new(alloc);
    'members: loop {
        let key = match reader.next_key() {
            Ok(key) => key,
            Err(_) => return Err(Stop::Unread),
        };
        let Some(name) = key else {
            return Ok(found);
        };
        let key = copy_text(alloc, name)?;
        let member = make_value(alloc, reader, depth)?;
        match found.insert(key, member) {
            Ok(old) => drop(old),
            Err(_) => return Err(Stop::OutOfMemory),
        }
    }
}
