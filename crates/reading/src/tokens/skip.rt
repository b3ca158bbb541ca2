//! Skipping a value.
//!
//! `Reader::skip_value` passes over numbers too large for a float, of which `serde_json` refuses the
//! whole text. So each number is looked at here.
ghost use Rattle.reading.specs.Tokens.Reads.{Gives, GivesItems, GivesMembers};
ghost use Rattle.serde_json.specs.Data.{Data, Items, Members};
ghost use Rattle.std.specs.Prelude.{◌<◌, length, OnOk};

use crate::tokens::from_tokens::Stop;
use crate::tokens::number::is_number;
use json::{Reader, Token};

/// Skips the next value, and makes sure that `serde_json` reads it as some value.
#[cycle(skip)]
#[inline(always)]
pub fn skip_value<'a>(reader: &mut Reader<'a>, depth: usize) -> Result<(), Stop>
    ensures read { OnOk result ((d : Data) × Gives depth reader.old d reader.new) }
    ensures shorter { OnOk result (length reader.new < length reader.old) }
{
    let token = reader.next().ok_or(Stop::Unread)?;
    match token {
        Token::String(_) => Ok(()),
        Token::Bool(_) => Ok(()),
        Token::Null => Ok(()),
        Token::Number(text) => {
            if is_number(text) {
                Ok(())
            } else {
                Err(Stop::Unread)
            }
        }
        Token::EndObject | Token::EndArray | Token::Key(_) | Token::Bad => Err(Stop::Unread),
        Token::BeginArray => {
            if depth == 0 {
                return Err(Stop::Unread);
            }
            skip_items(reader, depth - 1)
        }
        Token::BeginObject => {
            if depth == 0 {
                return Err(Stop::Unread);
            }
            skip_members(reader, depth - 1)
        }
    }
}

// The rest of an array.
#[cycle(skip)]
#[inline(never)]
fn skip_items<'a>(reader: &mut Reader<'a>, depth: usize) -> Result<(), Stop>
    ensures read { OnOk result ((ds : Items) × GivesItems depth reader.old ds reader.new) }
    ensures shorter { OnOk result (length reader.new < length reader.old) }
{
    'items: while !reader.take_end_array() {
        skip_value(reader, depth)?;
    }
    Ok(())
}

// The rest of an object.
#[cycle(skip)]
#[inline(never)]
fn skip_members<'a>(reader: &mut Reader<'a>, depth: usize) -> Result<(), Stop>
    ensures read { OnOk result ((ms : Members) × GivesMembers depth reader.old ms reader.new) }
    ensures shorter { OnOk result (length reader.new < length reader.old) }
{
    'members: loop {
        let key = match reader.next_key() {
            Ok(key) => key,
            Err(_) => return Err(Stop::Unread),
        };
        let Some(_) = key else {
            return Ok(());
        };
        skip_value(reader, depth)?;
    }
}
