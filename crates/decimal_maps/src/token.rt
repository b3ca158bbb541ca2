//! Single tokens that have to come next.
ghost use Rattle.json.specs.Token as spec;
ghost use Rattle.std.specs.Prelude.{◌≡◌, ◌∷◌, ◌<◌, IfOk, OnOk};

use crate::from_tokens::Stop;
use json::{Reader, Token};

/// Takes a number, and gives its text.
#[inline(always)]
pub fn take_number<'a>(reader: &mut Reader<'a>) -> Result<&'a str, Stop>
    ensures { IfOk result (λ s. reader.old ≡ spec.number s.now ∷ reader.new) }
{
    match reader.next() {
        Some(Token::Number(text)) => Ok(text),
        _ => Err(Stop::Unread),
    }
}

/// Takes the bracket that opens an array, where values may nest `depth` deep.
#[inline(always)]
pub fn take_begin_array<'a>(reader: &mut Reader<'a>, depth: usize) -> Result<(), Stop>
    ensures opens { OnOk result (reader.old ≡ spec.begin_array ∷ reader.new) }
    ensures nests { OnOk result (0 < depth) }
{
    if depth == 0 {
        return Err(Stop::Unread);
    }
    match reader.next() {
        Some(Token::BeginArray) => Ok(()),
        _ => Err(Stop::Unread),
    }
}

/// Takes the brace that opens an object, where values may nest `depth` deep.
#[inline(always)]
pub fn take_begin_object<'a>(reader: &mut Reader<'a>, depth: usize) -> Result<(), Stop>
    ensures opens { OnOk result (reader.old ≡ spec.begin_object ∷ reader.new) }
    ensures nests { OnOk result (0 < depth) }
{
    if depth == 0 {
        return Err(Stop::Unread);
    }
    match reader.next() {
        Some(Token::BeginObject) => Ok(()),
        _ => Err(Stop::Unread),
    }
}
