//! Objects, whose members may come in any order, and more than once by one name.
ghost use Rattle.reading.specs.Tokens.Reads.{Gives, GivesMembers};
ghost use Rattle.serde_json.specs.Data.{Data, Members, object, no_members, put};
ghost use Rattle.std.specs.Prelude.{◌<◌, length, OnOk};

use crate::tokens::from_tokens::Stop;
use crate::tokens::token::take_begin_object;
use json::Reader;
use std::alloc::Global;

/// What was read of an object so far.
pub trait TakeMember {
    /// What the members are read by, which stays the same for all of them.
    type On;

    // What is known of the members that were read.
    ghost knows: { Self.On → Self → Members → Type 0 };

    /// Reads the value of a member, or skips it where its name means nothing. Of members by one name
    /// the last one counts, as in `serde_json`.
    fn take<'a>(
        &mut self,
        alloc: Global,
        on: &Self::On,
        name: &'a str,
        reader: &mut Reader<'a>,
        depth: usize,
    ) -> Result<(), Stop>
        ensures read { OnOk result ((d : Data) × Gives depth reader.old d reader.new × ((ms : Members) → knows on.now self.old ms → knows on.now self.new (put name.now d ms))) }
        ensures shorter { OnOk result (length reader.new < length reader.old) };
}

/// Reads the members of an object of which the brace is behind, up to its end.
pub fn read_members<'a, N: TakeMember>(
    alloc: Global,
    on: &N::On,
    named: &mut N,
    reader: &mut Reader<'a>,
    depth: usize,
) -> Result<(), Stop>
    requires { N.knows on.now named.old no_members }
    ensures read { OnOk result ((ms : Members) × GivesMembers depth reader.old ms reader.new × N.knows on.now named.new ms) }
    ensures shorter { OnOk result (length reader.new < length reader.old) }
{
    'members: loop {
        let key = match reader.next_key() {
            Ok(key) => key,
            Err(_) => return Err(Stop::Unread),
        };
        let Some(name) = key else {
            return Ok(());
        };
        named.take(alloc, on, name, reader, depth)?;
    }
}

/// Reads an object.
pub fn read_object<'a, N: TakeMember>(
    alloc: Global,
    on: &N::On,
    named: &mut N,
    reader: &mut Reader<'a>,
    depth: usize,
) -> Result<(), Stop>
    requires { N.knows on.now named.old no_members }
    ensures read { OnOk result ((ms : Members) × Gives depth reader.old (object ms) reader.new × N.knows on.now named.new ms) }
    ensures shorter { OnOk result (length reader.new < length reader.old) }
{
    take_begin_object(reader, depth)?;
    read_members(alloc, on, named, reader, depth - 1)
}
