//! The id and the properties of a feature.
ghost use Rattle.shapes.specs.Ids.{HasI64, HasI64-prop};

use faults::OutOfMemory;
use shapes::{Id, Props};

/// The id and the properties of a feature (RFC 7946, section 3.2), with the count of the numbers that became texts.
/// A number that is the id has 64 bits.
#[derive(Drop)]
pub struct Attributes {
    pub id: Id,
    pub props: Props,
    /// How many numbers became texts.
    pub reals: u64,
    pub ghost bits: { HasI64 id } by { HasI64-prop id },
}

/// Why an id and properties are not read.
#[derive(Clone, Copy, PartialEq, Eq, Debug, Drop)]
pub enum Unread {
    /// They have a fault.
    Faulty,
    OutOfMemory,
}

impl From<OutOfMemory> for Unread {
    ghost use Rattle.attributes.specs.declared.info.Unread.TheVariants as unread;
    ghost use Rattle.std.specs.Prelude.{◌≡◌};

    ghost from_gives = { λ _ e. e ≡ unread.OutOfMemory };

    fn from(_error: OutOfMemory) -> Unread {
        Unread::OutOfMemory
    }
}
