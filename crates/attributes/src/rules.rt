//! What becomes of ids and properties.
ghost use Rattle.attributes.specs.Refusals.{refuses};
ghost use Rattle.std.specs.Prelude.{◌≡◌};

/// A property whose numbers are multiplied by a power of ten, and rounded: 1.5 becomes 1500 where `places` is 3.
#[derive(Clone, Copy, Debug)]
pub struct Scale<'a> {
    pub property: &'a str,
    pub places: u32,
}

/// What becomes of the numbers of ids and properties.
#[derive(Clone, Copy, PartialEq, Eq, Debug)]
pub enum Reals {
    /// A number that is worth a whole number of 64 bits becomes that number, however it is written: `5.0`, `1e3`, `-0`.
    /// Others become texts.
    Whole,
    /// A number that is written as a whole number of 64 bits stays that number. Others become texts, `5.0` and `-0` too.
    Text,
    /// As `Whole`, but a number that would become a text is a fault.
    Refuse,
}

impl Reals {
    /// Whether a number that would become a text is a fault.
    pub(crate) fn refuses(self) -> bool
        ensures { result ≡ refuses self }
    {
        match self {
            Reals::Whole | Reals::Text => false,
            Reals::Refuse => true,
        }
    }
}

/// What becomes of ids and properties.
#[derive(Clone, Copy, Debug)]
pub struct AttributeRules<'r> {
    /// The property that is the id, in place of the member `id`.
    pub id: Option<&'r str>,
    pub scales: &'r [Scale<'r>],
    /// What becomes of their numbers.
    pub reals: Reals,
}
