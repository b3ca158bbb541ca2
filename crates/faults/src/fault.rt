//! The kinds of faults, and the path to the faulty place of a text.
ghost use Rattle.faults.specs.declared.fault.FaultKind.TheVariants.{OutOfMemory as WantOfMemory};
ghost use Rattle.std.specs.Prelude.{◌≡◌, [], vec_len};

use std::alloc::{AllocError, AllocFailed, Global};
use thiserror::Error;

/// A growth of memory was refused.
#[derive(Clone, Copy, PartialEq, Eq, Debug, Error)]
#[error("out of memory")]
pub struct OutOfMemory;

impl From<AllocError> for OutOfMemory {
    ghost from_gives = { λ _ e. e ≡ record {} };

    fn from(_e: AllocError) -> OutOfMemory {
        OutOfMemory
    }
}

impl<T: Drop> From<AllocFailed<T>> for OutOfMemory {
    ghost from_gives = { λ _ e. e ≡ record {} };

    fn from(_e: AllocFailed<T>) -> OutOfMemory {
        OutOfMemory
    }
}

/// What is wrong. The first sixteen are faults of a text.
#[derive(Clone, Copy, PartialEq, Eq, Debug, Error)]
pub enum FaultKind {
    /// No JSON value is read from the bytes.
    #[error("not a JSON text")]
    NotJson,
    /// A member that has to be there is missing.
    #[error("a member is missing")]
    Missing,
    /// The value is of another kind than the format wants.
    #[error("a value of the wrong kind")]
    WrongKind,
    /// The `type` is none of those that may be there.
    #[error("an unknown type")]
    UnknownType,
    /// A number that is not a whole number of 64 bits.
    #[error("a number that is not whole")]
    NotWhole,
    /// A number outside its limits.
    #[error("a number out of range")]
    OutOfRange,
    /// A coordinate that no position of the grid has.
    #[error("a coordinate off the grid")]
    OffGrid,
    /// A line or ring of too few positions.
    #[error("too few positions")]
    TooShort,
    /// A ring whose first and last positions differ.
    #[error("a ring that is not closed")]
    NotClosed,
    /// A line or ring that uses a segment twice.
    #[error("a segment used twice")]
    Revisit,
    /// The index of an arc that is not there.
    #[error("no such arc")]
    NoArc,
    /// An arc that does not begin where the one before it ends.
    #[error("arcs that do not meet")]
    Broken,
    /// A number in properties that is not whole.
    #[error("a number in properties that is not whole")]
    PropertyNumber,
    /// Properties that nest too deep.
    #[error("properties that nest too deep")]
    PropertyDepth,
    /// A topology without a transform.
    #[error("no transform")]
    NoTransform,
    /// A position or pair of other than two elements.
    #[error("not two elements")]
    NotTwo,
    /// Topologies on different transforms.
    #[error("another grid")]
    OtherGrid,
    /// A plan that names no place of the list.
    #[error("a plan with a leaf past the list")]
    BadPlan,
    /// A layer that is not in the map.
    #[error("no such layer")]
    NoLayer,
    /// A growth of memory was refused.
    #[error("out of memory")]
    OutOfMemory,
    /// The writer failed.
    #[error("the writer failed")]
    Write,
}

impl FaultKind {
    ghost use Rattle.faults.specs.Fault.{number_of, name_of};

    /// The kind's number, from 1 to 21.
    pub fn number(self) -> u8
        ensures { result ≡ number_of self }
    {
        match self {
            FaultKind::NotJson => 1,
            FaultKind::Missing => 2,
            FaultKind::WrongKind => 3,
            FaultKind::UnknownType => 4,
            FaultKind::NotWhole => 5,
            FaultKind::OutOfRange => 6,
            FaultKind::OffGrid => 7,
            FaultKind::TooShort => 8,
            FaultKind::NotClosed => 9,
            FaultKind::Revisit => 10,
            FaultKind::NoArc => 11,
            FaultKind::Broken => 12,
            FaultKind::PropertyNumber => 13,
            FaultKind::PropertyDepth => 14,
            FaultKind::NoTransform => 15,
            FaultKind::NotTwo => 16,
            FaultKind::OtherGrid => 17,
            FaultKind::BadPlan => 18,
            FaultKind::NoLayer => 19,
            FaultKind::OutOfMemory => 20,
            FaultKind::Write => 21,
        }
    }

    /// The kind's name, as it is printed after its number.
    pub fn name(self) -> &'static str
        ensures { result.now ≡ name_of self }
    {
        match self {
            FaultKind::NotJson => "NotJson",
            FaultKind::Missing => "Missing",
            FaultKind::WrongKind => "WrongKind",
            FaultKind::UnknownType => "UnknownType",
            FaultKind::NotWhole => "NotWhole",
            FaultKind::OutOfRange => "OutOfRange",
            FaultKind::OffGrid => "OffGrid",
            FaultKind::TooShort => "TooShort",
            FaultKind::NotClosed => "NotClosed",
            FaultKind::Revisit => "Revisit",
            FaultKind::NoArc => "NoArc",
            FaultKind::Broken => "Broken",
            FaultKind::PropertyNumber => "PropertyNumber",
            FaultKind::PropertyDepth => "PropertyDepth",
            FaultKind::NoTransform => "NoTransform",
            FaultKind::NotTwo => "NotTwo",
            FaultKind::OtherGrid => "OtherGrid",
            FaultKind::BadPlan => "BadPlan",
            FaultKind::NoLayer => "NoLayer",
            FaultKind::OutOfMemory => "OutOfMemory",
            FaultKind::Write => "Write",
        }
    }
}

/// One step from a JSON value into a member or an element of it.
#[derive(Drop, Debug, PartialEq, Eq)]
pub enum Step {
    /// Into the member of that name.
    Name(String),
    /// Into the element of that index, from 0.
    Index(usize),
}

/// A fault of a text, and the path from the text's root to the faulty value.
/// Running out of memory is no fault of the text: its path is the root's.
#[derive(Drop, Debug, PartialEq, Eq, Error)]
#[error("{kind}")]
pub struct Fault {
    pub kind: FaultKind,
    pub path: Vec<Step>,
    pub ghost root: { kind ≡ WantOfMemory → vec_len path ≡ 0 },
}

impl Fault {
    ghost use Rattle.faults.specs.Fault.{Pair, pair_of, turn_of, Lifted};
    ghost use Rattle.faults.specs.Path.{name as name_turn, index as index_turn};

    /// A fault of the value itself.
    pub fn here(alloc: Global, kind: FaultKind) -> Fault
        ensures { pair_of result ≡ record { path = []; kind = kind } }
    {
        Fault {
            kind,
            path: Vec::new(alloc),
        }
    }

    /// The fault of an element, as a fault of its list.
    pub fn under_index(self, index: usize) -> Fault
        ensures { Lifted (index_turn index) self result }
    {
        self.under(Step::Index(index))
    }

    /// The fault of a member, as a fault of its object.
    pub fn under_name(self, alloc: Global, member: &str) -> Fault
        ensures { Lifted (name_turn member.now) self result }
    {
        match String::from_str(alloc, member) {
            Ok(text) => self.under(Step::Name(text)),
            Err(_) => Fault::here(alloc, FaultKind::OutOfMemory),
        }
    }

    fn under(self, step: Step) -> Fault
        ensures { Lifted (turn_of step) self result }
    {
        if self.kind == FaultKind::OutOfMemory {
            return self;
        }
        let Fault { kind, mut path } = self;
        let alloc = *path.allocator();
        match path.insert(0, step) {
            Ok(()) => Fault { kind, path },
            Err(_) => Fault::here(alloc, FaultKind::OutOfMemory),
        }
    }
}
