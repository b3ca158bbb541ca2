//! The exit statuses of the programs.
ghost use Rattle.std.specs.Prelude.{◌≡◌};

/// How a command ended.
#[derive(Clone, Copy)]
pub enum Status {
    /// The work is done, or help or the version was asked for.
    Done,
    /// `check` says no.
    NotCanonical,
    /// `diff` found a difference.
    Different,
    /// The work is done, and something was lost, with `--strict`.
    Lost,
    /// The words are wrong.
    Usage,
    /// A file can't be read.
    Unreadable,
    /// An input is refused, or `faults` found an error.
    Refused,
    /// A growth of memory was refused.
    OutOfMemory,
    /// The output failed.
    Write,
}

impl Status {
    ghost use Rattle.command_line.specs.Status.{exit_status};

    /// The number that the program exits with.
    pub fn number(self) -> u8
        ensures { result ≡ exit_status self }
    {
        match self {
            Status::Done => 0,
            Status::NotCanonical | Status::Different | Status::Lost => 1,
            Status::Usage => 2,
            Status::Unreadable => 3,
            Status::Refused => 4,
            Status::OutOfMemory => 5,
            Status::Write => 6,
        }
    }
}
