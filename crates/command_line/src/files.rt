//! The files that a command reads, and the one that it writes.
ghost use Rattle.command_line.specs.declared.files.OutputFault.TheVariants as output;
ghost use Rattle.std.specs.Prelude.{◌≡◌};

use crate::refusal::{Refusal, Usage};
use sinks::Refused;
use std::alloc::{AllocError, Global};
use thiserror::Error;

/// The file word that stands for standard input.
const STANDARD_INPUT: &str = "-";

/// Why a file gave no bytes.
#[derive(Clone, Copy, Debug, Error)]
pub enum FileFault {
    /// The file is not there, or can't be read.
    #[error("can't be read")]
    Unreadable,
    /// There is no memory for its bytes.
    #[error("out of memory")]
    OutOfMemory,
}

/// Why there is no file to write to.
#[derive(Clone, Copy, Debug, Error)]
pub enum OutputFault {
    /// A file of that name is there.
    #[error("is there")]
    IsThere,
    /// It can't be made, or found out.
    #[error("can't be written")]
    Unwritable,
    /// There is no memory for it.
    #[error("out of memory")]
    OutOfMemory,
}

impl From<AllocError> for OutputFault {
    ghost from_gives = { λ _ fault. fault ≡ output.OutOfMemory };

    fn from(_error: AllocError) -> OutputFault {
        OutputFault::OutOfMemory
    }
}

/// What is there under the name of an output.
#[derive(Drop)]
pub enum Place {
    /// A file, or nothing yet, and the name behind all links.
    File(String),
    /// A device or a pipe, which can't be replaced.
    Stream,
}

/// What a command has of its machine: the files that it reads, one that it writes, and a clock. They are those of
/// the machine, or a test's own. Where the methods for the output are left out, no file can be written.
///
/// An output is found, made under another name beside it, written, synced, and put in its place by `rename`.
/// So the file that was there before stays as it was until all is written.
pub trait Files {
    /// The bytes of the file of this name.
    fn read_file(&mut self, alloc: Global, name: &str) -> Result<Vec<u8>, FileFault>;

    /// The bytes of standard input up to its end. A run asks for them at most once. Files that leave
    /// this out have no standard input, and the word `-` is a file that can't be read.
    fn read_input(&mut self, _alloc: Global) -> Result<Vec<u8>, FileFault> {
        Err(FileFault::Unreadable)
    }

    /// The milliseconds since some moment that stays the same; None where there is no clock. A run asks for them
    /// only where it reports its progress.
    fn milliseconds(&mut self) -> Option<u64> {
        None
    }

    /// What is there under this name.
    fn find_output(&mut self, _alloc: Global, _name: &str) -> Result<Place, OutputFault> {
        Err(OutputFault::Unwritable)
    }

    /// Makes an empty file of this name, where there is none, to which the output is written from then on. It
    /// gets the permissions of the file `like`, where there is one.
    fn create_output(&mut self, _name: &str, _like: &str) -> Result<(), OutputFault> {
        Err(OutputFault::Unwritable)
    }

    /// Opens the device or pipe of this name, to which the output is written from then on.
    fn open_stream(&mut self, _name: &str) -> Result<(), OutputFault> {
        Err(OutputFault::Unwritable)
    }

    /// Writes all of a piece to the output.
    fn write_output(&mut self, _piece: &[u8]) -> Result<(), Refused> {
        Err(Refused)
    }

    /// Hands on all that was written, to the disk where the output is a file, and closes it.
    fn sync_output(&mut self) -> Result<(), Refused> {
        Err(Refused)
    }

    /// Gives a file another name, and takes away what had that name before.
    fn rename(&mut self, _from: &str, _to: &str) -> Result<(), Refused> {
        Err(Refused)
    }

    /// Removes a file.
    fn remove(&mut self, _name: &str) -> Result<(), Refused> {
        Err(Refused)
    }
}

/// The bytes of a file, or of standard input for the word `-`; or the refusal that names it.
pub fn read_named<'a, F: Files>(
    alloc: Global,
    files: &mut F,
    file: &'a str,
) -> Result<Vec<u8>, Refusal<'a>> {
    let read = if file == STANDARD_INPUT {
        files.read_input(alloc)
    } else {
        files.read_file(alloc, file)
    };
    match read {
        Ok(bytes) => Ok(bytes),
        Err(FileFault::Unreadable) => Err(Refusal::Unreadable(file)),
        Err(FileFault::OutOfMemory) => Err(Refusal::OutOfMemory),
    }
}

/// Standard input can be read once only, so at most one of the files may be it.
pub fn input_once<'a>(names: &[&'a str]) -> Result<(), Refusal<'a>> {
    let mut is_named = false;
    for name in names {
        if *name == STANDARD_INPUT {
            if is_named {
                return Err(Refusal::Usage(Usage::InputTwice));
            }
            is_named = true;
        }
    }
    Ok(())
}

/// The bytes of all files, read in order.
pub fn read_all<'a, F: Files>(
    alloc: Global,
    files: &mut F,
    names: &[&'a str],
) -> Result<Vec<Vec<u8>>, Refusal<'a>> {
    input_once(names)?;
    let mut texts = Vec::new(alloc);
    for name in names {
        texts.push(read_named(alloc, files, *name)?)?;
    }
    Ok(texts)
}

/// The name at a place of a list, empty past its end.
pub fn name_at<'a>(names: &[&'a str], place: usize) -> &'a str {
    names.get(place).copied().unwrap_or("")
}
