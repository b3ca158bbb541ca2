//! Where a command prints: standard output, or a file that is replaced as a whole.
use crate::files::{Files, OutputFault, Place};
use crate::refusal::Refusal;
use crate::status::Status;
use itoa::Buffer;
use sinks::{Refused, Sink};
use std::alloc::{AllocError, Global};
use std::io;
use std::io::Write;
use std::path::PathBuf;

/// How many bytes of output are gathered before the system is asked to write them.
pub const OUTPUT_BUFFER: usize = 65536;

/// The word after `--output` that stands for standard output.
const STANDARD_OUTPUT: &str = "-";

/// Whether a word after `--output`, or none, stands for standard output.
pub fn is_standard(word: Option<&str>) -> bool {
    match word {
        Some(name) => name == STANDARD_OUTPUT,
        None => true,
    }
}

/// What the name of the file that is written first begins with.
const WRITTEN_NAME: &str = "noshinka.tmp-";

/// How many names are tried for it.
const MOST_NAMES: u32 = 1000;

/// A file that is written, and the one whose place it takes in the end.
#[derive(Drop)]
struct Replacing {
    written: String,
    name: String,
}

/// What takes the bytes.
#[derive(Drop)]
enum OutputPlace {
    Standard,
    Stream,
    File(Replacing),
}

/// What a command prints into. It counts its bytes. It gathers none: each piece is written at once.
#[derive(Drop)]
pub struct Output<'m, F, O> {
    files: &'m mut F,
    standard: &'m mut O,
    place: OutputPlace,
    bytes: u64,
}

impl<'m, F: Files, O: Sink> Output<'m, F, O> {
    /// The output that the word after `--output` names; standard output where there is none.
    pub fn open<'a>(
        alloc: Global,
        files: &'m mut F,
        standard: &'m mut O,
        word: Option<&str>,
    ) -> Result<Output<'m, F, O>, Refusal<'a>> {
        let place = match word {
            None => OutputPlace::Standard,
            Some(name) => place_of_word(alloc, files, name)?,
        };
        Ok(Output {
            files,
            standard,
            place,
            bytes: 0,
        })
    }

    /// How many bytes were taken.
    pub fn bytes(&self) -> u64 {
        self.bytes
    }

    /// Hands on what was taken, and puts a file in its place; or takes it away again, where anything fails or
    /// what was to be printed is refused.
    pub fn close<'a>(
        mut self,
        printed: Result<Status, Refusal<'a>>,
    ) -> Result<Status, Refusal<'a>> {
        match printed {
            Ok(status) => match self.finish() {
                Ok(()) => Ok(status),
                Err(Refused) => {
                    self.discard();
                    Err(Refusal::Write)
                }
            },
            Err(refusal) => {
                self.discard();
                Err(refusal)
            }
        }
    }

    fn finish(&mut self) -> Result<(), Refused> {
        match &self.place {
            OutputPlace::Standard => self.standard.flush(),
            OutputPlace::Stream => self.files.sync_output(),
            OutputPlace::File(file) => {
                self.files.sync_output()?;
                self.files.rename(file.written.as_str(), file.name.as_str())
            }
        }
    }

    /// Removes the file that was written. Where that fails too it is left.
    fn discard(&mut self) {
        if let OutputPlace::File(file) = &self.place {
            let _ = self.files.remove(file.written.as_str());
        }
    }
}

impl<'m, F: Files, O: Sink> Write for Output<'m, F, O> {
    fn write(&mut self, piece: &[u8]) -> io::Result<usize> {
        let taken = match &self.place {
            OutputPlace::Standard => self.standard.offer(piece),
            OutputPlace::Stream | OutputPlace::File(_) => match self.files.write_output(piece) {
                Ok(()) => Ok(piece.len()),
                Err(Refused) => Err(Refused),
            },
        };
        match taken {
            Ok(count) => {
                self.bytes = self.bytes.saturating_add(count as u64);
                Ok(count)
            }
            Err(Refused) => Err(io::Error::from(io::ErrorKind::Other)),
        }
    }

    /// Nothing is handed on before the end.
    fn flush(&mut self) -> io::Result<()> {
        Ok(())
    }
}

/// Where the output of a name is written.
fn place_of_word<F: Files>(
    alloc: Global,
    files: &mut F,
    name: &str,
) -> Result<OutputPlace, OutputFault> {
    if is_standard(Some(name)) {
        return Ok(OutputPlace::Standard);
    }
    match files.find_output(alloc, name)? {
        Place::File(name) => Ok(OutputPlace::File(create_beside(alloc, files, name)?)),
        Place::Stream => {
            files.open_stream(name)?;
            Ok(OutputPlace::Stream)
        }
    }
}

/// Makes a file in the folder of the one of a name, under the first name that no other file has.
fn create_beside<F: Files>(
    alloc: Global,
    files: &mut F,
    name: String,
) -> Result<Replacing, OutputFault> {
    for number in 0..MOST_NAMES {
        if let Some(written) = create_numbered(alloc, files, name.as_str(), number)? {
            return Ok(Replacing { written, name });
        }
    }
    Err(OutputFault::IsThere)
}

/// Makes a file in the folder of the one of a name, under the name with a number; none where another file has that.
fn create_numbered<F: Files>(
    alloc: Global,
    files: &mut F,
    name: &str,
    number: u32,
) -> Result<Option<String>, OutputFault> {
    let short = short_name(alloc, number)?;
    if name.ends_with(short.as_str()) {
        return Ok(None);
    }
    let written = path_beside(alloc, name, short.as_str())?;
    match files.create_output(written.as_str(), name) {
        Ok(()) => Ok(Some(written)),
        Err(OutputFault::IsThere) => Ok(None),
        Err(fault) => Err(fault),
    }
}

/// A name with a number behind it. It is short, so that an output may have the longest name that the system allows.
fn short_name(alloc: Global, number: u32) -> Result<String, AllocError> {
    let mut name = String::from_str(alloc, WRITTEN_NAME)?;
    name.push_str(Buffer::new().format(number))?;
    Ok(name)
}

/// The path of another name in the folder of a file.
fn path_beside(alloc: Global, file: &str, name: &str) -> Result<String, AllocError> {
    let mut path = PathBuf::from_str(alloc, file)?;
    path.set_file_name(name)?;
    Ok(path.into_string())
}

/// Writes a whole text to the output that a word names; standard output where there is none.
///
/// # Errors
/// The refusal of the output, which is left as it was.
pub fn write_output<'a, F: Files, O: Sink>(
    alloc: Global,
    files: &mut F,
    standard: &mut O,
    word: Option<&str>,
    text: &[u8],
) -> Result<(), Refusal<'a>> {
    let mut output = Output::open(alloc, files, standard, word)?;
    let printed = print_text(&mut output, text);
    match output.close(printed) {
        Ok(_) => Ok(()),
        Err(refusal) => Err(refusal),
    }
}

fn print_text<'a, W: Write>(output: &mut W, text: &[u8]) -> Result<Status, Refusal<'a>> {
    match output.write_all(text) {
        Ok(()) => Ok(Status::Done),
        Err(_) => Err(Refusal::Write),
    }
}
