//! Runs of the command over files in memory and sinks that keep what they are given.
use sinks::{Kept, Sink};
use std::alloc::{AllocError, Global};
use std::test::Fail;
use tool::{FileFault, Files, run};

/// Files in memory, by name; there is no standard input.
#[derive(Drop)]
struct Memory<'a> {
    files: &'a [(String, Vec<u8>)],
}

/// A copy of a file.
pub fn copy_of(alloc: Global, bytes: &[u8]) -> Result<Vec<u8>, FileFault> {
    match Vec::from_slice(alloc, bytes) {
        Ok(copy) => Ok(copy),
        Err(_) => Err(FileFault::OutOfMemory),
    }
}

impl Files for Memory<'_> {
    fn read_file(&mut self, alloc: Global, name: &str) -> Result<Vec<u8>, FileFault> {
        for (known, bytes) in self.files {
            if known.as_str() == name {
                return copy_of(alloc, bytes.as_slice());
            }
        }
        Err(FileFault::Unreadable)
    }
}

/// What a sink kept, as a text.
fn text_of(kept: Kept) -> Result<String, Fail> {
    Ok(String::from_utf8(kept.into_bytes())?)
}

/// A run of the command: its words and files.
#[derive(Drop)]
pub struct Run {
    pub(crate) alloc: Global,
    words: Vec<String>,
    files: Vec<(String, Vec<u8>)>,
}

impl Run {
    /// A run with these words after the program's name, and no file.
    fn new(alloc: Global, words: &[&str]) -> Result<Run, AllocError> {
        let mut run = Run {
            alloc,
            words: Vec::new(alloc),
            files: Vec::new(alloc),
        };
        run.add_word("topotool")?;
        for word in words {
            run.add_word(*word)?;
        }
        Ok(run)
    }

    /// A run with these words after the program's name, and files, each a name and a text.
    pub fn on_files(
        alloc: Global,
        words: &[&str],
        files: &[(&str, &str)],
    ) -> Result<Run, AllocError> {
        let mut run = Run::new(alloc, words)?;
        for (name, text) in files {
            run.add_file(*name, text.as_bytes())?;
        }
        Ok(run)
    }

    /// Puts a word last.
    fn add_word(&mut self, word: &str) -> Result<(), AllocError> {
        let word = String::from_str(self.alloc, word)?;
        self.words.push(word)?;
        Ok(())
    }

    /// Puts a file of this name and these bytes beside the others.
    fn add_file(&mut self, name: &str, bytes: &[u8]) -> Result<(), AllocError> {
        let name = String::from_str(self.alloc, name)?;
        let bytes = Vec::from_slice(self.alloc, bytes)?;
        self.files.push((name, bytes))?;
        Ok(())
    }

    /// Runs the command over sinks of the caller's, and answers its status.
    pub fn over<O: Sink, E: Sink>(&self, out: &mut O, err: &mut E) -> u8 {
        let mut files = Memory {
            files: self.files.as_slice(),
        };
        self.over_files(&mut files, out, err)
    }

    /// Runs the command over files and sinks of the caller's, and answers its status.
    pub fn over_files<F: Files, O: Sink, E: Sink>(
        &self,
        files: &mut F,
        out: &mut O,
        err: &mut E,
    ) -> u8 {
        run(self.alloc, self.words.as_slice(), files, out, err)
    }

    /// Runs the command, and keeps what it writes.
    pub fn outcome(&self) -> Result<Outcome, Fail> {
        let mut out = Kept::new(self.alloc);
        let mut err = Kept::new(self.alloc);
        let status = self.over(&mut out, &mut err);
        let out = text_of(out)?;
        let err = text_of(err)?;
        Ok(Outcome { status, out, err })
    }
}

/// What a run ended with.
#[derive(Drop)]
pub struct Outcome {
    status: u8,
    out: String,
    err: String,
}

impl Outcome {
    /// The text that the run printed, where it ended with this status and reported nothing.
    ///
    /// # Errors
    /// The title, and what the run ended with.
    pub fn into_text(self, title: &str, status: u8) -> Result<String, Fail> {
        if self.status != status || !self.err.is_empty() {
            return Err(self.failure(title));
        }
        Ok(self.out)
    }

    /// A failure that tells what the run ended with.
    fn failure(&self, title: &str) -> Fail {
        let (err, out) = (self.err.as_str(), self.out.as_str());
        Fail::new(format_args!("{title}: status {}\n{err}{out}", self.status))
    }
}
