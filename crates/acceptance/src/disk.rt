//! Files in memory that a run reads and writes, of which one call fails.
use crate::runs::copy_of;
use sinks::Refused;
use std::alloc::Global;
use tool::{FileFault, Files, OutputFault, Place};

/// The calls by which an output is written.
#[derive(Clone, Copy, PartialEq, Eq, Debug)]
pub enum Call {
    Find,
    Create,
    Write,
    Sync,
    Rename,
    Remove,
}

/// By how many milliseconds the clock goes on between two looks at it.
const TICK: u64 = 1045;

/// Files in memory, by name. One of them is being written. The clock goes on by each look at it.
#[derive(Drop)]
pub struct Disk {
    alloc: Global,
    files: Vec<(String, Vec<u8>)>,
    written: usize,
    fails: Option<Call>,
    left: usize,
    clock: u64,
}

impl Disk {
    /// A disk on which one call fails, after so many of its kind.
    pub fn failing(alloc: Global, fails: Option<Call>, after: usize) -> Disk {
        Disk {
            alloc,
            files: Vec::new(alloc),
            written: 0,
            fails,
            left: after,
            clock: 0,
        }
    }

    /// Puts a file beside the others.
    ///
    /// # Errors
    /// Where memory is refused.
    pub fn add(&mut self, name: &str, bytes: &[u8]) -> Result<(), OutputFault> {
        let (Ok(name), Ok(bytes)) = (
            String::from_str(self.alloc, name),
            Vec::from_slice(self.alloc, bytes),
        ) else {
            return Err(OutputFault::OutOfMemory);
        };
        match self.files.push((name, bytes)) {
            Ok(()) => Ok(()),
            Err(_) => Err(OutputFault::OutOfMemory),
        }
    }

    /// The file of a name.
    pub fn file(&self, name: &str) -> Option<&[u8]> {
        match self.files.get(self.place_of(name)?) {
            Some((_, bytes)) => Some(bytes.as_slice()),
            None => None,
        }
    }

    /// How many files there are.
    pub fn count(&self) -> usize {
        self.files.len()
    }

    fn place_of(&self, name: &str) -> Option<usize> {
        let mut place = 0usize;
        for (known, _) in &self.files {
            if known.as_str() == name {
                return Some(place);
            }
            place = place.saturating_add(1);
        }
        None
    }

    /// Whether this call is the one that fails.
    fn is_refused(&mut self, call: Call) -> bool {
        if self.fails != Some(call) {
            return false;
        }
        let is_last = self.left == 0;
        self.left = self.left.saturating_sub(1);
        is_last
    }

    fn try_call(&mut self, call: Call) -> Result<(), Refused> {
        if self.is_refused(call) {
            return Err(Refused);
        }
        Ok(())
    }

    /// Takes a file away.
    fn take(&mut self, name: &str) -> Result<Vec<u8>, Refused> {
        let Some(place) = self.place_of(name) else {
            return Err(Refused);
        };
        if place >= self.files.len() {
            return Err(Refused);
        }
        let (_, bytes) = self.files.swap_remove(place);
        Ok(bytes)
    }
}

impl Files for Disk {
    fn read_file(&mut self, alloc: Global, name: &str) -> Result<Vec<u8>, FileFault> {
        match self.file(name) {
            Some(bytes) => copy_of(alloc, bytes),
            None => Err(FileFault::Unreadable),
        }
    }

    fn milliseconds(&mut self) -> Option<u64> {
        let now = self.clock;
        self.clock = now.saturating_add(TICK);
        Some(now)
    }

    fn find_output(&mut self, alloc: Global, name: &str) -> Result<Place, OutputFault> {
        if self.is_refused(Call::Find) {
            return Err(OutputFault::Unwritable);
        }
        match String::from_str(alloc, name) {
            Ok(name) => Ok(Place::File(name)),
            Err(_) => Err(OutputFault::OutOfMemory),
        }
    }

    fn create_output(&mut self, name: &str, _like: &str) -> Result<(), OutputFault> {
        if self.is_refused(Call::Create) {
            return Err(OutputFault::Unwritable);
        }
        if self.place_of(name).is_some() {
            return Err(OutputFault::IsThere);
        }
        self.written = self.files.len();
        self.add(name, b"")
    }

    fn write_output(&mut self, piece: &[u8]) -> Result<(), Refused> {
        self.try_call(Call::Write)?;
        let Some((_, bytes)) = self.files.get_mut(self.written) else {
            return Err(Refused);
        };
        match bytes.extend_from_slice(piece) {
            Ok(()) => Ok(()),
            Err(_) => Err(Refused),
        }
    }

    fn sync_output(&mut self) -> Result<(), Refused> {
        self.try_call(Call::Sync)
    }

    fn rename(&mut self, from: &str, to: &str) -> Result<(), Refused> {
        self.try_call(Call::Rename)?;
        let bytes = self.take(from)?;
        let _ = self.take(to);
        match self.add(to, bytes.as_slice()) {
            Ok(()) => Ok(()),
            Err(_) => Err(Refused),
        }
    }

    fn remove(&mut self, name: &str) -> Result<(), Refused> {
        self.try_call(Call::Remove)?;
        let _ = self.take(name)?;
        Ok(())
    }
}
