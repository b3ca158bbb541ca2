//! What a run says of its progress on standard error, where it is asked to.
use command_line::files::{FileFault, Files};
use difference_text::ChangeCounts;
use itoa::{Buffer, Integer};
use query::count_arcs;
use sinks::{Sink, WriteFault, put};
use std::alloc::Global;
use topo::Topology;

/// The files of a run, which reports each one that it reads, and the stages that it has done. A failure of standard
/// error changes nothing.
#[derive(Drop)]
pub(crate) struct Progress<'m, F, E> {
    files: &'m mut F,
    err: &'m mut E,
    is_reported: bool,
    since: Option<u64>,
    bytes: u64,
}

impl<'m, F: Files, E: Sink> Progress<'m, F, E> {
    /// The progress of a run that begins now.
    pub(crate) fn begin(files: &'m mut F, err: &'m mut E, is_reported: bool) -> Progress<'m, F, E> {
        let since = if is_reported {
            files.milliseconds()
        } else {
            None
        };
        Progress {
            files,
            err,
            is_reported,
            since,
            bytes: 0,
        }
    }

    /// The files themselves.
    pub(crate) fn files(&mut self) -> &mut F {
        self.files
    }

    /// Reports that the texts were compared with their canonical form.
    pub(crate) fn report_check(&mut self) {
        if self.is_reported {
            let bytes = self.bytes;
            let _ = self.put_stage("check", &[(bytes, "byte")]);
        }
    }

    /// Reports that a topology was made.
    pub(crate) fn report_topology(&mut self, topology: &Topology) {
        if self.is_reported {
            let positions = count_arcs(topology).positions.min(u128::from(u64::MAX)) as u64;
            let counts = [(features_of(topology), "feature"), (positions, "position")];
            let _ = self.put_stage("topology", &counts);
        }
    }

    /// Reports that two topologies were compared.
    pub(crate) fn report_difference(&mut self, counts: ChangeCounts) {
        if self.is_reported {
            let features = counts
                .added
                .saturating_add(counts.removed)
                .saturating_add(counts.changed);
            let _ = self.put_stage("difference", &[(features as u64, "feature")]);
        }
    }

    /// Reports that so many errors were found.
    pub(crate) fn report_faults(&mut self, count: u64) {
        if self.is_reported {
            let _ = self.put_stage("faults", &[(count, "error")]);
        }
    }

    /// Reports that so many bytes were printed.
    pub(crate) fn report_output(&mut self, bytes: u64) {
        if self.is_reported {
            let _ = self.put_stage("output", &[(bytes, "byte")]);
        }
    }

    /// Reports that a file was read.
    fn report_read(&mut self, name: &str, length: usize) {
        let length = length as u64;
        self.bytes = self.bytes.saturating_add(length);
        if self.is_reported {
            let _ = self.put_read(name, length);
        }
    }

    fn put_read(&mut self, name: &str, length: u64) -> Result<(), WriteFault> {
        put(self.err, b"topotool: read ")?;
        put(self.err, name.as_bytes())?;
        put_count_of(self.err, ": ", length, "byte")?;
        self.put_seconds()
    }

    /// A line of a stage and its counts. Positions are those of the arcs.
    fn put_stage(&mut self, name: &str, counts: &[(u64, &str)]) -> Result<(), WriteFault> {
        put(self.err, b"topotool: ")?;
        put(self.err, name.as_bytes())?;
        let mut before = ": ";
        for (count, what) in counts {
            put_count_of(self.err, before, *count, *what)?;
            before = ", ";
        }
        self.put_seconds()
    }

    /// Ends a line with the seconds since the last one, where there is a clock.
    fn put_seconds(&mut self) -> Result<(), WriteFault> {
        let now = self.files.milliseconds();
        if let (Some(since), Some(now)) = (self.since, now) {
            let took = now.saturating_sub(since);
            put_count(self.err, ", ", took / 1000)?;
            put(self.err, b".")?;
            put_thousandths(self.err, took % 1000)?;
            put(self.err, b" s")?;
        }
        self.since = now;
        put(self.err, b"\n")
    }
}

impl<'m, F: Files, E: Sink> Files for Progress<'m, F, E> {
    fn read_file(&mut self, alloc: Global, name: &str) -> Result<Vec<u8>, FileFault> {
        let bytes = self.files.read_file(alloc, name)?;
        self.report_read(name, bytes.len());
        Ok(bytes)
    }

    fn read_input(&mut self, alloc: Global) -> Result<Vec<u8>, FileFault> {
        let bytes = self.files.read_input(alloc)?;
        self.report_read("-", bytes.len());
        Ok(bytes)
    }
}

/// How many features all layers have.
fn features_of(topology: &Topology) -> u64 {
    let mut count = 0u64;
    for layer in topology.layers() {
        count = count.saturating_add(layer.geometries().len() as u64);
    }
    count
}

/// Writes a word, and then how many there are of something.
fn put_count_of<E: Sink>(
    err: &mut E,
    before: &str,
    count: u64,
    what: &str,
) -> Result<(), WriteFault> {
    put_count(err, before, count)?;
    put(err, b" ")?;
    put(err, what.as_bytes())?;
    if count == 1 {
        return Ok(());
    }
    put(err, b"s")
}

/// Writes a word, and then a number.
fn put_count<E: Sink, N: Integer>(err: &mut E, word: &str, number: N) -> Result<(), WriteFault> {
    put(err, word.as_bytes())?;
    put(err, Buffer::new().format(number).as_bytes())
}

/// Writes a number below 1000 by three digits.
fn put_thousandths<E: Sink>(err: &mut E, number: u64) -> Result<(), WriteFault> {
    if number < 100 {
        put(err, b"0")?;
    }
    if number < 10 {
        put(err, b"0")?;
    }
    put_count(err, "", number)
}
