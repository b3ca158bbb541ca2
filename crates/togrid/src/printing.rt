//! What is printed, through a buffer.
use command_line::files::Files;
use command_line::output::{OUTPUT_BUFFER, Output};
use command_line::refusal::Refusal;
use command_line::status::Status;
use fault_reports::{FaultReport, write_lines};
use grid::Grid;
use rounded_maps::{RoundedFeature, write_collection};
use sinks::{Buffered, Refused, Sink, WriteFault};
use std::alloc::Global;
use std::io::Write;
use topo::Topology;

/// What is printed.
#[derive(Clone, Copy)]
pub(crate) enum Printed<'m, 'a> {
    Topology(&'m Topology),
    /// The features of a map, on a grid.
    Map(&'m [RoundedFeature], &'m Grid),
    /// The errors of each file of these names.
    Faults(&'m [&'a str], &'m [Vec<FaultReport>]),
}

impl<'m, 'a> Printed<'m, 'a> {
    fn put<W: Sink>(&self, sink: &mut W) -> Result<(), WriteFault> {
        match self {
            Printed::Topology(topology) => topo_io::write(*topology, sink),
            Printed::Map(features, grid) => write_collection(*features, *grid, sink),
            Printed::Faults(names, reports) => put_faults(*names, *reports, sink),
        }
    }

    fn put_buffered<W: Write + Drop>(
        &self,
        alloc: Global,
        output: W,
    ) -> Result<Status, Refusal<'a>> {
        let mut sink = Buffered::new(alloc, output, OUTPUT_BUFFER)?;
        self.put(&mut sink)?;
        match sink.flush() {
            Ok(()) => Ok(Status::Done),
            Err(Refused) => Err(Refusal::Write),
        }
    }

    /// Prints it into the output that a word names; standard output where there is none.
    pub(crate) fn print<F: Files, O: Sink>(
        &self,
        alloc: Global,
        word: Option<&str>,
        files: &mut F,
        out: &mut O,
    ) -> Result<(), Refusal<'a>> {
        let mut output = Output::open(alloc, files, out, word)?;
        let printed = self.put_buffered(alloc, &mut output);
        match output.close(printed) {
            Ok(_) => Ok(()),
            Err(refusal) => Err(refusal),
        }
    }
}

fn put_faults<W: Sink>(
    names: &[&str],
    reports: &[Vec<FaultReport>],
    sink: &mut W,
) -> Result<(), WriteFault> {
    for (name, reports) in names.iter().zip(reports) {
        write_lines(*name, reports.as_slice(), false, sink)?;
    }
    Ok(())
}
