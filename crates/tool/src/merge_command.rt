//! The command `merge`.
use clap::ArgMatches;
use command_line::files::{Files, name_at, read_all};
use command_line::refusal::Refusal;
use refine::{MergeFault, merge_topologies};
use std::alloc::Global;
use topo::Topology;

/// The topology of all files' features. The grouping that `--shape` names makes no difference to it, and is not looked
/// at: clap has let no word through that names none. Each text is dropped once it is read.
pub(crate) fn topology_merged<'a, F: Files>(
    alloc: Global,
    found: &ArgMatches<'a>,
    files: &mut F,
) -> Result<Topology, Refusal<'a>> {
    let names = found.get_strs("FILE").unwrap_or(&[]);
    let texts = read_all(alloc, files, names)?;
    match merge_topologies(alloc, texts) {
        Ok(Some(topology)) => Ok(topology),
        Ok(None) => Err(Refusal::BadPlan),
        Err(fault) => Err(merge_refusal(names, fault)),
    }
}

fn merge_refusal<'a>(names: &[&'a str], fault: MergeFault) -> Refusal<'a> {
    match fault {
        MergeFault::BadPlan(_) => Refusal::BadPlan,
        MergeFault::Text(place, fault) => Refusal::of_text(name_at(names, place), fault),
        MergeFault::OtherGrid(place) => Refusal::OtherGrid(name_at(names, place)),
        MergeFault::OutOfMemory => Refusal::OutOfMemory,
    }
}
