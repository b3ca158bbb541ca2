//! Lists of faults as they are printed.
use faults::Fault;
use std::alloc::Global;
use std::test::Fail;
use worked_maps::fault_line;

/// The number and the path of each fault, one after another.
pub(crate) fn fault_lines(alloc: Global, found: &[Fault]) -> Result<String, Fail> {
    let mut lines = String::new(alloc);
    for fault in found {
        let line = fault_line(alloc, Some(fault))?;
        lines.push_str(line.as_str())?;
        lines.push_str("; ")?;
    }
    Ok(lines)
}
