//! Faults as they are printed, but for the names of their kinds.
use faults::{Fault, Step};
use std::alloc::{AllocError, Global};

fn add_step(line: &mut String, step: &Step) -> Result<(), AllocError> {
    match step {
        Step::Name(name) => write!(line, "/{name}"),
        Step::Index(index) => write!(line, "/{index}"),
    }
}

fn line_of(alloc: Global, fault: &Fault) -> Result<String, AllocError> {
    let mut line = format!(in alloc; "{} $", fault.kind.number())?;
    for step in &fault.path {
        add_step(&mut line, step)?;
    }
    Ok(line)
}

/// The fault's number and path; or that there is none.
///
/// # Errors
/// Where memory is refused.
pub fn fault_line(alloc: Global, fault: Option<&Fault>) -> Result<String, AllocError> {
    match fault {
        Some(fault) => line_of(alloc, fault),
        None => String::from_str(alloc, "accepted"),
    }
}
