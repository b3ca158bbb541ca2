//! The line of a text that is refused.

use faults::{Fault, Step};
use std::alloc::{AllocError, Global};

/// A member's name, with `~0` for `~` and `~1` for `/`.
fn add_name(line: &mut String, name: &str) -> Result<(), AllocError> {
    for letter in name.chars() {
        match letter {
            '~' => line.push_str("~0")?,
            '/' => line.push_str("~1")?,
            _ => line.push(letter)?,
        }
    }
    Ok(())
}

fn add_step(line: &mut String, step: &Step) -> Result<(), AllocError> {
    line.push('/')?;
    match step {
        Step::Name(name) => add_name(line, name.as_str()),
        Step::Index(index) => write!(line, "{index}"),
    }
}

/// The line that topotool tells.
pub(crate) fn line_of(alloc: Global, file: &str, fault: &Fault) -> Result<String, AllocError> {
    let kind = fault.kind;
    let mut line = format!(in alloc; "topotool: {file}: {} {} $", kind.number(), kind.name())?;
    for step in &fault.path {
        add_step(&mut line, step)?;
    }
    line.push('\n')?;
    Ok(line)
}
