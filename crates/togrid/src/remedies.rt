//! Texts as they come, and what may help where one is refused.
use command_line::refusal::{Refusal, Remedy};
use fault_reports::{Format, reports};
use faults::{Fault, FaultKind, OutOfMemory};
use rounded_maps::texts_of;
use std::alloc::Global;

/// How a file begins that gzip compressed.
const COMPRESSED: [u8; 2] = [0x1f, 0x8b];

/// The bytes of a file behind a byte order mark in front.
pub(crate) fn without_mark<'t>(alloc: Global, bytes: &'t [u8]) -> Result<&'t [u8], OutOfMemory> {
    let texts = texts_of(alloc, bytes, false)?;
    Ok(texts.first().copied().unwrap_or(bytes))
}

/// Where a text stops being UTF-8: as the errors of a text that is no JSON are reported.
fn encoding_of(alloc: Global, text: &[u8]) -> Result<Option<Remedy>, OutOfMemory> {
    let mut faults = Vec::new(alloc);
    faults.push(Fault::here(alloc, FaultKind::NotJson))?;
    match reports(alloc, Format::GeoJson, text, faults)?.first() {
        Some(report) => Ok(Some(Remedy::Encoding(report.place.line, report.place.column))),
        None => Ok(None),
    }
}

/// What may help where a text is no UTF-8.
pub(crate) fn remedy_of(alloc: Global, text: &[u8]) -> Result<Option<Remedy>, OutOfMemory> {
    if text.starts_with(&COMPRESSED) {
        return Ok(Some(Remedy::Unpacking));
    }
    match simdutf8::basic::from_utf8(text) {
        Ok(_) => Ok(None),
        Err(_) => encoding_of(alloc, text),
    }
}

/// What may help, for each text.
pub(crate) fn remedies_of(
    alloc: Global,
    texts: &[Vec<u8>],
) -> Result<Vec<Option<Remedy>>, OutOfMemory> {
    let mut remedies = Vec::with_capacity(alloc, texts.len())?;
    for text in texts {
        remedies.push(remedy_of(alloc, text.as_slice())?)?;
    }
    Ok(remedies)
}

/// The refusal of a file's text, of which `remedy` helps where it is no UTF-8.
pub(crate) fn refuse_text<'a>(
    file: &'a str,
    fault: Fault,
    remedy: Option<Remedy>,
    is_step_given: bool,
) -> Refusal<'a> {
    match (fault.kind, remedy) {
        (FaultKind::NotJson, Some(remedy)) => Refusal::of_text_with(file, fault, remedy),
        (FaultKind::OutOfRange, _) => if is_step_given {
            Refusal::of_text(file, fault)
        } else {
            Refusal::of_text_with(file, fault, Remedy::Step)
        },
        _ => Refusal::of_text(file, fault),
    }
}
