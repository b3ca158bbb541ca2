//! The JSON value of a text.
ghost use Rattle.faults.specs.Fault.{Pair};
ghost use Rattle.reading.specs.Fault.{LeastOrWant};
ghost use Rattle.reading.specs.Text.{document as document_of, text_faults};
ghost use Rattle.serde_json.specs.Data.{Data};
ghost use Rattle.serde_json.specs.View.{view};
ghost use Rattle.std.specs.Prelude.{◌≡◌, List, Some, IfOk, IfErr};

use faults::fault::{Fault, FaultKind};
use serde_json::{Category, Value};
use std::alloc::Global;

/// The value that `serde_json` reads from the bytes, or that they are not JSON.
pub fn document(alloc: Global, bytes: &[u8]) -> Result<Value, Fault>
    ensures ok { IfOk result (λ v. document_of bytes.now ≡ Some (view v)) }
    ensures err { IfErr result (λ f. (of : Data → List Pair) → LeastOrWant (text_faults of (document_of bytes.now)) f) }
{
    match Value::from_slice(alloc, bytes) {
        Ok(value) => Ok(value),
        Err(error) => match error.classify() {
            Category::Memory => Err(Fault::here(alloc, FaultKind::OutOfMemory)),
            _ => Err(Fault::here(alloc, FaultKind::NotJson)),
        },
    }
}
