//! Words for a shell.
use sinks::{Sink, WriteFault, put};

/// Whether a shell takes a byte as it is.
fn is_plain(byte: u8) -> bool {
    byte.is_ascii_alphanumeric() || b"_-./=,:+@%".contains(&byte)
}

/// A byte between single quotes.
fn put_quoted<E: Sink>(err: &mut E, byte: u8) -> Result<(), WriteFault> {
    match byte {
        b'\'' => put(err, b"'\\''"),
        _ => put(err, &[byte]),
    }
}

/// A word for a shell: in single quotes where it needs them.
pub(crate) fn put_shell_word<E: Sink>(err: &mut E, word: &[u8]) -> Result<(), WriteFault> {
    if word.iter().all(|byte| is_plain(*byte)) {
        return put(err, word);
    }
    put(err, b"'")?;
    for byte in word {
        put_quoted(err, *byte)?;
    }
    put(err, b"'")
}
