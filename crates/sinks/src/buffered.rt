//! A sink that gathers small pieces and hands them to a writer of std together.
ghost use Rattle.sinks.specs.Gathering.{buffered_seen, taken_and_held};
ghost use Rattle.sinks.specs.Seen.{Seen, one_more};
ghost use Rattle.sinks.specs.Writes.{Offered, TookAll, TookPart};
ghost use Rattle.std.specs.Io.KnownBytes.{Appends, Keeps};
ghost use Rattle.std.specs.Prelude.{◌≡◌, ℕ, ◌<◌, ◌≤◌, ◌+◌, ◌++◌, length, take, List, [], IfOk, IsOk, OnErr, OnOk, MatchResult, None, vec_capacity, vec_len};

use crate::{Refused, Sink};
use std::alloc::{AllocError, Global};
use std::io::Write;

/// A sink over any writer of std, which holds what it takes until its room is full or it is flushed.
/// It counts its failures and does not show its bytes. What it still holds when it is dropped is lost.
#[derive(Drop)]
pub struct Buffered<W> {
    writer: W,
    bytes: Vec<u8>,
    failures: u64,
}

impl<W: Write + Drop> Buffered<W> {
    /// A sink over the writer, without failures, with room for so many bytes. No later call needs memory.
    pub fn new(alloc: Global, writer: W, room: usize) -> Result<Buffered<W>, AllocError>
        ensures seen { IfOk result (λ b. buffered_seen b ≡ record { bytes = None; failures = 0 }) }
        ensures writer { IfOk result (λ b. b.writer ≡ writer) }
        ensures empty { IfOk result (λ b. b.bytes.items ≡ []) }
        ensures room { IfOk result (λ b. vec_capacity b.bytes ≡ room) }
        ensures succeeds { room ≡ 0 → IsOk result }
    {
        let bytes = Vec::with_capacity(alloc, room)?;
        Ok(Buffered {
            writer,
            bytes,
            failures: 0,
        })
    }
}

impl<W: Write> Buffered<W> {
    fn refuse(&mut self) -> Refused
        ensures writer { self.new.writer ≡ self.old.writer }
        ensures bytes { self.new.bytes ≡ self.old.bytes }
        ensures failures { self.new.failures ≡ one_more self.old.failures }
    {
        self.failures = self.failures.saturating_add(1);
        Refused
    }

    #[inline]
    fn hold(&mut self, piece: &[u8])
        requires { vec_len self.old.bytes + length piece.now ≤ vec_capacity self.old.bytes }
        ensures bytes { self.new.bytes.items ≡ self.old.bytes.items ++ piece.now }
        ensures writer { self.new.writer ≡ self.old.writer }
        ensures failures { self.new.failures ≡ self.old.failures }
    {
        let Ok(()) = self.bytes.extend_from_slice(piece) else {
            unreachable!()
        };
    }

    // Hands on what is held, and holds nothing afterwards, also after a failure.
    fn hand_on(&mut self) -> Result<(), Refused>
        ensures empty { self.new.bytes.items ≡ [] }
        ensures room { vec_capacity self.new.bytes ≡ vec_capacity self.old.bytes }
        ensures failures { MatchResult result (λ _. self.new.failures ≡ self.old.failures) (λ _. self.new.failures ≡ one_more self.old.failures) }
        ensures handed_on { OnOk result (Appends (W.contents self.old.writer) (W.contents self.new.writer) self.old.bytes.items) }
    {
        let outcome = self.writer.write_all(self.bytes.as_slice());
        self.bytes.clear();
        match outcome {
            Ok(()) => Ok(()),
            Err(_) => Err(self.refuse()),
        }
    }

    // Makes room for the piece by handing on what is held. A piece longer than the whole room is handed on at once.
    // It stands apart, so that only the test for room is inlined.
    #[cold]
    #[inline(never)]
    fn offer_to_writer(&mut self, piece: &[u8]) -> Result<usize, Refused>
        ensures offered { Offered (buffered_seen self.old) (buffered_seen self.new) piece.now result }
        ensures whole { IfOk result (λ n. n ≡ length piece.now) }
        ensures gathered { OnOk result (Appends (taken_and_held W.contents self.old) (taken_and_held W.contents self.new) piece.now) }
        ensures given_up { OnErr result (self.new.bytes.items ≡ []) }
    {
        self.hand_on()?;
        if piece.len() <= self.bytes.capacity() - self.bytes.len() {
            self.hold(piece);
            return Ok(piece.len());
        }
        match self.writer.write_all(piece) {
            Ok(()) => Ok(piece.len()),
            Err(_) => Err(self.refuse()),
        }
    }
}

impl<W: Write> Sink for Buffered<W> {
    ghost seen = { buffered_seen };

    #[inline]
    fn offer(&mut self, piece: &[u8]) -> Result<usize, Refused>
        ensures offered { Offered (buffered_seen self.old) (buffered_seen self.new) piece.now result }
        ensures whole { IfOk result (λ n. n ≡ length piece.now) }
        ensures gathered { OnOk result (Appends (taken_and_held W.contents self.old) (taken_and_held W.contents self.new) piece.now) }
        ensures given_up { OnErr result (self.new.bytes.items ≡ []) }
        ensures held { vec_len self.old.bytes + length piece.now ≤ vec_capacity self.old.bytes → IsOk result × (self.new.writer ≡ self.old.writer) }
    {
        if piece.len() <= self.bytes.capacity() - self.bytes.len() {
            self.hold(piece);
            return Ok(piece.len());
        }
        self.offer_to_writer(piece)
    }

    fn flush(&mut self) -> Result<(), Refused>
        ensures whole { OnOk result (TookAll (buffered_seen self.old) (buffered_seen self.new) []) }
        ensures part { OnErr result (TookPart (buffered_seen self.old) (buffered_seen self.new) []) }
        ensures handed_on { OnOk result (Appends (W.contents self.old.writer) (W.contents self.new.writer) self.old.bytes.items) }
        ensures empty { self.new.bytes.items ≡ [] }
    {
        self.hand_on()?;
        match self.writer.flush() {
            Ok(()) => Ok(()),
            Err(_) => Err(self.refuse()),
        }
    }
}
