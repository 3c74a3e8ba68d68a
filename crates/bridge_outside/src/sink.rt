//! Where the output goes: bytes that are taken in pieces, and writes that may fail.

ghost use Rattle.std.specs.Prelude.{◌≡◌, ◌+◌, ◌-◌, ◌^◌, ◌≤◌, ◌<◌, ◌↔◌, [], Option, Some, None, IfOk, IfSome, IsErrOf, Contains, take, min, length};
ghost use Rattle.bridge_outside.specs.Outside.{SinkState, Writes};

use std::alloc::{AllocError, Global};
use std::io::Write;

/// Why a write took nothing.
#[derive(Clone, Copy, Debug, PartialEq, Eq)]
pub enum SinkFault {
    /// The write failed.
    Failed,
    /// Want of memory.
    NoMemory,
}

impl From<AllocError> for SinkFault {
    ghost use Rattle.bridge_outside.specs.declared.sink.SinkFault.TheVariants.{NoMemory};

    ghost from_gives = { λ _ fault. fault ≡ NoMemory };

    fn from(_: AllocError) -> Self {
        SinkFault::NoMemory
    }
}

/// What takes bytes, in pieces of whatever length.
pub trait Sink {
    /// What it shows: the bytes taken, where they are told; and how often a write failed, which never falls and stays
    /// at the last value of its type.
    ghost state: { Self → SinkState };

    /// Takes the first bytes of `piece`, at least one where there is one, and answers how many.
    /// `Failed` where the write failed: then the count of faults rose. `NoMemory` for want of
    /// memory. Either leaves the bytes taken as they were.
    fn write(&mut self, piece: &[u8]) -> Result<usize, SinkFault>
        ensures { Writes (state self.old) (state self.new) piece.now result };
}

/// Takes bytes into memory, in pieces of a given length, with writes that fail as listed.
#[derive(Drop)]
pub struct MemSink {
    bytes: Vec<u8>,
    piece: usize,
    fail: Vec<usize>,
    call: usize,
    faults: u64,
    ghost some: { 1 ≤ piece },
}

impl MemSink {
    ghost use Rattle.bridge_outside.specs.Sinks.{bytes_taken, write_piece, failing_writes, next_write, write_failures};

    /// A sink that has taken nothing, and takes at most `piece` bytes a write. The writes whose
    /// numbers `fail` lists fail: the first has the number 0, and the last number of the type
    /// stays.
    pub fn new(alloc: Global, piece: usize, fail: &[usize]) -> Result<Self, AllocError>
        requires { 1 ≤ piece }
        ensures bytes { IfOk result (λ it. bytes_taken it ≡ []) }
        ensures piece { IfOk result (λ it. write_piece it ≡ piece) }
        ensures fail { IfOk result (λ it. failing_writes it ≡ fail.now) }
        ensures call { IfOk result (λ it. next_write it ≡ 0) }
        ensures faults { IfOk result (λ it. write_failures it ≡ 0) }
    {
        Ok(MemSink {
            bytes: Vec::new(alloc),
            piece,
            fail: Vec::from_slice(alloc, fail)?,
            call: 0,
            faults: 0,
        })
    }

    /// The bytes taken.
    pub fn bytes(&self) -> &[u8]
        ensures { result.now ≡ bytes_taken self.now }
    {
        &self.bytes
    }
}

impl Sink for MemSink {
    ghost use Rattle.bridge_outside.specs.Sinks.{write_piece, failing_writes, next_write, mem_sink};
    ghost use Rattle.bridge_outside.specs.declared.sink.SinkFault.TheVariants.{Failed};

    ghost state = { λ it. mem_sink it };

    fn write(&mut self, piece: &[u8]) -> Result<usize, SinkFault>
        ensures writes { Writes (mem_sink self.old) (mem_sink self.new) piece.now result }
        // It fails exactly at the listed calls.
        ensures listed { IsErrOf result Failed
            ↔ Contains (failing_writes self.old) (next_write self.old) }
        ensures piece { IfOk result (λ n. n ≡ min (write_piece self.old) (length piece.now)) }
        ensures counted { next_write self.new ≡ min (next_write self.old + 1) (2 ^ 64 - 1) }
        ensures same_list { failing_writes self.new ≡ failing_writes self.old }
        ensures same_piece { write_piece self.new ≡ write_piece self.old }
    {
        let call = self.call;
        self.call = call.saturating_add(1);
        if self.fail.contains(&call) {
            self.faults = self.faults.saturating_add(1);
            return Err(SinkFault::Failed);
        }
        let n = self.piece.min(piece.len());
        self.bytes.extend_from_slice(&piece[..n])?;
        Ok(n)
    }
}

/// Takes bytes into memory, each piece whole. No write fails.
#[derive(Drop)]
pub struct PlainSink {
    bytes: Vec<u8>,
}

impl PlainSink {
    ghost use Rattle.bridge_outside.specs.Sinks.{plain_taken};

    /// A sink that has taken nothing.
    pub fn new(alloc: Global) -> Self
        ensures { plain_taken result ≡ [] }
    {
        PlainSink {
            bytes: Vec::new(alloc),
        }
    }

    /// The bytes taken.
    pub fn bytes(&self) -> &[u8]
        ensures { result.now ≡ plain_taken self.now }
    {
        &self.bytes
    }
}

impl Sink for PlainSink {
    ghost use Rattle.bridge_outside.specs.Sinks.{plain_sink};
    ghost use Rattle.bridge_outside.specs.declared.sink.SinkFault.TheVariants.{Failed};

    ghost state = { λ it. plain_sink it };

    fn write(&mut self, piece: &[u8]) -> Result<usize, SinkFault>
        ensures writes { Writes (plain_sink self.old) (plain_sink self.new) piece.now result }
        ensures whole { IfOk result (λ n. n ≡ length piece.now) }
        ensures never_fails { ¬ IsErrOf result Failed }
    {
        self.bytes.extend_from_slice(piece)?;
        Ok(piece.len())
    }
}

/// One of std's writers, as standard output. Each write is one call of std, and a flush of what was
/// written. An error, and a write that takes nothing, is `Failed`. It tells no bytes.
#[derive(Drop)]
pub struct StdSink<W> {
    writer: W,
    failures: u64,
}

impl<W: Write> StdSink<W> {
    ghost use Rattle.std.specs.Io.KnownBytes.{Appends};
    ghost use Rattle.bridge_outside.specs.Sinks.{std_writer, std_write_failures};

    /// A sink that writes to the writer.
    pub fn new(writer: W) -> StdSink<W>
        ensures writer { std_writer result ≡ writer }
        ensures faults { std_write_failures result ≡ 0 }
    {
        StdSink {
            writer,
            failures: 0,
        }
    }

    // One write and its flush. None where the writer failed or took nothing of a piece.
    fn write_and_flush(&mut self, piece: &[u8]) -> Option<usize>
        ensures bound { IfSome result (λ n. n ≤ length piece.now) }
        ensures some { IfSome result (λ n. 0 < length piece.now → 0 < n) }
        ensures bytes { IfSome result (λ n. Appends (W.contents (std_writer self.old))
            (W.contents (std_writer self.new)) (take n piece.now)) }
        ensures faults { std_write_failures self.new ≡ std_write_failures self.old }
    {
        let n = self.writer.write(piece).ok()?;
        if n == 0 && !piece.is_empty() {
            return None;
        }
        self.writer.flush().ok()?;
        Some(n)
    }
}

impl<W: Write> Sink for StdSink<W> {
    ghost use Rattle.std.specs.Io.KnownBytes.{Appends};
    ghost use Rattle.bridge_outside.specs.Sinks.{std_writer, std_sink};
    ghost use Rattle.bridge_outside.specs.declared.sink.SinkFault.TheVariants.{NoMemory};

    ghost state = { λ it. std_sink it };

    fn write(&mut self, piece: &[u8]) -> Result<usize, SinkFault>
        ensures writes { Writes (std_sink self.old) (std_sink self.new) piece.now result }
        // Where the writer knows its bytes, these came to them.
        ensures bytes { IfOk result (λ n. Appends (W.contents (std_writer self.old))
            (W.contents (std_writer self.new)) (take n piece.now)) }
        ensures no_memory { ¬ IsErrOf result NoMemory }
    {
        match self.write_and_flush(piece) {
            Some(n) => Ok(n),
            None => {
                self.failures = self.failures.saturating_add(1);
                Err(SinkFault::Failed)
            }
        }
    }
}
