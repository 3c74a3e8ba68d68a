//! Where the input comes from: bytes that are read in pieces, and reads that may fail.

ghost use Rattle.std.specs.Prelude.{◌≡◌, ◌+◌, ◌-◌, ◌^◌, ◌≤◌, ◌↔◌, ◌++◌, IfOk, IsErr, IsOk, Contains, drop, take, min, length};
ghost use Rattle.bridge_outside.specs.Outside.{Reads, SourceState};

use std::alloc::{AllocError, Global};
use std::io::Read;

/// A read failed.
#[derive(Clone, Copy, Debug, PartialEq, Eq)]
pub struct Failed;

/// Bytes that are read from the front, in pieces of whatever length.
pub trait Source {
    /// What it shows: the bytes left, where they are told; how often a read failed, which never falls and stays
    /// at the last value of its type; and how often it was read, as far as it counts that.
    ghost state: { Self → SourceState };

    /// Moves the first bytes left to the front of `buf`, and answers how many. For a `buf` with
    /// room that is 0 only at the end. `Failed` where the read failed: then all is left as it was,
    /// and the count of faults rose.
    fn read(&mut self, buf: &mut [u8]) -> Result<usize, Failed>
        ensures { Reads (state self.old) (state self.new) buf.old buf.new result };
}

// Copies as many of the first bytes of `rest` as `most` and the room allow.
fn copy_front(rest: &[u8], most: usize, buf: &mut [u8]) -> usize
    ensures count { result ≡ min (min most (length rest.now)) (length buf.old) }
    ensures copied { buf.new ≡ take result rest.now ++ drop result buf.old }
{
    let n = most.min(rest.len()).min(buf.len());
    buf[..n].copy_from_slice(&rest[..n]);
    n
}

/// Bytes in memory, read in pieces of a given length, with reads that fail as listed.
#[derive(Drop)]
pub struct MemSource {
    bytes: Vec<u8>,
    at: usize,
    piece: usize,
    fail: Vec<usize>,
    call: usize,
    faults: u64,
    ghost within: { at ≤ length bytes.items },
    ghost some: { 1 ≤ piece },
}

impl MemSource {
    ghost use Rattle.bridge_outside.specs.Sources.{bytes_left, read_piece, failing_reads, next_read, read_failures};

    /// A source of a copy of `bytes`, at most `piece` a read. The reads whose numbers `fail` lists
    /// fail: the first has the number 0, and the last number of the type stays.
    pub fn new(
        alloc: Global,
        bytes: &[u8],
        piece: usize,
        fail: &[usize],
    ) -> Result<Self, AllocError>
        requires { 1 ≤ piece }
        ensures bytes { IfOk result (λ it. bytes_left it ≡ bytes.now) }
        ensures piece { IfOk result (λ it. read_piece it ≡ piece) }
        ensures fail { IfOk result (λ it. failing_reads it ≡ fail.now) }
        ensures call { IfOk result (λ it. next_read it ≡ 0) }
        ensures faults { IfOk result (λ it. read_failures it ≡ 0) }
    {
        Ok(MemSource {
            bytes: Vec::from_slice(alloc, bytes)?,
            at: 0,
            piece,
            fail: Vec::from_slice(alloc, fail)?,
            call: 0,
            faults: 0,
        })
    }
}

impl Source for MemSource {
    ghost use Rattle.bridge_outside.specs.Sources.{bytes_left, read_piece, failing_reads, next_read, mem_source};

    ghost state = { λ it. mem_source it };

    fn read(&mut self, buf: &mut [u8]) -> Result<usize, Failed>
        ensures reads { Reads (mem_source self.old) (mem_source self.new) buf.old buf.new result }
        // It fails exactly at the listed calls.
        ensures listed { IsErr result ↔ Contains (failing_reads self.old) (next_read self.old) }
        // It gives as much as the piece and the room allow.
        ensures piece { IfOk result (λ n.
            n ≡ min (min (read_piece self.old) (length (bytes_left self.old))) (length buf.old)) }
        ensures counted { next_read self.new ≡ min (next_read self.old + 1) (2 ^ 64 - 1) }
        ensures same_list { failing_reads self.new ≡ failing_reads self.old }
        ensures same_piece { read_piece self.new ≡ read_piece self.old }
    {
        let call = self.call;
        self.call = call.saturating_add(1);
        if self.fail.contains(&call) {
            self.faults = self.faults.saturating_add(1);
            return Err(Failed);
        }
        let n = copy_front(&self.bytes[self.at..], self.piece, buf);
        self.at += n;
        Ok(n)
    }
}

/// Lent bytes, read in pieces as long as the buffer. No read fails.
#[derive(Drop)]
pub struct PlainSource<'a> {
    rest: &'a [u8],
    calls: u64,
}

impl<'a> PlainSource<'a> {
    ghost use Rattle.bridge_outside.specs.Sources.{plain_left, plain_reads};

    /// A source of these bytes.
    pub fn new(bytes: &'a [u8]) -> Self
        ensures bytes { plain_left result ≡ bytes.entry.now }
        ensures calls { plain_reads result ≡ 0 }
    {
        PlainSource {
            rest: bytes,
            calls: 0,
        }
    }
}

impl Source for PlainSource<'_> {
    ghost use Rattle.bridge_outside.specs.Sources.{plain_reads, plain_source};

    ghost state = { λ it. plain_source it };

    fn read(&mut self, buf: &mut [u8]) -> Result<usize, Failed>
        ensures reads { Reads (plain_source self.old) (plain_source self.new)
            buf.old buf.new result }
        ensures never_fails { IsOk result }
        ensures counted { plain_reads self.new ≡ min (plain_reads self.old + 1) (2 ^ 64 - 1) }
    {
        self.calls = self.calls.saturating_add(1);
        let n = copy_front(self.rest, self.rest.len(), buf);
        self.rest = self.rest.split_at(n).1;
        Ok(n)
    }
}

/// One of std's readers, as standard input. Each read is one call of std, whose error is `Failed`.
/// It tells no bytes.
#[derive(Drop)]
pub struct StdSource<R> {
    reader: R,
    failures: u64,
    calls: u64,
}

impl<R: Read> StdSource<R> {
    ghost use Rattle.bridge_outside.specs.Sources.{std_reader, std_read_failures, std_reads};

    /// A source of what the reader gives.
    pub fn new(reader: R) -> StdSource<R>
        ensures reader { std_reader result ≡ reader }
        ensures faults { std_read_failures result ≡ 0 }
        ensures calls { std_reads result ≡ 0 }
    {
        StdSource {
            reader,
            failures: 0,
            calls: 0,
        }
    }
}

impl<R: Read> Source for StdSource<R> {
    ghost use Rattle.std.specs.Io.KnownBytes.{ReadConsumes};
    ghost use Rattle.bridge_outside.specs.Sources.{std_reader, std_reads, std_source};

    ghost state = { λ it. std_source it };

    fn read(&mut self, buf: &mut [u8]) -> Result<usize, Failed>
        ensures reads { Reads (std_source self.old) (std_source self.new) buf.old buf.new result }
        // Where the reader knows its bytes, these are the next of them.
        ensures bytes { ReadConsumes (R.remaining (std_reader self.old))
            (R.remaining (std_reader self.new)) result buf.new }
        ensures counted { std_reads self.new ≡ min (std_reads self.old + 1) (2 ^ 64 - 1) }
    {
        self.calls = self.calls.saturating_add(1);
        match self.reader.read(buf) {
            Ok(n) => Ok(n),
            Err(_) => {
                self.failures = self.failures.saturating_add(1);
                Err(Failed)
            }
        }
    }
}
