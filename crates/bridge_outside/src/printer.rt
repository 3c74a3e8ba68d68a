//! Printing that takes no memory of its own: pieces are held back in a small buffer on the stack,
//! and a fault stays until the end.

ghost use Rattle.std.specs.Prelude.{◌≡◌, ◌+◌, ◌≤◌, ◌++◌, [], IsNone, length, codes, decimal};
ghost use Rattle.bridge_outside.specs.Printing.{Prints, Delivers, IsEndOf, begins, separator_at};

use crate::sink::{Sink, SinkFault};
use itoa::Buffer;
use std::marker::Model;

// How many bytes are held back at most.
const ROOM: usize = 1024;

/// What is printed and not yet written, and the fault that a write met.
#[derive(Drop)]
pub struct Printer {
    buffer: [u8; ROOM],
    len: usize,
    fault: Option<SinkFault>,
}

impl Model for Printer {
    ghost use Rattle.std.specs.Prelude.{◌≤◌, take};
    ghost use Rattle.bridge_outside.specs.Printing.{Printing};

    ghost Value = { Printing };

    ghost view = { λ it. record { held = take it.len it.buffer; fault = it.fault } };

    ghost invariant = { λ it. it.len ≤ 1024 };
}

impl Printer {
    /// A printer that holds nothing back.
    pub fn new() -> Self
        ensures { result ≡ begins }
    {
        Printer {
            buffer: [0; ROOM],
            len: 0,
            fault: None,
        }
    }

    // The room left.
    fn room(&self) -> usize
        ensures { length self.now.held + result ≡ 1024 }
    {
        ROOM - self.len
    }

    // Holds a piece back.
    fn hold(&mut self, piece: &[u8])
        requires { length self.old.held + length piece.now ≤ 1024 }
        ensures held { self.new.held ≡ self.old.held ++ piece.now }
        ensures fault { self.new.fault ≡ self.old.fault }
    {
        let end = self.len + piece.len();
        self.buffer[self.len..end].copy_from_slice(piece);
        self.len = end;
    }

    // The bytes held back.
    fn held(&self) -> &[u8]
        ensures { result.now ≡ self.now.held }
    {
        &self.buffer[..self.len]
    }

    // The fault that a write met.
    fn fault(&self) -> Option<SinkFault>
        ensures { result ≡ self.now.fault }
    {
        self.fault
    }

    // After a write of all that was held back: nothing is held, or the fault is kept.
    fn settle(&mut self, sent: Result<(), SinkFault>)
        requires { IsNone self.old.fault }
        ensures { IsEndOf self.new sent }
    {
        match sent {
            Ok(()) => self.len = 0,
            Err(fault) => self.fault = Some(fault),
        }
    }
}

// Writes a whole piece, or up to a fault.
fn send<K: Sink>(sink: &mut K, piece: &[u8]) -> Result<(), SinkFault>
    ensures { Delivers (K.state sink.old) (K.state sink.new) piece.now result }
{
    let mut done = 0;
    while done < piece.len() {
        match sink.write(piece.split_at(done).1) {
            Ok(n) => done += n,
            Err(fault) => return Err(fault),
        }
    }
    Ok(())
}

// Writes what is held back.
fn flush<K: Sink>(sink: &mut K, out: &mut Printer)
    ensures prints { Prints (K.state sink.old) out.old (K.state sink.new) out.new [] }
    ensures empty { IsNone out.new.fault → out.new.held ≡ [] }
{
    if out.fault().is_none() {
        let sent = send(sink, out.held());
        out.settle(sent);
    }
}

// Prints a piece where nothing is held back.
fn put_first<K: Sink>(sink: &mut K, out: &mut Printer, piece: &[u8])
    requires { IsNone out.old.fault → out.old.held ≡ [] }
    ensures { Prints (K.state sink.old) out.old (K.state sink.new) out.new piece.now }
{
    if out.fault().is_some() {
        return;
    }
    if piece.len() <= ROOM {
        out.hold(piece);
    } else {
        let sent = send(sink, piece);
        out.settle(sent);
    }
}

/// Prints these bytes.
pub fn put<K: Sink>(sink: &mut K, out: &mut Printer, piece: &[u8])
    ensures { Prints (K.state sink.old) out.old (K.state sink.new) out.new piece.now }
{
    if piece.len() <= out.room() && out.fault().is_none() {
        out.hold(piece);
    } else {
        put_after_flush(sink, out, piece);
    }
}

// Writes what is held back, and prints a piece.
fn put_after_flush<K: Sink>(sink: &mut K, out: &mut Printer, piece: &[u8])
    ensures { Prints (K.state sink.old) out.old (K.state sink.new) out.new piece.now }
{
    flush(sink, out);
    put_first(sink, out, piece);
}

/// Prints this text.
pub fn put_text<K: Sink>(sink: &mut K, out: &mut Printer, text: &str)
    ensures { Prints (K.state sink.old) out.old (K.state sink.new) out.new text.now }
{
    put(sink, out, text.as_bytes());
}

/// Prints a number in decimal.
pub fn put_number<K: Sink>(sink: &mut K, out: &mut Printer, n: usize)
    ensures { Prints (K.state sink.old) out.old (K.state sink.new) out.new (decimal n) }
{
    let mut digits = Buffer::new();
    put(sink, out, digits.format(n).as_bytes());
}

/// Prints a text and the end of its line.
pub fn put_line<K: Sink>(sink: &mut K, out: &mut Printer, text: &str)
    ensures { Prints (K.state sink.old) out.old (K.state sink.new) out.new
        (text.now ++ codes "\n") }
{
    put_text(sink, out, text);
    put(sink, out, b"\n");
}

/// Prints what stands before the piece at a place of a list: the separator, but for the first.
pub fn put_separator<K: Sink>(sink: &mut K, out: &mut Printer, separator: &str, place: usize)
    ensures { Prints (K.state sink.old) out.old (K.state sink.new) out.new
        (separator_at separator.now place) }
{
    if place > 0 {
        put_text(sink, out, separator);
    }
}

/// Writes what is held back. Ok where all that was printed is written. `Failed` where a write
/// failed since the printing began, `NoMemory` where a write wanted memory: then a first part of
/// what was printed is written.
pub fn finish<K: Sink>(sink: &mut K, out: &mut Printer) -> Result<(), SinkFault>
    ensures prints { Prints (K.state sink.old) out.old (K.state sink.new) out.new [] }
    ensures end { IsEndOf out.new result }
{
    flush(sink, out);
    match out.fault() {
        None => Ok(()),
        Some(fault) => Err(fault),
    }
}

/// Writes a text and the end of its line, and nothing else. `Failed` where a write failed,
/// `NoMemory` where a write wanted memory: then a first part of it is written.
pub fn print_line<K: Sink>(sink: &mut K, text: &str) -> Result<(), SinkFault>
    ensures { Delivers (K.state sink.old) (K.state sink.new) (text.now ++ codes "\n") result }
{
    let mut out = Printer::new();
    put_line(sink, &mut out, text);
    finish(sink, &mut out)
}
