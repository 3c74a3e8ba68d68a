//! The outside of a program: where its bytes come from, and where its text goes.
//!
//! A program that is handed
//!
//! ```json
//! {"root": {"items": [{"kind": "opaque", "name": "O", "methods": [{"name": "pick", ..}]}]}}
//! ```
//!
//! on standard input, and answers `callable O::pick` on standard output, knows neither of them: it reads a `Source` and writes to a
//! `Sink`. What there is to know of either is one record, which its `state` shows (specs/Outside): of a source the bytes that it has
//! left, how often a read failed and how often it was read; of a sink the bytes that it has taken, and how often a write failed.
//! The bytes are `None` where they aren't told, as those of standard input: then a promise that speaks of them says nothing, and
//! one that doesn't, as that on the number of reads, still holds.
//!
//! - One read moves the first bytes left to the front of a buffer: from `{"root": ..` in a buffer of four, `{"ro`, and `ot": ..` is
//!   left. It may give fewer than there is room for, and gives none only at the end. A read that fails leaves all as it was and
//!   raises the count of faults.
//! - `read_all` reads to the end, up to 2^26 bytes.
//! - One write takes the first bytes of a piece, at least one, or fails and takes none.
//! - A `Printer` writes pieces one after another, `callable `, `O`, `::`, `pick`: it holds them back until there are many, and takes no
//!   memory. Where a write fails it prints nothing more, and `finish` tells the fault once: so a text is written whole, or a first part
//!   of it and a fault.
//!
//! Each trait has three implementations: one over memory that moves so many bytes a call and fails at the calls that it is told
//! (`MemSource`, `MemSink`), one over memory that never fails (`PlainSource`, `PlainSink`), and one over std's readers and writers
//! (`StdSource`, `StdSink`), which tells no bytes.
#![tactic(auto)]

mod bytes;
mod printer;
mod sink;
mod source;
#[cfg(test)]
mod tests;

pub use bytes::{ReadFault, read_all};
pub use printer::{
    Printer, finish, print_line, put, put_line, put_number, put_separator, put_text,
};
pub use sink::{MemSink, PlainSink, Sink, SinkFault, StdSink};
pub use source::{Failed, MemSource, PlainSource, Source, StdSource};
