//! Tests, one module a subject.

mod bytes;
mod printer;
mod sink;
mod source;

use std::io::{self, ErrorKind, Read, Write};

/// The text that is read.
pub const TEXT: &[u8] = b"struct Opaque";

/// A reader, a writer and a flush that fail.
#[derive(Drop)]
pub struct Broken {
    /// Whether a write takes all; its flush fails anyway.
    pub writes: bool,
}

impl Read for Broken {
    fn read(&mut self, _: &mut [u8]) -> io::Result<usize> {
        Err(ErrorKind::Other.into())
    }
}

impl Write for Broken {
    fn write(&mut self, buf: &[u8]) -> io::Result<usize> {
        if self.writes {
            Ok(buf.len())
        } else {
            Err(ErrorKind::Other.into())
        }
    }

    fn flush(&mut self) -> io::Result<()> {
        Err(ErrorKind::Other.into())
    }
}
