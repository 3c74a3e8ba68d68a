//! A text that stands before it is printed.

ghost use Rattle.bridge_outside.specs.Printing.{Delivers};

use bridge_outside::{Printer, Sink, SinkFault, finish, put_text};

/// Prints a text, and nothing else. It takes no memory.
///
/// `Failed` where a write failed, `NoMemory` where a write wanted memory: then a first part of the text is written.
pub fn print_text<K: Sink>(sink: &mut K, text: &str) -> Result<(), SinkFault>
    ensures { Delivers (K.state sink.old) (K.state sink.new) text.now result }
{
    let mut out = Printer::new();
    put_text(sink, &mut out, text);
    finish(sink, &mut out)
}
