//! The line that declines an input.

ghost use Rattle.bridge_tool.specs.Declining.{at_pointer, fault_line, fault_place};
ghost use Rattle.bridge_outside.specs.Printing.{Delivers, Prints};

use bridge_outside::{Printer, Sink, SinkFault, finish, put_text};
use bridge_read::InputKind;

fn put_pointer<K: Sink>(sink: &mut K, out: &mut Printer, pointer: &str)
    ensures { Prints (K.state sink.old) out.old (K.state sink.new) out.new
        (at_pointer pointer.now) }
{
    put_text(sink, out, " at \"");
    put_text(sink, out, pointer);
    put_text(sink, out, "\"");
}

/// Where a fault stands, after its kind.
fn put_fault_place<K: Sink>(sink: &mut K, out: &mut Printer, kind: InputKind, pointer: &str)
    ensures { Prints (K.state sink.old) out.old (K.state sink.new) out.new
        (fault_place kind pointer.now) }
{
    match kind {
        InputKind::NotJson => {}
        _ => put_pointer(sink, out, pointer),
    }
}

/// Prints the line of a fault of an input, and nothing else. It takes no memory.
///
/// `Failed` where a write failed, `NoMemory` where a write wanted memory: then a first part of the line is written.
pub fn print_fault<K: Sink>(sink: &mut K, kind: InputKind, pointer: &str) -> Result<(), SinkFault>
    ensures { Delivers (K.state sink.old) (K.state sink.new) (fault_line kind pointer.now) result }
{
    let mut out = Printer::new();
    put_text(sink, &mut out, "input: ");
    put_text(sink, &mut out, kind.text());
    put_fault_place(sink, &mut out, kind, pointer);
    put_text(sink, &mut out, "\n");
    finish(sink, &mut out)
}
