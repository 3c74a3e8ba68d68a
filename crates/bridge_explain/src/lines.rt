//! The lines of explanations.

ghost use Rattle.std.specs.Prelude.{◌++◌, codes, decimal};
ghost use Rattle.bridge_explain.specs.Lines.{explanation_line, spaced_numbers};
ghost use Rattle.bridge_outside.specs.Printing.{Delivers, Prints};

use bridge_outside::{Printer, Sink, SinkFault, finish, put_number, put_text};
use hir_explain::Explanation;
use hir_life::Lifetime;

/// A number after a space.
fn put_after_space<K: Sink>(sink: &mut K, out: &mut Printer, lifetime: Lifetime)
    ensures { Prints (K.state sink.old) out.old (K.state sink.new) out.new
        (codes " " ++ decimal lifetime) }
{
    put_text(sink, out, " ");
    put_number(sink, out, lifetime.index());
}

/// Numbers, each after a space.
fn put_spaced<K: Sink>(sink: &mut K, out: &mut Printer, lifetimes: &[Lifetime])
    ensures { Prints (K.state sink.old) out.old (K.state sink.new) out.new
        (spaced_numbers lifetimes.now) }
{
    for lifetime in lifetimes {
        put_after_space(sink, out, *lifetime);
    }
}

/// The line of an explanation.
fn put_explanation<K: Sink>(sink: &mut K, out: &mut Printer, explanation: &Explanation)
    ensures { Prints (K.state sink.old) out.old (K.state sink.new) out.new
        (explanation_line explanation.now) }
{
    match explanation {
        Explanation::Chain(chain) => {
            put_text(sink, out, "chain");
            put_spaced(sink, out, chain.as_slice());
            put_text(sink, out, "\n");
        }
        Explanation::Separating(long) => {
            put_text(sink, out, "long");
            put_spaced(sink, out, long.as_slice());
            put_text(sink, out, "\n");
        }
    }
}

/// Prints an explanation as a line, and nothing else: `chain 1 0`, the lifetimes of a chain, or `long 1`, those that are long. It takes no
/// memory.
///
/// `Failed` where a write failed, `NoMemory` where a write wanted memory: then a first part of the line is written.
pub fn print_explanation<K: Sink>(sink: &mut K, explanation: &Explanation) -> Result<(), SinkFault>
    ensures { Delivers (K.state sink.old) (K.state sink.new) (explanation_line explanation.now)
        result }
{
    let mut out = Printer::new();
    put_explanation(sink, &mut out, explanation);
    finish(sink, &mut out)
}
