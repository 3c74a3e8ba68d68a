//! The texts of broken rules.

ghost use Rattle.std.specs.Prelude.{◌++◌, map};
ghost use Rattle.bridge_outside.specs.Printing.{Prints};
ghost use Rattle.bridge_printing.specs.inside.Arguments.{argument_before};
ghost use Rattle.hir_reports.specs.Texts.{error_line, error_text, woven};

use bridge_decl::Text;
use bridge_outside::{Printer, Sink, put_text};
use hir_reports::LoweringError;

/// The argument before the piece at a place of a text, where there is one.
fn put_argument<K: Sink>(sink: &mut K, out: &mut Printer, args: &[Text], place: usize)
    ensures { Prints (K.state sink.old) out.old (K.state sink.new) out.new
        (argument_before args.now place) }
{
    if place == 0 {
        return;
    }
    match args.get(place - 1) {
        Some(arg) => put_text(sink, out, arg.as_str()),
        None => {}
    }
}

/// The piece at a place of a text, after its argument.
fn put_piece<K: Sink>(sink: &mut K, out: &mut Printer, args: &[Text], place: usize, piece: &str)
    ensures { Prints (K.state sink.old) out.old (K.state sink.new) out.new
        (argument_before args.now place ++ piece.now) }
{
    put_argument(sink, out, args, place);
    put_text(sink, out, piece);
}

/// Pieces of a text with an argument between each two. Arguments past the last piece are left out, and so is what has none.
fn put_woven<K: Sink>(sink: &mut K, out: &mut Printer, pieces: &[&str], args: &[Text])
    ensures { Prints (K.state sink.old) out.old (K.state sink.new) out.new
        (woven (map (λ piece. piece.now) pieces.entry.now) args.now) }
{
    for (place, piece) in pieces.iter().enumerate() {
        put_piece(sink, out, args, place, piece);
    }
}

/// The text of a broken rule.
fn put_error_text<K: Sink>(sink: &mut K, out: &mut Printer, error: &LoweringError)
    ensures { Prints (K.state sink.old) out.old (K.state sink.new) out.new (error_text error.now) }
{
    put_woven(sink, out, error.pieces(), error.args.as_slice());
}

/// A broken rule: its name and its text.
pub(crate) fn put_error<K: Sink>(sink: &mut K, out: &mut Printer, error: &LoweringError)
    ensures { Prints (K.state sink.old) out.old (K.state sink.new) out.new (error_line error.now) }
{
    put_text(sink, out, error.rule.name());
    put_text(sink, out, ": ");
    put_error_text(sink, out, error);
    put_text(sink, out, "\n");
}
