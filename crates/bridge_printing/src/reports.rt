//! Reports.

ghost use Rattle.std.specs.Prelude.{◌≡◌, ◌++◌, option_map};
ghost use Rattle.std.specs.List.{flat_map};
ghost use Rattle.bridge_outside.specs.Printing.{Delivers, Prints};
ghost use Rattle.bridge_printing.specs.Lines.{lines, refused_line};
ghost use Rattle.hir_reports.specs.Texts.{place_line, report_text};

use crate::errors::put_error;
use crate::places::put_place;
use bridge_outside::{Printer, Sink, SinkFault, finish, put_number, put_text};
use hir_reports::{ErrorContext, LoweringReport};

/// The method that a place is.
fn method_of(context: &ErrorContext) -> Option<&str>
    ensures { option_map (λ name. name.now) result ≡ context.now.subitem }
{
    match &context.subitem {
        Some(name) => Some(name.as_str()),
        None => None,
    }
}

/// The line that tells the place, and the beginning of the next.
fn put_place_line<K: Sink>(sink: &mut K, out: &mut Printer, context: &ErrorContext)
    ensures { Prints (K.state sink.old) out.old (K.state sink.new) out.new
        (place_line context.now) }
{
    let method = method_of(context);
    put_text(sink, out, "Lowering error in ");
    put_place(
        sink,
        out,
        context.module.as_slice(),
        context.item.as_str(),
        method,
    );
    put_text(sink, out, "\n  ");
}

/// The two lines of a report.
fn put_report<K: Sink>(sink: &mut K, out: &mut Printer, report: &LoweringReport)
    ensures { Prints (K.state sink.old) out.old (K.state sink.new) out.new
        (report_text report.now) }
{
    put_place_line(sink, out, &report.context);
    put_error(sink, out, &report.error);
}

/// The lines of all reports.
fn put_reports<K: Sink>(sink: &mut K, out: &mut Printer, reports: &[LoweringReport])
    ensures { Prints (K.state sink.old) out.old (K.state sink.new) out.new
        (flat_map report_text reports.now) }
{
    for report in reports {
        put_report(sink, out, report);
    }
}

/// The line that says how many reports there are.
fn put_end<K: Sink>(sink: &mut K, out: &mut Printer, count: usize)
    ensures { Prints (K.state sink.old) out.old (K.state sink.new) out.new (refused_line count) }
{
    put_text(sink, out, "refused ");
    put_number(sink, out, count);
    put_text(sink, out, "\n");
}

/// Prints the two lines of each report, and last how many they are. Texts are lent by the reports: it takes no memory.
///
/// `Failed` where a write failed, `NoMemory` where a write wanted memory: then a first part of the lines is written.
pub fn print_reports<K: Sink>(sink: &mut K, reports: &[LoweringReport]) -> Result<(), SinkFault>
    ensures { Delivers (K.state sink.old) (K.state sink.new) (lines reports.now) result }
{
    let mut out = Printer::new();
    put_reports(sink, &mut out, reports);
    put_end(sink, &mut out, reports.len());
    finish(sink, &mut out)
}
