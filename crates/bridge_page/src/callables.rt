//! The page of the callables of a context.

ghost use Rattle.std.specs.Prelude.{◌++◌, codes, IfSome, IsSome};
ghost use Rattle.std.specs.List.{flat_map};
ghost use Rattle.bridge_outside.specs.Printing.{Prints};
ghost use Rattle.bridge_page.specs.Printing.{DeliversPage};
ghost use Rattle.bridge_page.specs.inside.Printed.{callable_line, callable_text, end_line};
ghost use Rattle.bridge_report.specs.Borrowings.{AreReported};
ghost use Rattle.bridge_report.specs.InContext.{callable_at, callables};
ghost use Rattle.hir_mentions.specs.Mentions.{where_any};

use crate::lines::put_all_returned;
use bridge_outside::{Printer, Sink, SinkFault, finish, put_number, put_text};
use bridge_printing::put_place;
use bridge_report::{CallableReport, method_of, place_of};
use hir_context::TypeContext;
use hir_ids::TypeId;

/// The line that says where the callable of a report is declared.
fn put_callable_line<K: Sink>(
    sink: &mut K,
    out: &mut Printer,
    tcx: &TypeContext,
    report: &CallableReport,
)
    requires { IsSome (callable_at tcx.now.definitions report.now.callable) }
    ensures { Prints (K.state sink.old) out.old (K.state sink.new) out.new
        (where_any callable_line (callable_at tcx.now.definitions report.now.callable)) }
{
    let place = place_of(tcx, report.callable);
    put_text(sink, out, "callable ");
    put_place(sink, out, place.module, place.item, place.method);
    put_text(sink, out, "\n");
}

/// A callable, with what its result may borrow.
fn put_callable<K: Sink>(
    sink: &mut K,
    out: &mut Printer,
    tcx: &TypeContext,
    report: &CallableReport,
)
    requires { IsSome (callable_at tcx.now.definitions report.now.callable) }
    ensures { Prints (K.state sink.old) out.old (K.state sink.new) out.new
        (callable_text tcx.now.definitions report.now) }
{
    let method = method_of(tcx, report.callable);
    put_callable_line(sink, out, tcx, report);
    put_all_returned(sink, out, tcx, method, report.returned.as_slice());
}

/// All callables, with what their results may borrow.
fn put_callables<K: Sink>(
    sink: &mut K,
    out: &mut Printer,
    tcx: &TypeContext,
    reports: &[CallableReport],
)
    requires { AreReported (callables tcx.now.definitions) reports.now }
    ensures { Prints (K.state sink.old) out.old (K.state sink.new) out.new
        (flat_map (callable_text tcx.now.definitions) reports.now) }
{
    for report in reports {
        put_callable(sink, out, tcx, report);
    }
}

/// The line that ends a page, which has so many callables.
fn put_end<K: Sink>(sink: &mut K, out: &mut Printer, count: usize)
    ensures { Prints (K.state sink.old) out.old (K.state sink.new) out.new (end_line count) }
{
    put_text(sink, out, "ok ");
    put_number(sink, out, count);
    put_text(sink, out, "\n");
}

/// Prints the page of the callables of a context, which have these reports, and nothing else. Names are lent by the context: it takes no
/// memory.
///
/// `Failed` where a write failed, `NoMemory` where a write wanted memory: then a first part of the page is written.
pub fn print_page<K: Sink>(
    sink: &mut K,
    tcx: &TypeContext,
    reports: &[CallableReport],
) -> Result<(), SinkFault>
    requires reported { AreReported (callables tcx.now.definitions) reports.now }
    ensures { DeliversPage (callables tcx.now.definitions) (K.state sink.old) (K.state sink.new)
        result }
{
    let mut out = Printer::new();
    put_callables(sink, &mut out, tcx, reports);
    put_end(sink, &mut out, reports.len());
    finish(sink, &mut out)
}
