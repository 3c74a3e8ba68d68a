//! The summary of the reports of a context.

ghost use Rattle.std.specs.Prelude.{◌≡◌, ◌++◌, List, codes, decimal, length, min, sum_by};
ghost use Rattle.bridge_outside.specs.Printing.{Prints};
ghost use Rattle.bridge_report.specs.Borrowings.{AreReported};
ghost use Rattle.bridge_report.specs.Callables.{Callable};
ghost use Rattle.bridge_summary.specs.Summary.{DeliversSummary, most_listed, summary_text};
ghost use Rattle.bridge_summary.specs.inside.Counted.{listed_in};

use bridge_outside::{Printer, Sink, SinkFault, finish, put_number, put_text};
use bridge_report::CallableReport;

/// How many leaves a report lists under all lifetimes together.
fn listed_in(report: &CallableReport) -> usize
    ensures { result ≡ min most_listed (listed_in report.now) }
{
    let mut listed = 0_usize;
    for returned in report.returned.as_slice() {
        listed = listed.saturating_add(returned.leaves.len());
    }
    listed
}

/// How many leaves all reports list.
fn listed_in_all(reports: &[CallableReport]) -> usize
    ensures { result ≡ min most_listed (sum_by listed_in reports.now) }
{
    let mut listed = 0_usize;
    for report in reports {
        listed = listed.saturating_add(listed_in(report));
    }
    listed
}

/// The three lines.
fn put_summary<K: Sink>(sink: &mut K, out: &mut Printer, callables: usize, listed: usize)
    ensures { Prints (K.state sink.old) out.old (K.state sink.new) out.new
        (summary_text callables listed) }
{
    put_text(sink, out, "callables ");
    put_number(sink, out, callables);
    put_text(sink, out, "\nlisted ");
    put_number(sink, out, listed);
    put_text(sink, out, "\nok\n");
}

/// Prints how many callables have these reports and how many leaves are listed in all, in three lines and nothing else. It takes no memory.
///
/// `Failed` where a write failed, `NoMemory` where a write wanted memory: then a first part of the lines is written.
pub fn print_summary<K: Sink>(sink: &mut K, reports: &[CallableReport]) -> Result<(), SinkFault>
    ensures { (callables : List Callable) → AreReported callables reports.now
        → DeliversSummary callables (K.state sink.old) (K.state sink.new) result }
{
    let mut out = Printer::new();
    put_summary(sink, &mut out, reports.len(), listed_in_all(reports));
    finish(sink, &mut out)
}
