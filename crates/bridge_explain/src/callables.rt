//! Callables, by the names that a page prints.

ghost use Rattle.std.specs.Prelude.{◌≡◌, ◌++◌, codes, option_map, IfSome, IsSome, MatchOption, None};
ghost use Rattle.std.specs.List.{join_by};
ghost use Rattle.std.specs.Str.{bytes_eq};
ghost use Rattle.bridge_comparing.specs.Words.{once_taken};
ghost use Rattle.bridge_explain.specs.Explained.{callable_called};
ghost use Rattle.bridge_explain.specs.inside.Found.{FindsCallable};
ghost use Rattle.bridge_printing.specs.inside.Segments.{any_after, joined_after, root_text, separator_if};
ghost use Rattle.bridge_report.specs.Borrowings.{AreReported};
ghost use Rattle.bridge_report.specs.InContext.{callable_at, callables};
ghost use Rattle.bridge_report.specs.Places.{shown_place};
ghost use Rattle.hir_reports.specs.Places.{context_text, named_segments, subitem_segments};

use bridge_comparing::Comparing;
use bridge_decl::Text;
use bridge_report::{CallablePlace, CallableReport, place_of};
use hir_context::TypeContext;

/// Takes what stands between two segments, where there is one before.
fn take_colons(left: &mut Comparing<'_>, is_after: bool)
    ensures { left.new ≡ once_taken (separator_if is_after) left.old }
{
    if is_after {
        left.take("::");
    }
}

/// Takes a segment.
fn take_segment(left: &mut Comparing<'_>, is_after: bool, segment: &str)
    ensures { left.new ≡ once_taken (separator_if is_after ++ segment.now) left.old }
{
    take_colons(left, is_after);
    left.take(segment);
}

/// Takes the path of a module.
fn take_module(left: &mut Comparing<'_>, path: &[Text])
    ensures { left.new
        ≡ once_taken (join_by (λ segment. segment) (codes "::") path.now) left.old }
{
    for (place, segment) in path.iter().enumerate() {
        take_segment(left, place > 0, segment.as_str());
    }
}

/// Takes an item, unless its name is empty. The answer is whether there is a segment now.
fn take_item(left: &mut Comparing<'_>, is_after: bool, item: &str) -> bool
    ensures taken { left.new
        ≡ once_taken (joined_after is_after (named_segments item.now)) left.old }
    ensures any { result ≡ any_after is_after (named_segments item.now) }
{
    if item.is_empty() {
        return is_after;
    }
    take_segment(left, is_after, item);
    true
}

/// Takes the method, where there is one. The answer is whether there is a segment now.
fn take_method(left: &mut Comparing<'_>, is_after: bool, method: Option<&str>) -> bool
    ensures taken { left.new ≡ once_taken (joined_after is_after
        (subitem_segments (option_map (λ name. name.now) method.entry))) left.old }
    ensures any { result ≡ any_after is_after
        (subitem_segments (option_map (λ name. name.now) method.entry)) }
{
    match method {
        Some(name) => {
            take_segment(left, is_after, name);
            true
        }
        None => is_after,
    }
}

/// Takes what is printed where there is no segment.
fn take_root(left: &mut Comparing<'_>, is_after: bool)
    ensures { left.new ≡ once_taken (root_text is_after) left.old }
{
    if !is_after {
        left.take("root module");
    }
}

/// Whether a place is printed so.
fn is_printed_as(place: &CallablePlace<'_>, word: &str) -> bool
    ensures { result ≡ bytes_eq (context_text (shown_place place.now)) word.now }
{
    let mut left = Comparing::with(word);
    take_module(&mut left, place.module);
    let with_item = take_item(&mut left, !place.module.is_empty(), place.item);
    let with_method = take_method(&mut left, with_item, place.method);
    take_root(&mut left, with_method);
    left.is_whole()
}

/// Whether the callable of a report is printed so.
fn is_called(tcx: &TypeContext, report: &CallableReport, word: &str) -> bool
    requires { IsSome (callable_at tcx.now.definitions report.now.callable) }
    ensures { IfSome (callable_at tcx.now.definitions report.now.callable)
        (λ c. result ≡ bytes_eq (context_text c.place) word.now) }
{
    is_printed_as(&place_of(tcx, report.callable), word)
}

/// The report of the first callable that is printed so.
pub(crate) fn find_callable<'r>(
    tcx: &TypeContext,
    reports: &'r [CallableReport],
    word: &str,
) -> Option<&'r CallableReport>
    requires { AreReported (callables tcx.now.definitions) reports.now }
    ensures { MatchOption result
        (callable_called word.now (callables tcx.now.definitions) ≡ None)
        (λ report. FindsCallable tcx.now.definitions word.now report.now) }
{
    for report in reports {
        if is_called(tcx, report, word) {
            return Some(report);
        }
    }
    None
}
