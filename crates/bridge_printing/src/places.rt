//! Places.

ghost use Rattle.std.specs.Prelude.{◌≡◌, ◌++◌, codes, option_map};
ghost use Rattle.std.specs.List.{join_by};
ghost use Rattle.bridge_outside.specs.Printing.{Prints, separator_at};
ghost use Rattle.bridge_printing.specs.inside.Segments.{any_after, joined_after, root_text, separator_if};
ghost use Rattle.hir_reports.specs.Places.{context_text, named_segments, subitem_segments};
ghost use Rattle.hir_reports.specs.Store.{at_place};

use bridge_decl::Text;
use bridge_outside::{Printer, Sink, put_separator, put_text};

/// What stands between two segments, where there is one before.
fn put_colons<K: Sink>(sink: &mut K, out: &mut Printer, after: bool)
    ensures { Prints (K.state sink.old) out.old (K.state sink.new) out.new (separator_if after) }
{
    if after {
        put_text(sink, out, "::");
    }
}

/// A segment.
fn put_segment<K: Sink>(sink: &mut K, out: &mut Printer, after: bool, segment: &str)
    ensures { Prints (K.state sink.old) out.old (K.state sink.new) out.new
        (separator_if after ++ segment.now) }
{
    put_colons(sink, out, after);
    put_text(sink, out, segment);
}

/// A segment of a module, after those before it.
fn put_module_segment<K: Sink>(sink: &mut K, out: &mut Printer, place: usize, segment: &Text)
    ensures { Prints (K.state sink.old) out.old (K.state sink.new) out.new
        (separator_at (codes "::") place ++ segment.now) }
{
    put_separator(sink, out, "::", place);
    put_text(sink, out, segment.as_str());
}

/// The path of a module.
fn put_module<K: Sink>(sink: &mut K, out: &mut Printer, path: &[Text])
    ensures { Prints (K.state sink.old) out.old (K.state sink.new) out.new
        (join_by (λ segment. segment) (codes "::") path.now) }
{
    for (place, segment) in path.iter().enumerate() {
        put_module_segment(sink, out, place, segment);
    }
}

/// An item, unless its name is empty. The answer is whether there is a segment now.
fn put_item<K: Sink>(sink: &mut K, out: &mut Printer, after: bool, item: &str) -> bool
    ensures printed { Prints (K.state sink.old) out.old (K.state sink.new) out.new
        (joined_after after (named_segments item.now)) }
    ensures any { result ≡ any_after after (named_segments item.now) }
{
    if item.is_empty() {
        return after;
    }
    put_segment(sink, out, after, item);
    true
}

/// The method, where there is one. The answer is whether there is a segment now.
fn put_method<K: Sink>(sink: &mut K, out: &mut Printer, after: bool, method: Option<&str>) -> bool
    ensures printed { Prints (K.state sink.old) out.old (K.state sink.new) out.new
        (joined_after after (subitem_segments (option_map (λ name. name.now) method.entry))) }
    ensures any { result
        ≡ any_after after (subitem_segments (option_map (λ name. name.now) method.entry)) }
{
    match method {
        Some(name) => {
            put_segment(sink, out, after, name);
            true
        }
        None => after,
    }
}

/// What is printed where there is no segment.
fn put_root<K: Sink>(sink: &mut K, out: &mut Printer, after: bool)
    ensures { Prints (K.state sink.old) out.old (K.state sink.new) out.new (root_text after) }
{
    if !after {
        put_text(sink, out, "root module");
    }
}

/// A place: the path of a module, an item, which is left out where its name is empty, and its method, where it is one, with `::` between
/// each two. Where there is none of these it is `root module`.
pub fn put_place<K: Sink>(
    sink: &mut K,
    out: &mut Printer,
    path: &[Text],
    item: &str,
    method: Option<&str>,
)
    ensures { Prints (K.state sink.old) out.old (K.state sink.new) out.new
        (context_text (at_place path.now item.now (option_map (λ name. name.now) method.entry))) }
{
    put_module(sink, out, path);
    let with_item = put_item(sink, out, !path.is_empty(), item);
    let with_method = put_method(sink, out, with_item, method);
    put_root(sink, out, with_method);
}
