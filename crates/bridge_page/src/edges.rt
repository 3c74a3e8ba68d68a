//! Edges.

ghost use Rattle.std.specs.Prelude.{◌++◌, codes, decimal};
ghost use Rattle.std.specs.List.{join_by};
ghost use Rattle.bridge_outside.specs.Printing.{Prints, separator_at};
ghost use Rattle.bridge_page.specs.inside.Printed.{input_name, report_edge_text};
ghost use Rattle.bridge_report.specs.Page.{optional_text};

use crate::inputs::put_input;
use bridge_outside::{Printer, Sink, put_number, put_separator, put_text};
use bridge_report::{InputPlace, ReportEdge, ReportEdgeKind};
use hir_definitions::Method;

/// Whether a struct stands in an option.
fn put_optional<K: Sink>(sink: &mut K, out: &mut Printer, is_optional: bool)
    ensures { Prints (K.state sink.old) out.old (K.state sink.new) out.new
        (optional_text is_optional) }
{
    if is_optional {
        put_text(sink, out, " optional");
    }
}

/// An edge to what a struct borrows for its lifetime of this number.
fn put_struct_edge<K: Sink>(
    sink: &mut K,
    out: &mut Printer,
    method: &Method,
    input: InputPlace,
    lifetime: usize,
    is_optional: bool,
)
    ensures { Prints (K.state sink.old) out.old (K.state sink.new) out.new
        (codes "struct " ++ input_name method.now input ++ codes " " ++ decimal lifetime
        ++ optional_text is_optional) }
{
    put_text(sink, out, "struct ");
    put_input(sink, out, method, input);
    put_text(sink, out, " ");
    put_number(sink, out, lifetime);
    put_optional(sink, out, is_optional);
}

/// An edge.
fn put_edge<K: Sink>(sink: &mut K, out: &mut Printer, method: &Method, edge: &ReportEdge)
    ensures { Prints (K.state sink.old) out.old (K.state sink.new) out.new
        (report_edge_text method.now edge.now) }
{
    match edge.kind {
        ReportEdgeKind::Opaque => {
            put_text(sink, out, "opaque ");
            put_input(sink, out, method, edge.input);
        }
        ReportEdgeKind::Slice => {
            put_text(sink, out, "slice ");
            put_input(sink, out, method, edge.input);
        }
        ReportEdgeKind::Struct(lifetime, is_optional) => {
            put_struct_edge(sink, out, method, edge.input, lifetime.index(), is_optional);
        }
    }
}

/// An edge, after what stands before it in its list.
fn put_edge_at<K: Sink>(
    sink: &mut K,
    out: &mut Printer,
    method: &Method,
    place: usize,
    edge: &ReportEdge,
)
    ensures { Prints (K.state sink.old) out.old (K.state sink.new) out.new
        (separator_at (codes ", ") place ++ report_edge_text method.now edge.now) }
{
    put_separator(sink, out, ", ", place);
    put_edge(sink, out, method, edge);
}

/// Edges, with a comma between each two.
pub(crate) fn put_joined_edges<K: Sink>(
    sink: &mut K,
    out: &mut Printer,
    method: &Method,
    edges: &[ReportEdge],
)
    ensures { Prints (K.state sink.old) out.old (K.state sink.new) out.new
        (join_by (report_edge_text method.now) (codes ", ") edges.now) }
{
    for (place, edge) in edges.iter().enumerate() {
        put_edge_at(sink, out, method, place, edge);
    }
}
