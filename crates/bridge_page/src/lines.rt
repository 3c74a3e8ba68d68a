//! The lines of a returned lifetime.

ghost use Rattle.std.specs.Prelude.{◌≡◌, length};
ghost use Rattle.std.specs.List.{flat_map};
ghost use Rattle.bridge_outside.specs.Printing.{Prints};
ghost use Rattle.bridge_page.specs.inside.Printed.{paths_line, report_edges_line, returned_text};
ghost use Rattle.bridge_report.specs.Page.{opening};
ghost use Rattle.hir_life.specs.Naming.{printed_name};

use crate::edges::put_joined_edges;
use crate::paths::put_joined_paths;
use bridge_outside::{Printer, Sink, put_number, put_text};
use bridge_report::ReturnedLifetime;
use hir_context::TypeContext;
use hir_definitions::Method;
use hir_life::{Lifetime, LifetimeEnv, LifetimeName};

/// How many lifetimes have names: those that have none come last, so the last one tells.
fn count_names(env: &LifetimeEnv) -> usize
    ensures { result ≡ length env.now.bounds }
{
    let count = env.num_lifetimes();
    if count == 0 {
        return 0;
    }
    match env.fmt_lifetime(Lifetime::new(count - 1)) {
        LifetimeName::Named(_) => count,
        LifetimeName::Anonymous(before) => count - 1 - before,
    }
}

/// The name of a lifetime.
fn put_lifetime<K: Sink>(sink: &mut K, out: &mut Printer, env: &LifetimeEnv, lifetime: Lifetime)
    ensures { Prints (K.state sink.old) out.old (K.state sink.new) out.new
        (printed_name env.now lifetime) }
{
    match env.get_bounds(lifetime) {
        Some(bounds) => put_text(sink, out, bounds.ident.as_str()),
        None => {
            put_text(sink, out, "anon_");
            put_number(sink, out, lifetime.index() - count_names(env));
        }
    }
}

/// The space before a list that isn't empty.
fn put_opening<K: Sink>(sink: &mut K, out: &mut Printer, is_empty: bool)
    ensures { Prints (K.state sink.old) out.old (K.state sink.new) out.new (opening is_empty) }
{
    if !is_empty {
        put_text(sink, out, " ");
    }
}

/// The line of a returned lifetime with its leaves.
fn put_paths_line<K: Sink>(
    sink: &mut K,
    out: &mut Printer,
    tcx: &TypeContext,
    method: &Method,
    returned: &ReturnedLifetime,
)
    ensures { Prints (K.state sink.old) out.old (K.state sink.new) out.new
        (paths_line tcx.now.definitions method.now returned.now) }
{
    let lifetime = returned.lifetime;
    let paths = returned.leaves.as_slice();
    put_text(sink, out, "  lifetime ");
    put_number(sink, out, lifetime.index());
    put_text(sink, out, " ");
    put_lifetime(sink, out, &method.lifetime_env, lifetime);
    put_text(sink, out, ":");
    put_opening(sink, out, paths.is_empty());
    put_joined_paths(sink, out, tcx, method, paths);
    put_text(sink, out, "\n");
}

/// The line with its edges.
fn put_edges_line<K: Sink>(
    sink: &mut K,
    out: &mut Printer,
    method: &Method,
    returned: &ReturnedLifetime,
)
    ensures { Prints (K.state sink.old) out.old (K.state sink.new) out.new
        (report_edges_line method.now returned.now) }
{
    let edges = returned.edges.as_slice();
    put_text(sink, out, "  edges:");
    put_opening(sink, out, edges.is_empty());
    put_joined_edges(sink, out, method, edges);
    put_text(sink, out, "\n");
}

/// Both lines.
fn put_returned<K: Sink>(
    sink: &mut K,
    out: &mut Printer,
    tcx: &TypeContext,
    method: &Method,
    returned: &ReturnedLifetime,
)
    ensures { Prints (K.state sink.old) out.old (K.state sink.new) out.new
        (returned_text tcx.now.definitions method.now returned.now) }
{
    put_paths_line(sink, out, tcx, method, returned);
    put_edges_line(sink, out, method, returned);
}

/// The lines of all returned lifetimes of a callable.
pub(crate) fn put_all_returned<K: Sink>(
    sink: &mut K,
    out: &mut Printer,
    tcx: &TypeContext,
    method: &Method,
    returned: &[ReturnedLifetime],
)
    ensures { Prints (K.state sink.old) out.old (K.state sink.new) out.new
        (flat_map (returned_text tcx.now.definitions method.now) returned.now) }
{
    for lifetime in returned {
        put_returned(sink, out, tcx, method, lifetime);
    }
}
