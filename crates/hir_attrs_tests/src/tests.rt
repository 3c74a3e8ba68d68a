//! What all tests use.

mod arguments;
mod conditions;
mod includes;
mod inheritance;
mod links;
mod modules;
mod notation;
mod rendering;
mod repeated;
mod reports;
mod rows;
mod special;
mod support;
mod values;

use bridge_decl::{NoMemory, Text};
use hir_attrs::{
    Attrs, BackendAttrSupport, BasicAttributeValidator, ErrorStore, Names, Pairs, SupportFlag,
};
use notation::{marked, texts};
use rendering::render;
use std::alloc::Global;
use std::process::Abort;

/// What a backend supports: nothing, or everything.
fn supported(is_able: bool) -> BackendAttrSupport {
    let mut support = BackendAttrSupport::none();
    if is_able {
        for flag in SupportFlag::all() {
            support = support.with(*flag);
        }
    }
    support
}

/// The backend `cpp`, which supports nothing, or everything.
fn backend(alloc: Global, is_able: bool) -> Result<BasicAttributeValidator, NoMemory> {
    let mut backend = BasicAttributeValidator::new(alloc, "cpp")?;
    backend.support = supported(is_able);
    Ok(backend)
}

/// The names that a text has, with spaces between them.
fn names(alloc: Global, text: &str) -> Result<Names, NoMemory> {
    Names::new(alloc, texts(alloc, text)?)
}

/// The backend `cpp` with that support and these pairs, and with other names, features that are enabled, and unstable ones, as `names`
/// reads them.
fn knowing(
    alloc: Global,
    support: BackendAttrSupport,
    name_values: Pairs,
    (others, enabled, unstable): (&str, &str, &str),
) -> Result<BasicAttributeValidator, NoMemory> {
    let backend_name = Text::new(alloc, "cpp")?;
    let other_backend_names = names(alloc, others)?;
    let features_enabled = names(alloc, enabled)?;
    let semver_unstable_features = names(alloc, unstable)?;
    Ok(BasicAttributeValidator {
        backend_name,
        support,
        other_backend_names,
        name_values,
        features_enabled,
        semver_unstable_features,
    })
}

/// The set that a declaration's marks come to for a backend, whatever they break, where nothing is taken over.
fn set_of(
    alloc: Global,
    backend: &BasicAttributeValidator,
    declared: &bridge_decl::Attrs,
) -> Result<Attrs, NoMemory> {
    let mut errors = ErrorStore::new(alloc);
    Attrs::from_ast(alloc, declared, backend, Attrs::empty(alloc), &mut errors)
}

/// A set with the rules that are told.
fn rendered(alloc: Global, attrs: &Attrs, errors: &mut ErrorStore<'_>) -> Result<String, NoMemory> {
    let reports = errors.take_errors();
    render(alloc, attrs, reports.as_slice())
}

/// What a declaration's marks come to for a backend, and which rules they break, where that set is taken over.
fn read_over(
    alloc: Global,
    backend: &BasicAttributeValidator,
    parent: Attrs,
    declared: &bridge_decl::Attrs,
) -> Result<String, NoMemory> {
    let mut errors = ErrorStore::new(alloc);
    let attrs = Attrs::from_ast(alloc, declared, backend, parent, &mut errors)?;
    rendered(alloc, &attrs, &mut errors)
}

/// What marks come to for a backend, and which rules they break, where nothing is taken over.
fn read(alloc: Global, backend: &BasicAttributeValidator, marks: &str) -> Result<String, NoMemory> {
    let declared = marked(alloc, marks)?;
    read_over(alloc, backend, Attrs::empty(alloc), &declared)
}

/// Tests that marks come to these texts for a backend.
fn compare_for(
    rt: &impl Abort,
    alloc: Global,
    backend: &BasicAttributeValidator,
    rows: &[(&str, &str)],
) -> Result<(), NoMemory> {
    for (marks, text) in rows {
        assert!(rt; read(alloc, backend, marks)?.as_str() == *text);
    }
    Ok(())
}

/// Tests that marks come to these texts for a backend that supports everything.
fn compare(rt: &impl Abort, alloc: Global, rows: &[(&str, &str)]) -> Result<(), NoMemory> {
    let backend = backend(alloc, true)?;
    compare_for(rt, alloc, &backend, rows)
}
