//! The marks and the documents of a declaration, each by itself: of what is disabled the marks alone are read.

ghost use Rattle.std.specs.Prelude.{◌≡◌, IfOk, OnOk};
ghost use Rattle.hir_attrs.specs.Attrs.{empty_attrs};
ghost use Rattle.hir_attrs.specs.Reading.{marks_errors, marks_of};
ghost use Rattle.hir_docs.specs.Docs.{docs_errors, docs_for};
ghost use Rattle.hir_mark_contexts.specs.Told.{tested_errors};
ghost use Rattle.hir_reports.specs.Store.{Held, Keeps, added};

use bridge_decl::NoMemory;
use hir_attrs::Attrs;
use hir_backends::AttributeValidator;
use hir_docs::Docs;
use hir_mark_contexts::{MarkContext, tested_attrs};
use hir_reports::ErrorStore;
use std::alloc::Global;

/// The marks of a declaration that isn't tested by what is marked, a trait's method; they start from
/// those of its parent. What they break is told. `NoMemory` where there is no memory for them or for
/// the reports.
#[tactic(auto, using(hir_mark_contexts::proofs::Stores::added_keeps))]
pub fn read_marks<V: AttributeValidator>(
    alloc: Global,
    attrs: &bridge_decl::Attrs,
    parent: Attrs,
    validator: &V,
    errors: &mut ErrorStore<'_>,
) -> Result<Attrs, NoMemory>
    ensures told { OnOk result (errors.new
        ≡ added errors.old (marks_errors (V.meaning validator.now) attrs.now parent)) }
    ensures made { IfOk result
        (λ read. read ≡ marks_of (V.meaning validator.now) attrs.now parent) }
    ensures kept { (earlier : Held) → Keeps earlier errors.old → Keeps earlier errors.new }
{
    Attrs::from_ast(alloc, attrs, validator, parent, errors)
}

/// Those of a parameter or a receiver, which start from none, tested by which of the two is marked.
pub(crate) fn read_own_marks<V: AttributeValidator>(
    alloc: Global,
    attrs: &bridge_decl::Attrs,
    context: MarkContext,
    validator: &V,
    errors: &mut ErrorStore<'_>,
) -> Result<Attrs, NoMemory>
    ensures told { OnOk result (errors.new ≡ added errors.old
        (tested_errors (V.meaning validator.now) context attrs.now empty_attrs)) }
    ensures made { IfOk result
        (λ read. read ≡ marks_of (V.meaning validator.now) attrs.now empty_attrs) }
    ensures kept { (earlier : Held) → Keeps earlier errors.old → Keeps earlier errors.new }
{
    let start = Attrs::empty(alloc);
    tested_attrs(alloc, attrs, context, start, validator, errors)
}

/// The documents of a declaration. The faults of their conditions are told. `NoMemory` where there is no
/// memory for them or for the reports.
#[tactic(auto, using(hir_mark_contexts::proofs::Stores::added_keeps))]
pub fn read_docs<V: AttributeValidator>(
    alloc: Global,
    docs: &bridge_decl::Docs,
    validator: &V,
    errors: &mut ErrorStore<'_>,
) -> Result<Docs, NoMemory>
    ensures told { OnOk result (errors.new
        ≡ added errors.old (docs_errors (V.meaning validator.now) docs.now)) }
    ensures made { IfOk result (λ read. read ≡ docs_for (V.meaning validator.now) docs.now) }
    ensures kept { (earlier : Held) → Keeps earlier errors.old → Keeps earlier errors.new }
{
    Docs::from_ast(alloc, docs, validator, errors)
}
