//! The marks and the documents of declarations.

ghost use Rattle.std.specs.Prelude.{◌≡◌, IfOk, OnOk};
ghost use Rattle.hir_heads.specs.Heads.{notes_errors, notes_form};
ghost use Rattle.hir_reports.specs.Store.{Held, Keeps, added};

use bridge_decl::NoMemory;
use hir_attrs::Attrs;
use hir_backends::AttributeValidator;
use hir_docs::Docs;
use hir_mark_contexts::{MarkContext, tested_attrs};
use hir_reports::ErrorStore;
use std::alloc::Global;

/// What is noted of a declaration for a backend.
#[derive(Drop)]
pub struct Notes {
    /// What is documented.
    pub docs: Docs,
    /// Its marks.
    pub attrs: Attrs,
}

/// The marks of a declaration, which start from those of its parent, and its documents. What the
/// marks break is told, then what they break by what is marked, and then the faults of the documents'
/// conditions, in order. `NoMemory` where there is no memory for them or for the reports.
#[tactic(auto, using(hir_mark_contexts::proofs::Stores::told_both, hir_mark_contexts::proofs::Stores::added_keeps))]
pub fn lower_notes<V: AttributeValidator>(
    alloc: Global,
    docs: &bridge_decl::Docs,
    attrs: &bridge_decl::Attrs,
    context: MarkContext,
    parent: Attrs,
    validator: &V,
    errors: &mut ErrorStore<'_>,
) -> Result<Notes, NoMemory>
    ensures told { OnOk result (errors.new ≡ added errors.old
        (notes_errors (V.meaning validator.now) context parent docs.now attrs.now)) }
    ensures made { IfOk result (λ notes. notes
        ≡ notes_form (V.meaning validator.now) parent docs.now attrs.now) }
    ensures kept { (earlier : Held) → Keeps earlier errors.old → Keeps earlier errors.new }
{
    let attrs = tested_attrs(alloc, attrs, context, parent, validator, errors)?;
    let docs = Docs::from_ast(alloc, docs, validator, errors)?;
    Ok(Notes { docs, attrs })
}
