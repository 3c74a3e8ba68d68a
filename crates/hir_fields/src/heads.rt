//! What a field has beside its type, and a variant beside its number.

ghost use Rattle.std.specs.Prelude.{◌≡◌, IfOk, IfSome, OnOk, length, map};
ghost use Rattle.hir_attrs.specs.Attrs.{empty_attrs};
ghost use Rattle.hir_fields.specs.Heads.{field_heads_errors, head_errors};
ghost use Rattle.hir_fields.specs.inside.Heads.{field_head, head_form};
ghost use Rattle.hir_heads.specs.Told.{MadeUnlessTold};
ghost use Rattle.hir_reports.specs.Store.{Held, Keeps, added};

use crate::gathering::with_next;
use bridge_decl::{Field, IdentBuf, Items, NoMemory, Text};
use hir_attrs::Attrs;
use hir_backends::AttributeValidator;
use hir_heads::{Notes, lower_ident, lower_notes};
use hir_mark_contexts::MarkContext;
use hir_reports::ErrorStore;
use std::alloc::Global;

/// What a field has beside its type, or a variant beside its number.
#[derive(Drop)]
pub struct Head {
    /// The name.
    pub name: IdentBuf,
    /// The marks and the documents.
    pub notes: Notes,
}

/// The name, and the marks, which start from a set, with the documents. All that is wrong with them
/// is told.
pub fn lower_head<V: AttributeValidator>(
    alloc: Global,
    name: &Text,
    docs: &bridge_decl::Docs,
    attrs: &bridge_decl::Attrs,
    context: MarkContext,
    start: Attrs,
    validator: &V,
    errors: &mut ErrorStore<'_>,
) -> Result<Option<Head>, NoMemory>
    ensures told { OnOk result (errors.new ≡ added errors.old
        (head_errors (V.meaning validator.now) context start name.now docs.now attrs.now)) }
    ensures made { IfOk result (MadeUnlessTold
        (head_errors (V.meaning validator.now) context start name.now docs.now attrs.now)
        (head_form (V.meaning validator.now) start name.now docs.now attrs.now)) }
    ensures kept { (earlier : Held) → Keeps earlier errors.old → Keeps earlier errors.new }
{
    let name = lower_ident(alloc, name, errors)?;
    let notes = lower_notes(alloc, docs, attrs, context, start, validator, errors)?;
    match name {
        Some(name) => Ok(Some(Head { name, notes })),
        None => Ok(None),
    }
}

/// Those of the fields of a struct, in order.
pub fn lower_heads<V: AttributeValidator>(
    alloc: Global,
    fields: &[Field],
    context: MarkContext,
    validator: &V,
    errors: &mut ErrorStore<'_>,
) -> Result<Option<Items<Head>>, NoMemory>
    ensures told { OnOk result (errors.new ≡ added errors.old
        (field_heads_errors (V.meaning validator.now) context fields.now)) }
    ensures made { IfOk result (MadeUnlessTold
        (field_heads_errors (V.meaning validator.now) context fields.now)
        (map (field_head (V.meaning validator.now)) fields.now)) }
    ensures each { IfOk result
        (λ made. IfSome made (λ heads. length heads ≡ length fields.now)) }
    ensures kept { (earlier : Held) → Keeps earlier errors.old → Keeps earlier errors.new }
{
    let mut made = Some(Items::new(alloc));
    for field in fields {
        let start = Attrs::empty(alloc);
        let head = lower_head(
            alloc,
            &field.name,
            &field.docs,
            &field.attrs,
            context,
            start,
            validator,
            errors,
        )?;
        made = with_next(made, head)?;
    }
    Ok(made)
}
