//! What items have beside types: marks, documents, names and lifetimes.

ghost use Rattle.std.specs.Prelude.{◌≡◌, ◌++◌, IfOk, OnOk};
ghost use Rattle.bridge_decl.specs.Lifetimes.{IsSoundEnvironment};
ghost use Rattle.hir_heads.specs.Heads.{lifetime_errors, notes_errors, notes_form};
ghost use Rattle.hir_heads.specs.Names.{name_errors};
ghost use Rattle.hir_heads.specs.Told.{MadeUnlessTold};
ghost use Rattle.hir_items.specs.Inheriting.{item_start};
ghost use Rattle.hir_items.specs.inside.Titles.{title_form, titled};
ghost use Rattle.hir_reports.specs.Store.{Held, Keeps, added};

use crate::loans::Lowering;
use bridge_decl::{AttrInheritContext, IdentBuf, LifetimeEnv as Declared, NoMemory, Text};
use hir_attrs::Attrs;
use hir_backends::AttributeValidator;
use hir_heads::{Notes, lower_ident, lower_lifetimes, lower_notes};
use hir_life::LifetimeEnv;
use hir_mark_contexts::MarkContext;
use hir_methods::paired;
use hir_reports::ErrorStore;
use std::alloc::Global;

/// The marks and the documents of a type of a kind. The marks start from what it takes over of its module's.
pub(crate) fn lower_type_notes<V: AttributeValidator>(
    lent: &Lowering<'_, V>,
    module_set: &Attrs,
    context: MarkContext,
    docs: &bridge_decl::Docs,
    attrs: &bridge_decl::Attrs,
    errors: &mut ErrorStore<'_>,
) -> Result<Notes, NoMemory>
    ensures told { OnOk result (errors.new ≡ added errors.old (notes_errors
        (V.meaning lent.now.validator.now) context (item_start module_set.now)
        docs.now attrs.now)) }
    ensures made { IfOk result (λ notes. notes ≡ notes_form
        (V.meaning lent.now.validator.now) (item_start module_set.now) docs.now attrs.now) }
    ensures kept { (earlier : Held) → Keeps earlier errors.old → Keeps earlier errors.new }
{
    let start = module_set.for_inheritance(lent.alloc, AttrInheritContext::OfType)?;
    lower_notes(
        lent.alloc,
        docs,
        attrs,
        context,
        start,
        lent.validator,
        errors,
    )
}

/// A name with lifetimes.
#[derive(Drop)]
pub struct Title {
    /// The name.
    pub name: IdentBuf,
    /// The lifetimes.
    pub lifetimes: LifetimeEnv,
}

/// A title, where there are both.
fn titled(name: Option<IdentBuf>, lifetimes: Option<LifetimeEnv>) -> Option<Title>
    ensures { result ≡ titled name lifetimes }
{
    match paired(name, lifetimes) {
        Some((name, lifetimes)) => Some(Title { name, lifetimes }),
        None => None,
    }
}

/// The name and the lifetimes of a type.
pub(crate) fn lower_title(
    alloc: Global,
    name: &Text,
    lifetimes: &Declared,
    errors: &mut ErrorStore<'_>,
) -> Result<Option<Title>, NoMemory>
    requires { IsSoundEnvironment lifetimes.now }
    ensures told { OnOk result (errors.new
        ≡ added errors.old (name_errors name.now ++ lifetime_errors lifetimes.now)) }
    ensures made { IfOk result (MadeUnlessTold
        (name_errors name.now ++ lifetime_errors lifetimes.now)
        (title_form name.now lifetimes.now)) }
    ensures kept { (earlier : Held) → Keeps earlier errors.old → Keeps earlier errors.new }
{
    let name = lower_ident(alloc, name, errors)?;
    let lifetimes = lower_lifetimes(alloc, lifetimes, errors)?;
    Ok(titled(name, lifetimes))
}
