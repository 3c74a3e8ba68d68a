//! The heading of a method or a function: its documents, its names and the names of its lifetimes.

ghost use Rattle.std.specs.Prelude.{◌≡◌, IfOk, OnOk};
ghost use Rattle.hir_form.specs.ReturnForms.{both_given};
ghost use Rattle.hir_heads.specs.Told.{MadeUnlessTold};
ghost use Rattle.hir_methods.specs.Untyped.{heading_errors, heading_form};
ghost use Rattle.hir_methods.specs.inside.Headings.{headed};
ghost use Rattle.hir_reports.specs.Store.{Held, Keeps, added};

use crate::choosing::paired;
use crate::reading::read_docs;
use bridge_decl::{IdentBuf, LifetimeEnv, NoMemory, Text};
use hir_backends::AttributeValidator;
use hir_docs::Docs;
use hir_heads::{lower_ident, tell_lifetimes};
use hir_reports::ErrorStore;
use std::alloc::Global;

/// What a method or a function has beside its marks and its types.
#[derive(Drop)]
pub struct Heading {
    /// What is documented.
    pub docs: Docs,
    /// Its name.
    pub name: IdentBuf,
    /// The name of its exported symbol.
    pub abi_name: IdentBuf,
}

/// A heading of these documents, where there are both names.
fn headed(docs: Docs, name: Option<IdentBuf>, abi_name: Option<IdentBuf>) -> Option<Heading>
    ensures { result ≡ headed docs name abi_name }
{
    match paired(name, abi_name) {
        Some((name, abi_name)) => Some(Heading {
            docs,
            name,
            abi_name,
        }),
        None => None,
    }
}

/// The heading. None only where a name is no identifier.
pub(crate) fn lower_heading<V: AttributeValidator>(
    alloc: Global,
    docs: &bridge_decl::Docs,
    name: &Text,
    abi_name: &Text,
    lifetimes: &LifetimeEnv,
    validator: &V,
    errors: &mut ErrorStore<'_>,
) -> Result<Option<Heading>, NoMemory>
    ensures told { OnOk result (errors.new ≡ added errors.old (heading_errors
        (V.meaning validator.now) docs.now name.now abi_name.now lifetimes.now)) }
    ensures made { IfOk result (MadeUnlessTold (heading_errors
        (V.meaning validator.now) docs.now name.now abi_name.now lifetimes.now)
        (heading_form (V.meaning validator.now) docs.now name.now abi_name.now)) }
    ensures kept { (earlier : Held) → Keeps earlier errors.old → Keeps earlier errors.new }
{
    let docs = read_docs(alloc, docs, validator, errors)?;
    let name = lower_ident(alloc, name, errors)?;
    let abi_name = lower_ident(alloc, abi_name, errors)?;
    tell_lifetimes(alloc, lifetimes, errors)?;
    Ok(headed(docs, name, abi_name))
}
