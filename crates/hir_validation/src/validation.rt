//! What is asked of a context, and how it is told.

ghost use Rattle.std.specs.Prelude.{◌≡◌, OnOk, option_map};
ghost use Rattle.bridge_telling.specs.Telling.{one_if};
ghost use Rattle.hir_attrs.specs.Reading.{about};
ghost use Rattle.hir_context.specs.Lookups.{defined_at, lent_type};
ghost use Rattle.hir_reports.specs.Store.{added};
ghost use Rattle.hir_reports.specs.Texts.{plain_error};

use bridge_decl::NoMemory;
use hir_context::TypeContext;
use hir_definitions::TypeDef;
use hir_ids::TypeId;
use hir_reports::{ErrorStore, LoweringError, Rule};
use std::alloc::Global;

/// A context whose types, methods, functions and traits are tested, for a backend.
#[derive(Clone, Copy)]
pub struct Validation<'tcx> {
    /// The context.
    pub tcx: &'tcx TypeContext,
    /// Whether callbacks must be able to fail: the flag `callback_returns_must_be_fallible` of the backend.
    pub callbacks_must_fail: bool,
}

/// Tells that a rule is broken, where it is. `NoMemory` where there is none for the report.
pub fn tell_if(
    alloc: Global,
    is_broken: bool,
    broken: Rule,
    errors: &mut ErrorStore<'_>,
) -> Result<(), NoMemory>
    ensures { OnOk result
        (errors.new ≡ added errors.old (one_if is_broken (plain_error broken))) }
{
    if is_broken {
        return errors.push(LoweringError::plain(alloc, broken));
    }
    Ok(())
}

/// The same by what has that name.
pub(crate) fn tell_named(
    alloc: Global,
    is_broken: bool,
    broken: Rule,
    name: &str,
    errors: &mut ErrorStore<'_>,
) -> Result<(), NoMemory>
    ensures { OnOk result
        (errors.new ≡ added errors.old (one_if is_broken (about broken name.now))) }
{
    if is_broken {
        let args = [name];
        return errors.push(LoweringError::new(alloc, broken, &args)?);
    }
    Ok(())
}

/// The definition of a type, where there is one.
pub(crate) fn definition_of<'tcx>(tcx: &'tcx TypeContext, id: &TypeId) -> Option<TypeDef<'tcx>>
    ensures { option_map lent_type result ≡ defined_at tcx.now.definitions id.now }
{
    match id {
        TypeId::Struct(id) => tcx.structs().get(id.index()).map(TypeDef::Struct),
        TypeId::OutStruct(id) => tcx.out_structs().get(id.index()).map(TypeDef::OutStruct),
        TypeId::Opaque(id) => tcx.opaques().get(id.index()).map(TypeDef::Opaque),
        TypeId::Enum(id) => tcx.enums().get(id.index()).map(TypeDef::Enum),
    }
}
