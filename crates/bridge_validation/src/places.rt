//! Where definitions and callables are declared.

ghost use Rattle.std.specs.Prelude.{◌≡◌, option_copied, option_map};
ghost use Rattle.bridge_validation.specs.Told.{declaring_module, lowered_type_name};
ghost use Rattle.hir_context.specs.Lookups.{lent_type, type_methods};
ghost use Rattle.hir_reports.specs.Store.{at_place};

use bridge_decl::Text;
use hir_context::TypeContext;
use hir_definitions::{Method, TypeDef};
use hir_ids::SymbolId;
use hir_reports::ErrorStore;
use hir_types::Callback;

/// The path of the module of a definition: none has no path.
fn declaring_module<'tcx>(tcx: &'tcx TypeContext, id: &SymbolId) -> &'tcx [Text]
    ensures { result.now ≡ declaring_module tcx.now.definitions id.now }
{
    if tcx.contains_symbol(*id) {
        tcx.module_path(*id)
    } else {
        &[]
    }
}

/// The name of a type.
pub(crate) fn name_of<'tcx>(def: &TypeDef<'tcx>) -> &'tcx str
    ensures { result.now ≡ lowered_type_name (lent_type def.now) }
{
    match *def {
        TypeDef::Struct(def) => def.name.as_str(),
        TypeDef::OutStruct(def) => def.name.as_str(),
        TypeDef::Opaque(def) => def.name.as_str(),
        TypeDef::Enum(def) => def.name.as_str(),
    }
}

/// The methods of a type, in order.
pub(crate) fn methods_of<'tcx>(def: &TypeDef<'tcx>) -> &'tcx [Method]
    ensures { result.now ≡ type_methods (lent_type def.now) }
{
    match *def {
        TypeDef::Struct(def) => def.methods.as_slice(),
        TypeDef::OutStruct(def) => def.methods.as_slice(),
        TypeDef::Opaque(def) => def.methods.as_slice(),
        TypeDef::Enum(def) => def.methods.as_slice(),
    }
}

/// The name of a method of a trait, where it has one.
pub(crate) fn trait_method_name(method: &Callback) -> Option<&str>
    ensures { option_copied result ≡ option_map (λ name. name.0) method.now.name }
{
    match &method.name {
        Some(name) => Some(name.as_str()),
        None => None,
    }
}

/// Sets the store to the item of a module, or to a method of it.
pub(crate) fn go_to<'tcx>(
    tcx: &'tcx TypeContext,
    id: SymbolId,
    item: &'tcx str,
    method: Option<&'tcx str>,
    errors: &mut ErrorStore<'tcx>,
)
    ensures { errors.new ≡ record {
      reports = errors.old.reports;
      place = at_place
          (declaring_module tcx.now.definitions id) item.now (option_copied method.entry);
    } }
{
    errors.set_module(declaring_module(tcx, &id));
    errors.set_item(item);
    if let Some(method) = method {
        errors.set_subitem(method);
    }
}
