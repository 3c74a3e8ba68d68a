//! The callables of a context by their ids.

ghost use Rattle.std.specs.Prelude.{◌≡◌, ◌++◌, map, Some, IsSome, IfOk, IfSome, OnOk, flat_map};
ghost use Rattle.std.specs.List.{enumerate_from};
ghost use Rattle.bridge_report.specs.InContext.{callable_at, callables, method_at};
ghost use Rattle.bridge_report.specs.Places.{shown_place};
ghost use Rattle.bridge_report.specs.declared.report.CallableId.TheVariants as callable;
ghost use Rattle.bridge_report.specs.inside.Ids.{function_ids, method_ids, numbered_id, type_ids};
ghost use Rattle.hir_context.specs.Iterating.{all_types};

use crate::report::CallableId;
use bridge_decl::{Items, NoMemory, Text};
use hir_context::TypeContext;
use hir_definitions::Method;
use hir_ids::{FunctionId, SymbolId, TypeId};
use std::alloc::Global;

/// The id of the method of this number of a type, or of the function of this number where there is no type.
fn id_of(of: Option<TypeId>, number: usize) -> CallableId
    ensures { result ≡ numbered_id of number }
{
    match of {
        Some(id) => CallableId::Method(id, number),
        None => CallableId::Function(FunctionId::new(number)),
    }
}

/// Adds the ids of the methods of a type.
fn add_methods(ids: &mut Items<CallableId>, id: &TypeId, methods: &[Method]) -> Result<(), NoMemory>
    ensures { OnOk result (ids.new ≡ ids.old ++ method_ids id.now 0 methods.now) }
{
    for (number, _) in methods.iter().enumerate() {
        ids.push(id_of(Some(*id), number))?;
    }
    Ok(())
}

/// Adds the ids of the methods of all types, in order.
fn add_types(ids: &mut Items<CallableId>, tcx: &TypeContext) -> Result<(), NoMemory>
    ensures { OnOk result
        (ids.new ≡ ids.old ++ flat_map type_ids (all_types tcx.now.definitions)) }
{
    for (id, def) in tcx.all_types() {
        add_methods(ids, &id, def.methods())?;
    }
    Ok(())
}

/// Adds the ids of all enabled functions, in order.
fn add_functions(ids: &mut Items<CallableId>, tcx: &TypeContext) -> Result<(), NoMemory>
    ensures { OnOk result (ids.new ≡ ids.old
        ++ flat_map function_ids (enumerate_from 0 tcx.now.definitions.functions.defs)) }
{
    for (id, function) in tcx.all_free_functions() {
        if !function.attrs.disable {
            ids.push(id_of(None, id.index()))?;
        }
    }
    Ok(())
}

/// The ids of all callables of a context, in the order of its types, and then of its functions: one that is disabled is
/// none.
pub fn callable_ids(alloc: Global, tcx: &TypeContext) -> Result<Items<CallableId>, NoMemory>
    ensures { IfOk result (λ ids. map (callable_at tcx.now.definitions) ids
        ≡ map Some (callables tcx.now.definitions)) }
{
    let mut ids = Items::new(alloc);
    add_types(&mut ids, tcx)?;
    add_functions(&mut ids, tcx)?;
    Ok(ids)
}

/// The method or the function of an id, which is one of the context's.
pub fn method_of(tcx: &TypeContext, id: CallableId) -> &Method
    requires { IsSome (callable_at tcx.now.definitions id) }
    ensures { method_at tcx.now.definitions id ≡ Some result.now }
{
    match &id {
        CallableId::Method(id, number) => &tcx.resolve_type(*id).methods()[*number],
        CallableId::Function(id) => tcx.resolve_function(*id),
    }
}

/// Where a callable is declared.
#[derive(Clone, Copy)]
pub struct CallablePlace<'tcx> {
    /// The path of its module.
    pub module: &'tcx [Text],
    /// The type, or the function.
    pub item: &'tcx str,
    /// The method, where it is one.
    pub method: Option<&'tcx str>,
}

/// Where the method of this number of a type is declared.
fn method_place<'tcx>(tcx: &'tcx TypeContext, id: &TypeId, number: usize) -> CallablePlace<'tcx>
    requires { IsSome (callable_at tcx.now.definitions (callable.Method id.now number)) }
    ensures { IfSome (callable_at tcx.now.definitions (callable.Method id.now number))
        (λ c. c.place ≡ shown_place result) }
{
    CallablePlace {
        module: tcx.module_path(SymbolId::TypeId(*id)),
        item: tcx.fmt_type_name_diagnostics(*id),
        method: Some(
            method_of(tcx, CallableId::Method(*id, number))
                .name
                .as_str(),
        ),
    }
}

/// Where a function is declared.
fn function_place(tcx: &TypeContext, id: FunctionId) -> CallablePlace<'_>
    requires { IsSome (callable_at tcx.now.definitions (callable.Function id)) }
    ensures { IfSome (callable_at tcx.now.definitions (callable.Function id))
        (λ c. c.place ≡ shown_place result) }
{
    CallablePlace {
        module: tcx.module_path(SymbolId::FunctionId(id)),
        item: tcx.resolve_function(id).name.as_str(),
        method: None,
    }
}

/// Where the callable of an id, which is one of the context's, is declared.
pub fn place_of(tcx: &TypeContext, id: CallableId) -> CallablePlace<'_>
    requires { IsSome (callable_at tcx.now.definitions id) }
    ensures { IfSome (callable_at tcx.now.definitions id) (λ c. c.place ≡ shown_place result) }
{
    match &id {
        CallableId::Method(id, number) => method_place(tcx, id, *number),
        CallableId::Function(id) => function_place(tcx, *id),
    }
}
