//! A law that callers may rely on: the contract of a function without a body.

ghost use Rattle.std.specs.Prelude.{◌≡◌, ℕ, Some, slice_get};
ghost use Rattle.std.specs.List.{Contains};
ghost use Rattle.hir_ids.specs.declared.ids.TypeId.{TypeId};
ghost use Rattle.hir_definitions.specs.declared.methods.Method.{Method};
ghost use Rattle.hir_context.specs.Fitness.{MethodFits};
ghost use Rattle.hir_context.specs.Lookups.{DefinedType, defined_at, type_methods};
ghost use Rattle.hir_context.specs.declared.context.TypeContext.{TypeContext};

/// All functions of a context fit it, and all methods of its types.
pub fn methods_of_contexts_fit()
    ensures functions { (tcx : TypeContext) (place : ℕ) (m : Method)
        → slice_get tcx.definitions.functions.defs place ≡ Some m
        → MethodFits tcx.definitions m }
    ensures methods { (tcx : TypeContext) (id : TypeId) (def : DefinedType) (m : Method)
        → defined_at tcx.definitions id ≡ Some def → Contains (type_methods def) m
        → MethodFits tcx.definitions m }
{}
