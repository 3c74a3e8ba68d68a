//! What is told of a context: type by type, trait by trait, function by function.

ghost use Rattle.std.specs.Prelude.{◌≡◌, ◌++◌, IfOk, OnOk, map};
ghost use Rattle.std.specs.List.{enumerate_from, flat_map};
ghost use Rattle.bridge_validation.specs.Told.{lowered_callable_reports, context_reports, lowered_function_reports, lowered_method_reports, lowered_trait_method_reports, lowered_trait_reports, type_place, lowered_type_reports};
ghost use Rattle.bridge_report.specs.InContext.{function_callable};
ghost use Rattle.hir_context.specs.Iterating.{all_types};
ghost use Rattle.hir_context.specs.Lookups.{lent_type};
ghost use Rattle.hir_reports.specs.Store.{told_at};
ghost use Rattle.hir_validation.specs.Structs.{type_errors};

use crate::callables::Tested;
use crate::places::{go_to, methods_of, name_of, trait_method_name};
use bridge_decl::NoMemory;
use bridge_leaves::LeafCounts;
use bridge_report::CallableId;
use hir_context::TypeContext;
use hir_definitions::{Method, TraitDef, TypeDef};
use hir_ids::{FunctionId, SymbolId, TraitId, TypeId};
use hir_reports::{ErrorStore, LoweringReport};
use hir_types::Callback;
use std::alloc::Global;

impl<'tcx> Tested<'tcx> {
    /// Tells of a type itself.
    fn tell_type_itself(
        &self,
        alloc: Global,
        id: &TypeId,
        def: &TypeDef<'tcx>,
        errors: &mut ErrorStore<'tcx>,
    ) -> Result<(), NoMemory>
        ensures { OnOk result (errors.new.reports ≡ errors.old.reports ++ map
            (told_at (type_place self.now.counts.tcx.now.definitions
            (id.now, lent_type def.now))) (type_errors self.now.callbacks_must_fail
            self.now.counts.tcx.now.definitions (lent_type def.now))) }
    {
        let tcx = self.counts.tcx;
        go_to(tcx, SymbolId::TypeId(*id), name_of(def), None, errors);
        let validation = self.validation();
        validation.validate_type(alloc, def, errors)
    }

    /// Tells of the method of this number of a type.
    fn tell_method(
        &self,
        alloc: Global,
        id: &TypeId,
        def: &TypeDef<'tcx>,
        number: usize,
        method: &'tcx Method,
        errors: &mut ErrorStore<'tcx>,
    ) -> Result<(), NoMemory>
        ensures { OnOk result (errors.new.reports ≡ errors.old.reports ++ lowered_method_reports
            self.now.callbacks_must_fail self.now.counts.tcx.now.definitions
            (id.now, lent_type def.now) (number, method.now)) }
    {
        let name = method.name.as_str();
        let tcx = self.counts.tcx;
        go_to(tcx, SymbolId::TypeId(*id), name_of(def), Some(name), errors);
        self.tell_callable(alloc, &CallableId::Method(*id, number), method, errors)
    }

    /// Tells of methods of a type.
    fn tell_methods(
        &self,
        alloc: Global,
        id: &TypeId,
        def: &TypeDef<'tcx>,
        methods: &'tcx [Method],
        errors: &mut ErrorStore<'tcx>,
    ) -> Result<(), NoMemory>
        ensures { OnOk result (errors.new.reports ≡ errors.old.reports ++ flat_map
            (lowered_method_reports self.now.callbacks_must_fail
            self.now.counts.tcx.now.definitions (id.now, lent_type def.now))
            (enumerate_from 0 methods.now)) }
    {
        for (number, method) in methods.iter().enumerate() {
            self.tell_method(alloc, id, def, number, method, errors)?;
        }
        Ok(())
    }

    /// Tells of a type, and then of each of its methods.
    fn tell_type(
        &self,
        alloc: Global,
        id: &TypeId,
        def: &TypeDef<'tcx>,
        errors: &mut ErrorStore<'tcx>,
    ) -> Result<(), NoMemory>
        ensures { OnOk result (errors.new.reports ≡ errors.old.reports ++ lowered_type_reports
            self.now.callbacks_must_fail self.now.counts.tcx.now.definitions
            (id.now, lent_type def.now)) }
    {
        self.tell_type_itself(alloc, id, def, errors)?;
        self.tell_methods(alloc, id, def, methods_of(def), errors)
    }

    /// Tells of each type.
    fn tell_types(&self, alloc: Global, errors: &mut ErrorStore<'tcx>) -> Result<(), NoMemory>
        ensures { OnOk result (errors.new.reports ≡ errors.old.reports ++ flat_map
            (lowered_type_reports self.now.callbacks_must_fail
            self.now.counts.tcx.now.definitions)
            (all_types self.now.counts.tcx.now.definitions)) }
    {
        for (id, def) in self.counts.tcx.all_types() {
            self.tell_type(alloc, &id, &def, errors)?;
        }
        Ok(())
    }

    /// Tells of a method of a trait.
    fn tell_trait_method(
        &self,
        alloc: Global,
        id: TraitId,
        def: &'tcx TraitDef,
        method: &'tcx Callback,
        errors: &mut ErrorStore<'tcx>,
    ) -> Result<(), NoMemory>
        ensures { OnOk result (errors.new.reports ≡ errors.old.reports
            ++ lowered_trait_method_reports self.now.callbacks_must_fail
            self.now.counts.tcx.now.definitions (id, def.now) method.now) }
    {
        let name = trait_method_name(method);
        let tcx = self.counts.tcx;
        go_to(tcx, SymbolId::TraitId(id), def.name.as_str(), name, errors);
        let validation = self.validation();
        validation.validate_trait_method(alloc, method, errors)
    }

    /// Tells of each method of a trait.
    fn tell_trait(
        &self,
        alloc: Global,
        id: TraitId,
        def: &'tcx TraitDef,
        errors: &mut ErrorStore<'tcx>,
    ) -> Result<(), NoMemory>
        ensures { OnOk result (errors.new.reports ≡ errors.old.reports ++ lowered_trait_reports
            self.now.callbacks_must_fail self.now.counts.tcx.now.definitions
            (id, def.now)) }
    {
        for method in def.methods.as_slice() {
            self.tell_trait_method(alloc, id, def, method, errors)?;
        }
        Ok(())
    }

    /// Tells of each trait.
    fn tell_traits(&self, alloc: Global, errors: &mut ErrorStore<'tcx>) -> Result<(), NoMemory>
        ensures { OnOk result (errors.new.reports ≡ errors.old.reports ++ flat_map
            (lowered_trait_reports self.now.callbacks_must_fail
            self.now.counts.tcx.now.definitions)
            (enumerate_from 0 self.now.counts.tcx.now.definitions.traits.defs)) }
    {
        for (id, def) in self.counts.tcx.all_traits() {
            self.tell_trait(alloc, id, def, errors)?;
        }
        Ok(())
    }

    /// Tells of a function, which is enabled.
    fn tell_enabled(
        &self,
        alloc: Global,
        id: FunctionId,
        function: &'tcx Method,
        errors: &mut ErrorStore<'tcx>,
    ) -> Result<(), NoMemory>
        ensures { OnOk result (errors.new.reports ≡ errors.old.reports ++ lowered_callable_reports
            self.now.callbacks_must_fail self.now.counts.tcx.now.definitions
            (function_callable self.now.counts.tcx.now.definitions (id, function.now))
            function.now) }
    {
        let name = function.name.as_str();
        go_to(
            self.counts.tcx,
            SymbolId::FunctionId(id),
            name,
            None,
            errors,
        );
        self.tell_callable(alloc, &CallableId::Function(id), function, errors)
    }

    /// Tells of a function, unless it is disabled.
    fn tell_function(
        &self,
        alloc: Global,
        id: FunctionId,
        function: &'tcx Method,
        errors: &mut ErrorStore<'tcx>,
    ) -> Result<(), NoMemory>
        ensures { OnOk result (errors.new.reports ≡ errors.old.reports ++ lowered_function_reports
            self.now.callbacks_must_fail self.now.counts.tcx.now.definitions
            (id, function.now)) }
    {
        if function.attrs.disable {
            return Ok(());
        }
        self.tell_enabled(alloc, id, function, errors)
    }

    /// Tells of each function.
    fn tell_functions(&self, alloc: Global, errors: &mut ErrorStore<'tcx>) -> Result<(), NoMemory>
        ensures { OnOk result (errors.new.reports ≡ errors.old.reports ++ flat_map
            (lowered_function_reports self.now.callbacks_must_fail
            self.now.counts.tcx.now.definitions)
            (enumerate_from 0 self.now.counts.tcx.now.definitions.functions.defs)) }
    {
        for (id, function) in self.counts.tcx.all_free_functions() {
            self.tell_function(alloc, id, function, errors)?;
        }
        Ok(())
    }

    /// Tells of all: types, traits, functions.
    fn tell_all(&self, alloc: Global, errors: &mut ErrorStore<'tcx>) -> Result<(), NoMemory>
        ensures { OnOk result (errors.new.reports ≡ errors.old.reports ++ context_reports
            self.now.callbacks_must_fail self.now.counts.tcx.now.definitions) }
    {
        self.tell_types(alloc, errors)?;
        self.tell_traits(alloc, errors)?;
        self.tell_functions(alloc, errors)
    }
}

/// The reports of what in a context breaks a rule: of its types with their methods, its traits and its functions, in order, for a
/// backend whose callbacks must be able to fail, or may not. `NoMemory` where there is none.
pub fn context_reports(
    alloc: Global,
    tcx: &TypeContext,
    callbacks_must_fail: bool,
) -> Result<Vec<LoweringReport>, NoMemory>
    ensures { IfOk result
        (λ told. told.items ≡ context_reports callbacks_must_fail tcx.now.definitions) }
{
    let tested = Tested {
        counts: LeafCounts::of(alloc, tcx)?,
        callbacks_must_fail,
    };
    let mut errors = ErrorStore::new(alloc);
    tested.tell_all(alloc, &mut errors)?;
    Ok(errors.take_errors())
}
