//! What is told of a method of a type, or of a function.

ghost use Rattle.std.specs.Prelude.{◌≡◌, ◌++◌, ◌&&◌, [], cond, length, nat_lt, OnOk, option_copied};
ghost use Rattle.std.specs.List.{list_any};
ghost use Rattle.bridge_leaves.specs.Limits.{most_leaves};
ghost use Rattle.bridge_report.specs.InContext.{callable_of, receiver_name};
ghost use Rattle.bridge_telling.specs.Telling.{one_if};
ghost use Rattle.bridge_validation.specs.Told.{lowered_callable_errors, is_type_method, is_unnamed};
ghost use Rattle.hir_reports.specs.Store.{added};
ghost use Rattle.hir_reports.specs.Texts.{plain_error};
ghost use Rattle.hir_reports.specs.declared.rule.Rule.TheVariants as rule;
ghost use Rattle.hir_skeleton.specs.NamedLeaves.{borrowing_leaves};
ghost use Rattle.hir_types.specs.Named.{lifetimes_in, lifetimes_named};
ghost use Rattle.hir_validation.specs.Signatures.{signature_errors};
ghost use Rattle.hir_validation.specs.Told.{method_rule_errors};

use bridge_decl::NoMemory;
use bridge_leaves::LeafCounts;
use bridge_report::CallableId;
use hir_definitions::Method;
use hir_life::{Lifetime, LifetimeEnv, MaybeStatic};
use hir_reports::{ErrorStore, Rule};
use hir_types::OutType;
use hir_validation::{Validation, tell_if};
use std::alloc::Global;

/// Whether it is a method of a type.
fn is_type_method(id: CallableId) -> bool
    ensures { result ≡ is_type_method id }
{
    matches!(id, CallableId::Method(_, _))
}

/// Whether a lifetime has no name.
fn is_unnamed(env: &LifetimeEnv, lifetime: MaybeStatic<Lifetime>) -> bool
    ensures { result ≡ is_unnamed env.now lifetime }
{
    match lifetime {
        MaybeStatic::Static => false,
        MaybeStatic::NonStatic(lifetime) => env.get_bounds(lifetime).is_none(),
    }
}

/// Whether a lifetime of a type has none; false where there is no type.
fn has_unnamed(env: &LifetimeEnv, ty: Option<&OutType>) -> bool
    ensures { result ≡ list_any (is_unnamed env.now) (lifetimes_in (option_copied ty.entry)) }
{
    let Some(ty) = ty else {
        return false;
    };
    for lifetime in ty.lifetimes() {
        if is_unnamed(env, lifetime) {
            return true;
        }
    }
    false
}

/// Whether a lifetime that a method returns has none.
fn returns_unnamed(method: &Method) -> bool
    ensures { result ≡ list_any (is_unnamed method.now.lifetime_env)
        (lifetimes_named method.now.output) }
{
    let (env, output) = (&method.lifetime_env, &method.output);
    has_unnamed(env, output.success_type().as_type()) || has_unnamed(env, output.error_type())
}

/// A context that is tested, with its leaves counted.
#[derive(Drop)]
pub(crate) struct Tested<'tcx> {
    /// It, with its leaves.
    pub(crate) counts: LeafCounts<'tcx>,
    /// Whether callbacks must be able to fail.
    pub(crate) callbacks_must_fail: bool,
}

impl<'tcx> Tested<'tcx> {
    /// What is asked of it.
    pub(crate) fn validation(&self) -> Validation<'tcx>
        ensures context { result.tcx.now ≡ self.now.counts.tcx.now }
        ensures flag { result.callbacks_must_fail ≡ self.now.callbacks_must_fail }
    {
        Validation {
            tcx: self.counts.tcx,
            callbacks_must_fail: self.callbacks_must_fail,
        }
    }

    /// Tells of a method what only functions may do, where it is one of a type.
    fn tell_method_rules(
        &self,
        alloc: Global,
        id: &CallableId,
        method: &Method,
        errors: &mut ErrorStore<'_>,
    ) -> Result<(), NoMemory>
        ensures { OnOk result (errors.new ≡ added errors.old (cond (is_type_method id.now)
            (method_rule_errors self.now.counts.tcx.now.definitions method.now) [])) }
    {
        if is_type_method(*id) {
            let validation = self.validation();
            return validation.validate_method(alloc, method, errors);
        }
        Ok(())
    }

    /// Tells of its types.
    #[tactic(auto, using(hir_reports::proofs::StoreLaws::added_more))]
    fn tell_signature(
        &self,
        alloc: Global,
        id: &CallableId,
        method: &Method,
        errors: &mut ErrorStore<'_>,
    ) -> Result<(), NoMemory>
        ensures { OnOk result (errors.new ≡ added errors.old
            (signature_errors self.now.callbacks_must_fail
            self.now.counts.tcx.now.definitions method.now ++ cond (is_type_method id.now)
            (method_rule_errors self.now.counts.tcx.now.definitions method.now) [])) }
    {
        let validation = self.validation();
        validation.validate_signature(alloc, method, errors)?;
        self.tell_method_rules(alloc, id, method, errors)
    }

    /// Tells of it that it leaves out a lifetime that it returns, where it is a method of a type; and of its types.
    #[tactic(auto, using(hir_reports::proofs::StoreLaws::added_more))]
    fn tell_elided(
        &self,
        alloc: Global,
        id: &CallableId,
        method: &Method,
        errors: &mut ErrorStore<'_>,
    ) -> Result<(), NoMemory>
        ensures { OnOk result (errors.new ≡ added errors.old
            (one_if (is_type_method id.now && list_any (is_unnamed method.now.lifetime_env)
            (lifetimes_named method.now.output)) (plain_error rule.ElidedReturn)
            ++ (signature_errors self.now.callbacks_must_fail
            self.now.counts.tcx.now.definitions method.now ++ cond (is_type_method id.now)
            (method_rule_errors self.now.counts.tcx.now.definitions method.now) []))) }
    {
        let is_elided = is_type_method(*id) && returns_unnamed(method);
        tell_if(alloc, is_elided, Rule::ElidedReturn, errors)?;
        self.tell_signature(alloc, id, method, errors)
    }

    /// Whether the inputs of a callable have too many leaves.
    fn is_crowded(&self, method: &Method) -> bool
        ensures { result ≡ nat_lt most_leaves (length
            (borrowing_leaves self.now.counts.tcx.now.definitions receiver_name method.now)) }
    {
        self.counts.has_too_many(method)
    }

    /// Tells of a callable all that it breaks, at the place at which the store is.
    #[tactic(auto, using(hir_reports::proofs::StoreLaws::added_more))]
    pub(crate) fn tell_callable(
        &self,
        alloc: Global,
        id: &CallableId,
        method: &Method,
        errors: &mut ErrorStore<'_>,
    ) -> Result<(), NoMemory>
        ensures { OnOk result (errors.new ≡ added errors.old
            (lowered_callable_errors self.now.callbacks_must_fail
            self.now.counts.tcx.now.definitions
            (callable_of self.now.counts.tcx.now.definitions id.now errors.old.place method.now)
            method.now)) }
    {
        tell_if(alloc, self.is_crowded(method), Rule::TooManyLeaves, errors)?;
        self.tell_elided(alloc, id, method, errors)
    }
}
