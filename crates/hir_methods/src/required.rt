//! Parameters of methods without a default value, where one before them has one.

ghost use Rattle.std.specs.Prelude.{◌≡◌, ◌||◌, false, IfOk, OnOk};
ghost use Rattle.hir_heads.specs.Told.{MadeUnlessTold};
ghost use Rattle.hir_methods.specs.Required.{has_default, method_param_errors, required_error, required_errors};
ghost use Rattle.hir_methods.specs.Untyped.{untyped_forms};
ghost use Rattle.hir_reports.specs.Store.{Held, Keeps, added};

use crate::params::{UntypedParam, lower_each_untyped};
use bridge_decl::{Items, NoMemory, Param};
use hir_attrs::Attrs;
use hir_backends::AttributeValidator;
use hir_reports::{ErrorStore, LoweringError, Rule};
use std::alloc::Global;

/// Whether the marks of a parameter give it a default value. What they break is told elsewhere.
fn has_default<V: AttributeValidator>(
    alloc: Global,
    param: &Param,
    validator: &V,
) -> Result<bool, NoMemory>
    ensures { IfOk result (λ has. has ≡ has_default (V.meaning validator.now) param.now) }
{
    let start = Attrs::empty(alloc);
    let mut aside = ErrorStore::new(alloc);
    let attrs = Attrs::from_ast(alloc, &param.attrs, validator, start, &mut aside)?;
    Ok(attrs.default_value.is_some())
}

/// Tells of one parameter, after those of which one has a default value, or none; and whether one has
/// with it.
fn test_required<V: AttributeValidator>(
    alloc: Global,
    is_after: bool,
    param: &Param,
    validator: &V,
    errors: &mut ErrorStore<'_>,
) -> Result<bool, NoMemory>
    ensures told { OnOk result (errors.new
        ≡ added errors.old (required_error (V.meaning validator.now) is_after param.now)) }
    ensures after { IfOk result
        (λ now. now ≡ (is_after || has_default (V.meaning validator.now) param.now)) }
    ensures kept { (earlier : Held) → Keeps earlier errors.old → Keeps earlier errors.new }
{
    let has = has_default(alloc, param, validator)?;
    if is_after && !has {
        let name = param.name.as_str();
        errors.push(LoweringError::new(alloc, Rule::RequiredAfterDefault, &[name])?)?;
    }
    Ok(is_after || has)
}

/// Tells of each parameter without a default value that follows one with (rule `RequiredAfterDefault`).
fn tell_required<V: AttributeValidator>(
    alloc: Global,
    params: &[Param],
    validator: &V,
    errors: &mut ErrorStore<'_>,
) -> Result<(), NoMemory>
    ensures told { OnOk result (errors.new
        ≡ added errors.old (required_errors (V.meaning validator.now) false params.now)) }
    ensures kept { (earlier : Held) → Keeps earlier errors.old → Keeps earlier errors.new }
{
    let mut is_after = false;
    for param in params {
        is_after = test_required(alloc, is_after, param, validator, errors)?;
    }
    Ok(())
}

/// The parameters of a method without their types. None only where a name is no identifier. `NoMemory`
/// where there is no memory for them or for the reports.
#[tactic(auto, using(hir_mark_contexts::proofs::Stores::told_both))]
pub(crate) fn lower_method_params<V: AttributeValidator>(
    alloc: Global,
    params: &[Param],
    validator: &V,
    errors: &mut ErrorStore<'_>,
) -> Result<Option<Items<UntypedParam>>, NoMemory>
    ensures told { OnOk result (errors.new
        ≡ added errors.old (method_param_errors (V.meaning validator.now) params.now)) }
    ensures made { IfOk result (MadeUnlessTold
        (method_param_errors (V.meaning validator.now) params.now)
        (untyped_forms (V.meaning validator.now) params.now)) }
    ensures kept { (earlier : Held) → Keeps earlier errors.old → Keeps earlier errors.new }
{
    let lowered = lower_each_untyped(alloc, params, validator, errors)?;
    tell_required(alloc, params, validator, errors)?;
    Ok(lowered)
}
