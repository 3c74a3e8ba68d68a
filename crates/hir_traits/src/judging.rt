//! The numbered types of a trait's method, where they stand.

ghost use Rattle.std.specs.Prelude.{◌≡◌, ◌≢◌, [], Err, IfOk, OnOk, option_map};
ghost use Rattle.std.specs.List.{flat_map};
ghost use Rattle.hir_form.specs.ParamForms.{out_type_form};
ghost use Rattle.hir_methods.specs.inside.Parts.{GivenUnlessTold};
ghost use Rattle.hir_reports.specs.Store.{Held, Keeps, added};
ghost use Rattle.hir_signatures.specs.Errors.{number_errors};
ghost use Rattle.hir_traits.specs.TraitStages.{trait_stage_errors, trait_stage_form};
ghost use Rattle.hir_traits.specs.TraitTypes.{trait_judged_errors, trait_output_errors, trait_output_form, trait_param_errors, trait_params_form, trait_receiver_form, trait_types_form, trait_types_with};
ghost use Rattle.hir_traits.specs.inside.Numbering.{trait_stage_of};

use bridge_decl::{Items, NoMemory};
use bridge_rules::Catalog;
use hir_form::{judge_callback_param, judge_callback_return};
use hir_ids::TraitId;
use hir_items::Lowering;
use hir_methods::{beside, keep};
use hir_number::{NumberFault, NumberedTraitMethod, NumberedType, TraitTarget};
use hir_reports::ErrorStore;
use hir_signatures::tell_number_fault;
use hir_types::{CallbackReturn, OutType, ReturnType, SuccessType, TraitParamSelf, TraitPath};
use std::alloc::Global;

/// The types of a trait's method.
#[derive(Drop)]
pub struct TraitMethodTypes {
    /// The receiver, where there is one.
    pub param_self: Option<TraitParamSelf>,
    /// The parameters.
    pub params: Items<OutType>,
    /// What is returned.
    pub output: ReturnType<CallbackReturn>,
}

/// The receiver: the path to its trait.
fn receiver_of(
    alloc: Global,
    catalog: &Catalog,
    own: &Option<TraitTarget>,
) -> Result<Option<TraitParamSelf>, NoMemory>
    ensures { IfOk result
        (λ receiver. receiver ≡ option_map (trait_receiver_form catalog.now) own.now) }
{
    match own {
        Some(target) => {
            let lifetimes = target.lifetimes.try_clone(alloc)?;
            let tcx_id = TraitId::new(catalog.entry(target.place).id());
            let trait_path = TraitPath { lifetimes, tcx_id };
            Ok(Some(TraitParamSelf { trait_path }))
        }
        None => Ok(None),
    }
}

/// A parameter.
#[tactic(auto, using(crate::proofs::JudgeLemmas::judging))]
fn judge_param<V>(
    lowering: &Lowering<'_, V>,
    ty: &NumberedType,
    errors: &mut ErrorStore<'_>,
) -> Result<Option<OutType>, NoMemory>
    ensures told { OnOk result (errors.new ≡ added errors.old (trait_param_errors
        lowering.now.support.now lowering.now.config lowering.now.catalog.now ty.now)) }
    ensures made { IfOk result (GivenUnlessTold (trait_param_errors
        lowering.now.support.now lowering.now.config lowering.now.catalog.now ty.now)
        (out_type_form lowering.now.catalog.now ty.now)) }
    ensures kept { (earlier : Held) → Keeps earlier errors.old → Keeps earlier errors.new }
{
    judge_callback_param(
        lowering.alloc,
        errors,
        lowering.support,
        lowering.config,
        lowering.catalog,
        ty,
    )
}

/// All parameters. None only where something is told of them.
fn judge_params<V>(
    lowering: &Lowering<'_, V>,
    types: &[NumberedType],
    errors: &mut ErrorStore<'_>,
) -> Result<Option<Items<OutType>>, NoMemory>
    ensures told { OnOk result (errors.new ≡ added errors.old (flat_map (trait_param_errors
        lowering.now.support.now lowering.now.config lowering.now.catalog.now) types.now)) }
    ensures made { IfOk result (GivenUnlessTold (flat_map (trait_param_errors
        lowering.now.support.now lowering.now.config lowering.now.catalog.now) types.now)
        (trait_params_form lowering.now.catalog.now types.now)) }
    ensures kept { (earlier : Held) → Keeps earlier errors.old → Keeps earlier errors.new }
{
    let mut made = Some(Items::new(lowering.alloc));
    for ty in types {
        let one = judge_param(lowering, ty, errors)?;
        keep(&mut made, one)?;
    }
    Ok(made)
}

/// What is returned.
#[tactic(auto, using(crate::proofs::JudgeLemmas::judging))]
fn judge_output<V>(
    lowering: &Lowering<'_, V>,
    output: &Option<NumberedType>,
    errors: &mut ErrorStore<'_>,
) -> Result<Option<ReturnType<CallbackReturn>>, NoMemory>
    ensures told { OnOk result (errors.new ≡ added errors.old
        (trait_output_errors lowering.now.support.now lowering.now.catalog.now output.now)) }
    ensures made { IfOk result (GivenUnlessTold
        (trait_output_errors lowering.now.support.now lowering.now.catalog.now output.now)
        (trait_output_form lowering.now.catalog.now output.now)) }
    ensures kept { (earlier : Held) → Keeps earlier errors.old → Keeps earlier errors.new }
{
    match output {
        Some(ty) => judge_callback_return(
            lowering.alloc,
            errors,
            lowering.support,
            lowering.catalog,
            ty,
        ),
        None => Ok(Some(ReturnType::Infallible(SuccessType::Unit))),
    }
}

/// The types with this receiver, where there are the parameters and the return.
fn typed(
    param_self: Option<TraitParamSelf>,
    parts: Option<(Items<OutType>, ReturnType<CallbackReturn>)>,
) -> Option<TraitMethodTypes>
    ensures { result ≡ option_map (λ p. trait_types_with param_self p.0 p.1) parts }
{
    match parts {
        Some((params, output)) => Some(TraitMethodTypes {
            param_self,
            params,
            output,
        }),
        None => None,
    }
}

/// The types of a method that has numbers.
fn judge_types<V>(
    lowering: &Lowering<'_, V>,
    numbered: &NumberedTraitMethod,
    errors: &mut ErrorStore<'_>,
) -> Result<Option<TraitMethodTypes>, NoMemory>
    ensures told { OnOk result (errors.new ≡ added errors.old (trait_judged_errors
        lowering.now.support.now lowering.now.config lowering.now.catalog.now numbered.now)) }
    ensures made { IfOk result (GivenUnlessTold (trait_judged_errors
        lowering.now.support.now lowering.now.config lowering.now.catalog.now numbered.now)
        (trait_types_form lowering.now.catalog.now numbered.now)) }
    ensures kept { (earlier : Held) → Keeps earlier errors.old → Keeps earlier errors.new }
{
    let receiver = receiver_of(lowering.alloc, lowering.catalog, &numbered.own)?;
    let params = judge_params(lowering, numbered.params.as_slice(), errors)?;
    let output = judge_output(lowering, &numbered.output, errors);
    let parts = beside(params, output)?;
    Ok(typed(receiver, parts))
}

/// Tells why there are no numbers.
#[tactic(auto, using(hir_mark_contexts::proofs::Stores::added_keeps))]
fn tell_unnumbered(
    alloc: Global,
    fault: NumberFault,
    errors: &mut ErrorStore<'_>,
) -> Result<(), NoMemory>
    ensures told { OnOk result (errors.new ≡ added errors.old (number_errors fault)) }
    ensures memory { OnOk result (fault ≢ NumberFault.NoMemory) }
    ensures kept { (earlier : Held) → Keeps earlier errors.old → Keeps earlier errors.new }
{
    tell_number_fault(alloc, fault, errors)
}

/// What came of numbering.
pub fn judge_numbered<V>(
    lowering: &Lowering<'_, V>,
    numbered: &Result<NumberedTraitMethod, NumberFault>,
    errors: &mut ErrorStore<'_>,
) -> Result<Option<TraitMethodTypes>, NoMemory>
    ensures told { OnOk result (errors.new ≡ added errors.old (trait_stage_errors []
        (trait_judged_errors lowering.now.support.now lowering.now.config
        lowering.now.catalog.now) (trait_stage_of numbered.now))) }
    ensures made { IfOk result (GivenUnlessTold (trait_stage_errors []
        (trait_judged_errors lowering.now.support.now lowering.now.config
        lowering.now.catalog.now) (trait_stage_of numbered.now))
        (trait_stage_form (trait_types_form lowering.now.catalog.now)
        (trait_stage_of numbered.now))) }
    ensures memory { OnOk result (numbered.now ≢ Err NumberFault.NoMemory) }
    ensures kept { (earlier : Held) → Keeps earlier errors.old → Keeps earlier errors.new }
{
    match numbered {
        Ok(numbered) => judge_types(lowering, numbered, errors),
        Err(fault) => {
            tell_unnumbered(lowering.alloc, *fault, errors)?;
            Ok(None)
        }
    }
}
