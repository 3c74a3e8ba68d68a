//! The test of a special method.

ghost use Rattle.std.specs.Prelude.{◌≡◌, OnOk};
ghost use Rattle.bridge_telling.specs.Telling.{one_if};
ghost use Rattle.hir_attrs.specs.Reading.{about};
ghost use Rattle.hir_attrs.specs.Special.{special_text};
ghost use Rattle.hir_reports.specs.Store.{Held, Keeps, added};
ghost use Rattle.hir_reports.specs.Texts.{plain_error};
ghost use Rattle.hir_reports.specs.declared.rule.Rule.TheVariants as rule;
ghost use Rattle.hir_special.specs.Operands.{is_wrong_operand};
ghost use Rattle.hir_special.specs.Support.{missing_flag};
ghost use Rattle.hir_special.specs.Told.{input_errors, kind_errors, output_errors, special_errors, support_errors};

use crate::operands::is_wrong_operand;
use crate::receivers::{is_wrong_count, is_wrong_receiver, is_wrong_target};
use crate::returns::is_right_return;
use crate::support::missing_flag;
use bridge_decl::NoMemory;
use hir_attrs::SpecialKind;
use hir_backends::BackendAttrSupport;
use hir_definitions::Method;
use hir_ids::TypeId;
use hir_reports::{ErrorStore, LoweringError, Rule};
use std::alloc::Global;

/// Tells that a special method of that kind breaks the rule, where it does.
pub(crate) fn tell_if(
    alloc: Global,
    is_broken: bool,
    broken: Rule,
    kind: SpecialKind,
    errors: &mut ErrorStore<'_>,
) -> Result<(), NoMemory>
    ensures told { OnOk result (errors.new
        ≡ added errors.old (one_if is_broken (about broken (special_text kind)))) }
    ensures kept { (earlier : Held) → Keeps earlier errors.old → Keeps earlier errors.new }
{
    if is_broken {
        return errors.push(LoweringError::new(alloc, broken, &[kind.text()])?);
    }
    Ok(())
}

/// Tells that a comparison compares a value with another type's.
fn test_operand(
    alloc: Global,
    kind: SpecialKind,
    method: &Method,
    errors: &mut ErrorStore<'_>,
) -> Result<(), NoMemory>
    ensures told { OnOk result (errors.new ≡ added errors.old (one_if
        (is_wrong_operand kind method.now.param_self method.now.params)
        (plain_error rule.SpecialOperand))) }
    ensures kept { (earlier : Held) → Keeps earlier errors.old → Keeps earlier errors.new }
{
    if is_wrong_operand(kind, &method.param_self, method.params.as_slice()) {
        return errors.push(LoweringError::plain(alloc, Rule::SpecialOperand));
    }
    Ok(())
}

/// Tells of the receiver and the parameters.
#[tactic(auto, using(hir_mark_contexts::proofs::Stores::told_four))]
fn test_inputs(
    alloc: Global,
    kind: SpecialKind,
    method: &Method,
    errors: &mut ErrorStore<'_>,
) -> Result<(), NoMemory>
    ensures told { OnOk result
        (errors.new ≡ added errors.old (input_errors kind method.now)) }
    ensures kept { (earlier : Held) → Keeps earlier errors.old → Keeps earlier errors.new }
{
    let receiver = is_wrong_receiver(kind, &method.param_self);
    let count = is_wrong_count(kind, method.params.len());
    let target = is_wrong_target(kind, &method.param_self);
    tell_if(alloc, receiver, Rule::SpecialReceiver, kind, errors)?;
    tell_if(alloc, count, Rule::SpecialParams, kind, errors)?;
    test_operand(alloc, kind, method, errors)?;
    tell_if(alloc, target, Rule::AssignReceiver, kind, errors)
}

/// Tells of a flag that the method needs and doesn't find.
fn test_support(
    alloc: Global,
    supports: &BackendAttrSupport,
    kind: SpecialKind,
    method: &Method,
    errors: &mut ErrorStore<'_>,
) -> Result<(), NoMemory>
    ensures told { OnOk result (errors.new ≡ added errors.old (support_errors kind
        (missing_flag supports.now kind method.now.param_self method.now.output))) }
    ensures kept { (earlier : Held) → Keeps earlier errors.old → Keeps earlier errors.new }
{
    match missing_flag(supports, kind, &method.param_self, &method.output) {
        Some(missing) => {
            let args = [kind.text(), missing.text()];
            errors.push(LoweringError::new(alloc, Rule::SpecialSupport, &args)?)
        }
        None => Ok(()),
    }
}

/// Tells of the return, and of the backend.
#[tactic(auto, using(hir_mark_contexts::proofs::Stores::told_both))]
fn test_output(
    alloc: Global,
    supports: &BackendAttrSupport,
    owner: TypeId,
    kind: SpecialKind,
    method: &Method,
    errors: &mut ErrorStore<'_>,
) -> Result<(), NoMemory>
    ensures told { OnOk result (errors.new
        ≡ added errors.old (output_errors supports.now owner kind method.now)) }
    ensures kept { (earlier : Held) → Keeps earlier errors.old → Keeps earlier errors.new }
{
    let is_wrong = !is_right_return(kind, owner, &method.output);
    tell_if(alloc, is_wrong, Rule::SpecialReturn, kind, errors)?;
    test_support(alloc, supports, kind, method, errors)
}

/// Tells of all that a special method of that kind breaks.
#[tactic(auto, using(hir_mark_contexts::proofs::Stores::told_both))]
fn test_kind(
    alloc: Global,
    supports: &BackendAttrSupport,
    owner: TypeId,
    kind: SpecialKind,
    method: &Method,
    errors: &mut ErrorStore<'_>,
) -> Result<(), NoMemory>
    ensures told { OnOk result (errors.new
        ≡ added errors.old (kind_errors supports.now owner kind method.now)) }
    ensures kept { (earlier : Held) → Keeps earlier errors.old → Keeps earlier errors.new }
{
    test_inputs(alloc, kind, method, errors)?;
    test_output(alloc, supports, owner, kind, method, errors)
}

/// Tests a method of the type of that id, where it is a special one: its receiver (rules `SpecialReceiver`, `AssignReceiver`), how many
/// parameters it has (`SpecialParams`), what a comparison compares (`SpecialOperand`), what it returns (`SpecialReturn`), and
/// what the backend supports (`SpecialSupport`). As `Attrs::validate` of `diplomat_core`.
///
/// `NoMemory` where there is no memory for the reports: then what the store held is still the front of what it holds.
#[tactic(auto, unfolding(crate::specs::Told::special_errors))]
pub fn validate_special(
    alloc: Global,
    supports: &BackendAttrSupport,
    owner: TypeId,
    method: &Method,
    errors: &mut ErrorStore<'_>,
) -> Result<(), NoMemory>
    ensures told { OnOk result (errors.new
        ≡ added errors.old (special_errors supports.now owner method.now)) }
    ensures kept { (earlier : Held) → Keeps earlier errors.old → Keeps earlier errors.new }
{
    match &method.attrs.special_method {
        Some(special) => test_kind(alloc, supports, owner, special.kind(), method, errors),
        None => Ok(()),
    }
}
