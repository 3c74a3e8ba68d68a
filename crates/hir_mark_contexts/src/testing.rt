//! The test of a set of marks by its context.

ghost use Rattle.std.specs.Prelude.{◌≡◌, OnOk, IfOk, flat_map};
ghost use Rattle.hir_attrs.specs.Reading.{about, marks_of};
ghost use Rattle.hir_mark_contexts.specs.Told.{context_errors, misplaced_abi_rename, misplaced_mark, misplaced_special, placing_errors, tested_errors, unsupported_includes};
ghost use Rattle.hir_reports.specs.Store.{Held, Keeps, added, gained};

use crate::contexts::MarkContext;
use crate::sets::has_mark;
use bridge_decl::NoMemory;
use hir_attrs::{Attrs, MarkName};
use hir_backends::{AttributeValidator, SupportFlag};
use hir_reports::{ErrorStore, LoweringError, Rule};
use std::alloc::Global;

/// Tells that a mark of that name may not stand there.
fn tell_misplaced(alloc: Global, name: &str, errors: &mut ErrorStore<'_>) -> Result<(), NoMemory>
    ensures told { OnOk result
        (errors.new ≡ gained errors.old (about Rule.MarkMisplaced name.now)) }
    ensures kept { (earlier : Held) → Keeps earlier errors.old → Keeps earlier errors.new }
{
    errors.push(LoweringError::new(alloc, Rule::MarkMisplaced, &[name])?)
}

/// Tells of one mark, where the set has it and it may not stand there.
fn test_mark(
    alloc: Global,
    attrs: &Attrs,
    context: MarkContext,
    mark: &MarkName,
    errors: &mut ErrorStore<'_>,
) -> Result<(), NoMemory>
    ensures told { OnOk result
        (errors.new ≡ added errors.old (misplaced_mark context attrs.now mark.now)) }
    ensures kept { (earlier : Held) → Keeps earlier errors.old → Keeps earlier errors.new }
{
    if has_mark(attrs, *mark) && !context.allows(*mark) {
        return tell_misplaced(alloc, mark.text(), errors);
    }
    Ok(())
}

/// Tells of each of these marks, in order.
fn test_marks(
    alloc: Global,
    attrs: &Attrs,
    context: MarkContext,
    marks: &[MarkName],
    errors: &mut ErrorStore<'_>,
) -> Result<(), NoMemory>
    ensures told { OnOk result (errors.new
        ≡ added errors.old (flat_map (misplaced_mark context attrs.now) marks.now)) }
    ensures kept { (earlier : Held) → Keeps earlier errors.old → Keeps earlier errors.new }
{
    for mark in marks {
        test_mark(alloc, attrs, context, mark, errors)?;
    }
    Ok(())
}

/// Tells of a special method that isn't one of a type.
fn test_special(
    alloc: Global,
    attrs: &Attrs,
    context: MarkContext,
    errors: &mut ErrorStore<'_>,
) -> Result<(), NoMemory>
    ensures told { OnOk result (errors.new
        ≡ added errors.old (misplaced_special context attrs.now.special_method)) }
    ensures kept { (earlier : Held) → Keeps earlier errors.old → Keeps earlier errors.new }
{
    match &attrs.special_method {
        Some(method) if !context.is_method() => {
            tell_misplaced(alloc, method.kind().text(), errors)
        }
        _ => Ok(()),
    }
}

/// Tells of the pattern of an exported symbol, where nothing is exported under a name.
fn test_abi_rename(
    alloc: Global,
    attrs: &Attrs,
    context: MarkContext,
    errors: &mut ErrorStore<'_>,
) -> Result<(), NoMemory>
    ensures told { OnOk result
        (errors.new ≡ added errors.old (misplaced_abi_rename context attrs.now)) }
    ensures kept { (earlier : Held) → Keeps earlier errors.old → Keeps earlier errors.new }
{
    if attrs.abi_rename.pattern().is_some() && !context.may_be_renamed() {
        return tell_misplaced(alloc, "abi_rename", errors);
    }
    Ok(())
}

/// Tells of included code, where the backend doesn't support it.
fn test_includes<V: AttributeValidator>(
    alloc: Global,
    validator: &V,
    attrs: &Attrs,
    errors: &mut ErrorStore<'_>,
) -> Result<(), NoMemory>
    ensures told { OnOk result (errors.new ≡ added errors.old
        (unsupported_includes (V.meaning validator.now) attrs.now)) }
    ensures kept { (earlier : Held) → Keeps earlier errors.old → Keeps earlier errors.new }
{
    let is_included = has_mark(attrs, MarkName::CustomExtraCode);
    if is_included && !validator.attrs_supported().has(SupportFlag::CustomBindings) {
        return errors.push(LoweringError::plain(alloc, Rule::IncludeUnsupported));
    }
    Ok(())
}

/// Tells of all that the set breaks in a context that is tested.
#[tactic(auto, using(crate::proofs::Stores::told_four))]
fn test_all<V: AttributeValidator>(
    alloc: Global,
    validator: &V,
    attrs: &Attrs,
    context: MarkContext,
    errors: &mut ErrorStore<'_>,
) -> Result<(), NoMemory>
    ensures told { OnOk result (errors.new ≡ added errors.old
        (placing_errors (V.meaning validator.now) context attrs.now)) }
    ensures kept { (earlier : Held) → Keeps earlier errors.old → Keeps earlier errors.new }
{
    test_marks(alloc, attrs, context, MarkName::all(), errors)?;
    test_special(alloc, attrs, context, errors)?;
    test_abi_rename(alloc, attrs, context, errors)?;
    test_includes(alloc, validator, attrs, errors)
}

/// Tests a set of marks by what is marked with it. Each misplaced mark is told (rule `MarkMisplaced`), in the order of the table of marks,
/// then a special method, then `abi_rename`; and last included code that the backend doesn't support (rule
/// `IncludeUnsupported`). Fields of out-structs and disabled methods aren't tested. As `Attrs::validate` of `diplomat_core`.
///
/// `NoMemory` where there is no memory for the reports: then what the store held is still the front of what it holds.
#[tactic(auto, unfolding(crate::specs::Told::context_errors))]
pub fn validate_attrs<V: AttributeValidator>(
    alloc: Global,
    validator: &V,
    attrs: &Attrs,
    context: MarkContext,
    errors: &mut ErrorStore<'_>,
) -> Result<(), NoMemory>
    ensures told { OnOk result (errors.new ≡ added errors.old
        (context_errors (V.meaning validator.now) context attrs.now)) }
    ensures kept { (earlier : Held) → Keeps earlier errors.old → Keeps earlier errors.new }
{
    if context.is_tested(attrs) {
        return test_all(alloc, validator, attrs, context, errors);
    }
    Ok(())
}

/// The marks of a declaration, which start from those of its parent, tested by what is marked. What the marks break is told, and then what
/// the set breaks there. `NoMemory` as for [`validate_attrs`].
#[tactic(auto, using(crate::proofs::Stores::told_both, crate::proofs::Stores::added_keeps), unfolding(crate::specs::Told::tested_errors))]
pub fn tested_attrs<V: AttributeValidator>(
    alloc: Global,
    declared: &bridge_decl::Attrs,
    context: MarkContext,
    parent: Attrs,
    validator: &V,
    errors: &mut ErrorStore<'_>,
) -> Result<Attrs, NoMemory>
    ensures told { OnOk result (errors.new ≡ added errors.old
        (tested_errors (V.meaning validator.now) context declared.now parent)) }
    ensures made { IfOk result
        (λ attrs. attrs ≡ marks_of (V.meaning validator.now) declared.now parent) }
    ensures kept { (earlier : Held) → Keeps earlier errors.old → Keeps earlier errors.new }
{
    let attrs = Attrs::from_ast(alloc, declared, validator, parent, errors)?;
    validate_attrs(alloc, validator, &attrs, context, errors)?;
    Ok(attrs)
}
