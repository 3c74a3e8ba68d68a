//! The types of all fields of one struct.

ghost use Rattle.std.specs.Prelude.{◌≡◌, ◌≢◌, ◌<◌, ◌++◌, [], ⊤, Err, IfErr, IfOk, IfSome, IsNone, MatchBool, OnErr, OnOk, length, map};
ghost use Rattle.bridge_decl.specs.Lifetimes.{IsSoundEnvironment};
ghost use Rattle.hir_fields.specs.Told.{StandsUnlessTold};
ghost use Rattle.hir_fields.specs.Types.{each_errors, field_types_form, types_errors};
ghost use Rattle.hir_fields.specs.inside.Numbering.{JudgedWhereNumbered, result_errors};
ghost use Rattle.hir_form.specs.ParamForms.{all_given};
ghost use Rattle.hir_heads.specs.Heads.{lifetime_errors};
ghost use Rattle.hir_number.specs.Breaches.{field_breaches};
ghost use Rattle.hir_number.specs.Faults.{FaultTold, IsOfElision};
ghost use Rattle.hir_number.specs.Naming.{IsNaming, Naming};
ghost use Rattle.hir_number.specs.Numbered.{AreNumberedFields};
ghost use Rattle.hir_number.specs.Numbers.{signature_numbers};
ghost use Rattle.hir_number.specs.Signatures.{field_uses};
ghost use Rattle.hir_reports.specs.Store.{Held, Keeps, added};
ghost use Rattle.hir_signatures.specs.Errors.{breach_error};

use crate::gathering::with_next;
use crate::idents::are_named;
use crate::kinds::FieldKind;
use bridge_ast::Env;
use bridge_decl::{Field, Items, NoMemory, Struct};
use bridge_rules::Catalog;
use hir_backends::BackendAttrSupport;
use hir_number::{NumberFault, NumberedType, field_breaches, number_fields, paths_have_a_meaning};
use hir_reports::ErrorStore;
use hir_signatures::{tell_breaches, tell_number_fault};
use std::alloc::Global;

/// The numbered types of fields.
fn judge_each<K: FieldKind>(
    alloc: Global,
    support: &BackendAttrSupport,
    catalog: &Catalog,
    fields: &[Field],
    types: &[NumberedType],
    errors: &mut ErrorStore<'_>,
) -> Result<Option<Items<K::Type>>, NoMemory>
    requires { length fields.now ≡ length types.now }
    ensures told { OnOk result (errors.new ≡ added errors.old
        (each_errors (K.type_errors support.now catalog.now) fields.now types.now)) }
    ensures given { IfOk result (StandsUnlessTold
        (each_errors (K.type_errors support.now catalog.now) fields.now types.now)
        (all_given (map (K.type_form catalog.now) types.now))) }
    ensures each { IfOk result
        (λ made. IfSome made (λ lowered. length lowered ≡ length fields.now)) }
    ensures kept { (earlier : Held) → Keeps earlier errors.old → Keeps earlier errors.new }
{
    let mut made = Some(Items::new(alloc));
    for i in 0..fields.len() {
        let ty = K::judge(alloc, support, catalog, &fields[i].name, &types[i], errors)?;
        made = with_next(made, ty)?;
    }
    Ok(made)
}

/// What came of numbering.
fn judge_numbered<K: FieldKind>(
    alloc: Global,
    support: &BackendAttrSupport,
    catalog: &Catalog,
    fields: &[Field],
    numbered: Result<Items<NumberedType>, NumberFault>,
    errors: &mut ErrorStore<'_>,
) -> Result<Option<Items<K::Type>>, NoMemory>
    requires { IfOk numbered (λ types. length fields.now ≡ length types) }
    ensures told { OnOk result (errors.new ≡ added errors.old
        (result_errors (K.type_errors support.now catalog.now) fields.now numbered)) }
    ensures given { IfOk result (JudgedWhereNumbered (K.type_errors support.now catalog.now)
        (K.type_form catalog.now) fields.now numbered) }
    ensures each { IfOk result
        (λ made. IfSome made (λ lowered. length lowered ≡ length fields.now)) }
    ensures memory { OnOk result (numbered ≢ Err NumberFault.NoMemory) }
    ensures kept { (earlier : Held) → Keeps earlier errors.old → Keeps earlier errors.new }
{
    match numbered {
        Ok(types) => judge_each::<K>(alloc, support, catalog, fields, types.as_slice(), errors),
        Err(fault) => {
            tell_number_fault(alloc, fault, errors)?;
            Ok(None)
        }
    }
}

/// The numbered types, one for each field.
fn number_each(
    alloc: Global,
    env: &Env,
    number: usize,
    item: &Struct,
) -> Result<Items<NumberedType>, NumberFault>
    requires number { number < length env.now }
    requires sound { IsSoundEnvironment item.now.lifetimes }
    ensures numbered { (names : Naming) → IsNaming env.now number names
        → IfOk result (λ types. AreNumberedFields names item.now types) }
    ensures fault { (names : Naming) → IsNaming env.now number names
        → IfErr result (λ fault. FaultTold item.now.lifetimes fault
        (signature_numbers item.now.lifetimes (field_uses names item.now.fields))) }
    ensures elision { (names : Naming) → IsNaming env.now number names
        → field_breaches names item.now ≡ [] → IfErr result IsOfElision }
    ensures each { IfOk result (λ types. length item.now.fields ≡ length types) }
{
    paths_have_a_meaning(env, number);
    number_fields(alloc, env, number, item)
}

/// Tells the breaches of the fields of a struct. Whether there are none.
fn test_fields(
    alloc: Global,
    env: &Env,
    number: usize,
    item: &Struct,
    errors: &mut ErrorStore<'_>,
) -> Result<bool, NoMemory>
    requires { number < length env.now }
    ensures told { (names : Naming) → IsNaming env.now number names
        → OnOk result (errors.new ≡ added errors.old
        (map breach_error (field_breaches names item.now))) }
    ensures fine { (names : Naming) → IsNaming env.now number names
        → IfOk result (λ fine. MatchBool fine (field_breaches names item.now ≡ [])
        (field_breaches names item.now ≢ [])) }
    ensures kept { (earlier : Held) → Keeps earlier errors.old → Keeps earlier errors.new }
{
    let breaches = field_breaches(alloc, env, number, item)?;
    let all = breaches.as_slice();
    tell_breaches(alloc, all, errors)?;
    Ok(all.is_empty())
}

/// The types of the fields of a struct, in order. None where something is wrong with them, or where a
/// declared lifetime has a name that is no identifier, which isn't told here.
pub fn lower_types<K: FieldKind>(
    alloc: Global,
    env: &Env,
    number: usize,
    item: &Struct,
    support: &BackendAttrSupport,
    catalog: &Catalog,
    errors: &mut ErrorStore<'_>,
) -> Result<Option<Items<K::Type>>, NoMemory>
    requires number { number < length env.now }
    requires sound { IsSoundEnvironment item.now.lifetimes }
    ensures told { (names : Naming) → IsNaming env.now number names
        → OnOk result (errors.new ≡ added errors.old
        (types_errors (K.type_errors support.now catalog.now) names item.now)) }
    ensures given { (names : Naming) → IsNaming env.now number names
        → IfOk result (StandsUnlessTold (lifetime_errors item.now.lifetimes
        ++ types_errors (K.type_errors support.now catalog.now) names item.now)
        (field_types_form (K.type_form catalog.now) names item.now)) }
    ensures misnamed { lifetime_errors item.now.lifetimes ≢ []
        → IfOk result (λ made. IsNone made) }
    ensures each { IfOk result
        (λ made. IfSome made (λ lowered. length lowered ≡ length item.now.fields)) }
    ensures kept { (earlier : Held) → Keeps earlier errors.old → Keeps earlier errors.new }
{
    if !test_fields(alloc, env, number, item, errors)? {
        return Ok(None);
    }
    if !are_named(&item.lifetimes) {
        return Ok(None);
    }
    let numbered = number_each(alloc, env, number, item);
    let fields = item.fields.as_slice();
    judge_numbered::<K>(alloc, support, catalog, fields, numbered, errors)
}
