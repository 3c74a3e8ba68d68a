//! The fields of structs and of out-structs.

ghost use Rattle.std.specs.Prelude.{◌≡◌, ◌≢◌, ◌<◌, ◌++◌, [], IfOk, IsNone, OnOk, length, option_map};
ghost use Rattle.bridge_decl.specs.Lifetimes.{IsSoundEnvironment};
ghost use Rattle.hir_fields.specs.Fields.{fields_errors, fields_form, out_fields_errors, out_fields_form};
ghost use Rattle.hir_fields.specs.Heads.{field_heads_errors};
ghost use Rattle.hir_fields.specs.Told.{StandsUnlessTold};
ghost use Rattle.hir_fields.specs.Types.{field_types_form, types_errors};
ghost use Rattle.hir_fields.specs.inside.Heads.{kind_fields};
ghost use Rattle.hir_heads.specs.Heads.{lifetime_errors};
ghost use Rattle.hir_number.specs.Naming.{IsNaming, Naming};
ghost use Rattle.hir_reports.specs.Store.{Held, Keeps, added};

use crate::heads::lower_heads;
use crate::kinds::{FieldKind, OfOutStruct, OfStruct};
use crate::types::lower_types;
use bridge_ast::Env;
use bridge_decl::{Items, NoMemory, Struct};
use bridge_rules::Catalog;
use hir_backends::AttributeValidator;
use hir_definitions::{OutStructField, StructField};
use hir_mark_contexts::MarkContext;
use hir_reports::ErrorStore;
use hir_types::Everywhere;
use std::alloc::Global;

/// The fields of one kind.
fn lower_kind<K: FieldKind, V: AttributeValidator>(
    alloc: Global,
    env: &Env,
    number: usize,
    item: &Struct,
    context: MarkContext,
    catalog: &Catalog,
    validator: &V,
    errors: &mut ErrorStore<'_>,
) -> Result<Option<Items<K::Field>>, NoMemory>
    requires number { number < length env.now }
    requires sound { IsSoundEnvironment item.now.lifetimes }
    ensures told { (names : Naming) → IsNaming env.now number names
        → OnOk result (errors.new ≡ added errors.old
        (field_heads_errors (V.meaning validator.now) context item.now.fields
        ++ types_errors (K.type_errors (V.meaning validator.now).supports catalog.now)
        names item.now)) }
    ensures given { (names : Naming) → IsNaming env.now number names
        → IfOk result (StandsUnlessTold (lifetime_errors item.now.lifetimes
        ++ (field_heads_errors (V.meaning validator.now) context item.now.fields
        ++ types_errors (K.type_errors (V.meaning validator.now).supports catalog.now)
        names item.now))
        (option_map (kind_fields K.field (V.meaning validator.now) item.now.fields)
        (field_types_form (K.type_form catalog.now) names item.now))) }
    ensures misnamed { lifetime_errors item.now.lifetimes ≢ []
        → IfOk result (λ made. IsNone made) }
    ensures kept { (earlier : Held) → Keeps earlier errors.old → Keeps earlier errors.new }
{
    let support = validator.attrs_supported();
    let heads = lower_heads(alloc, item.fields.as_slice(), context, validator, errors)?;
    let types = lower_types::<K>(alloc, env, number, item, &support, catalog, errors)?;
    K::join(alloc, heads, types)
}

/// The fields of a struct that is enabled and is written in the module of a number, in order. None
/// where something is wrong: all of it is told, in order, at the place of the store. None also where
/// a declared lifetime of the struct has a name that is no identifier: that is told with the names.
/// `NoMemory` where there is no memory for them or for the reports.
pub fn lower_fields<V: AttributeValidator>(
    alloc: Global,
    env: &Env,
    number: usize,
    item: &Struct,
    catalog: &Catalog,
    validator: &V,
    errors: &mut ErrorStore<'_>,
) -> Result<Option<Items<StructField<Everywhere>>>, NoMemory>
    requires number { number < length env.now }
    requires sound { IsSoundEnvironment item.now.lifetimes }
    ensures told { (names : Naming) → IsNaming env.now number names
        → OnOk result (errors.new ≡ added errors.old
        (fields_errors (V.meaning validator.now) catalog.now names item.now)) }
    ensures made { (names : Naming) → IsNaming env.now number names
        → IfOk result (StandsUnlessTold (lifetime_errors item.now.lifetimes
        ++ fields_errors (V.meaning validator.now) catalog.now names item.now)
        (fields_form (V.meaning validator.now) catalog.now names item.now)) }
    ensures misnamed { lifetime_errors item.now.lifetimes ≢ []
        → IfOk result (λ made. IsNone made) }
    ensures kept { (earlier : Held) → Keeps earlier errors.old → Keeps earlier errors.new }
{
    let context = MarkContext::Field;
    lower_kind::<OfStruct, V>(
        alloc, env, number, item, context, catalog, validator, errors,
    )
}

/// The fields of an out-struct; else as [`lower_fields`], but for the layout of their types, which
/// is nothing to an out-struct.
pub fn lower_out_fields<V: AttributeValidator>(
    alloc: Global,
    env: &Env,
    number: usize,
    item: &Struct,
    catalog: &Catalog,
    validator: &V,
    errors: &mut ErrorStore<'_>,
) -> Result<Option<Items<OutStructField>>, NoMemory>
    requires number { number < length env.now }
    requires sound { IsSoundEnvironment item.now.lifetimes }
    ensures told { (names : Naming) → IsNaming env.now number names
        → OnOk result (errors.new ≡ added errors.old
        (out_fields_errors (V.meaning validator.now) catalog.now names item.now)) }
    ensures made { (names : Naming) → IsNaming env.now number names
        → IfOk result (StandsUnlessTold (lifetime_errors item.now.lifetimes
        ++ out_fields_errors (V.meaning validator.now) catalog.now names item.now)
        (out_fields_form (V.meaning validator.now) catalog.now names item.now)) }
    ensures misnamed { lifetime_errors item.now.lifetimes ≢ []
        → IfOk result (λ made. IsNone made) }
    ensures kept { (earlier : Held) → Keeps earlier errors.old → Keeps earlier errors.new }
{
    let context = MarkContext::OutStructField;
    lower_kind::<OfOutStruct, V>(
        alloc, env, number, item, context, catalog, validator, errors,
    )
}
