//! Methods of types.

ghost use Rattle.std.specs.Prelude.{◌≡◌, ◌<◌, IfOk, OnOk, length};
ghost use Rattle.bridge_decl.specs.Lifetimes.{IsSoundEnvironment};
ghost use Rattle.hir_heads.specs.Told.{MadeUnlessTold};
ghost use Rattle.hir_methods.specs.Methods.{enabled_errors, enabled_form, method_errors, method_form, plain_method_errors};
ghost use Rattle.hir_methods.specs.Types.{unless_told};
ghost use Rattle.hir_methods.specs.inside.Parts.{GivenUnlessTold};
ghost use Rattle.hir_methods.specs.inside.Gathering.{apart_errors, apart_form};
ghost use Rattle.hir_number.specs.Naming.{IsNaming, Naming};
ghost use Rattle.hir_reports.specs.Store.{Held, Keeps, added};

use crate::choosing::{beside, kept_if};
use crate::headings::lower_heading;
use crate::params::read_receiver;
use crate::required::lower_method_params;
use crate::special::{keep_special, owner_id};
use crate::types::lower_method_types;
use crate::whole::{Untyped, gather, join_whole};
use bridge_ast::{Env, ItemPlace};
use bridge_decl::{Method as Declared, NoMemory};
use bridge_rules::Catalog;
use hir_attrs::Attrs;
use hir_backends::{AttributeValidator, BackendAttrSupport};
use hir_config::LoweringConfig;
use hir_definitions::Method;
use hir_mark_contexts::{MarkContext, tested_attrs};
use hir_number::before_writer;
use hir_reports::ErrorStore;
use std::alloc::Global;

/// What an enabled method has beside its own marks and its types.
fn lower_untyped<V: AttributeValidator>(
    alloc: Global,
    method: &Declared,
    validator: &V,
    errors: &mut ErrorStore<'_>,
) -> Result<Option<Untyped>, NoMemory>
    ensures told { OnOk result (errors.new
        ≡ added errors.old (apart_errors (V.meaning validator.now) method.now)) }
    ensures made { IfOk result (MadeUnlessTold
        (apart_errors (V.meaning validator.now) method.now)
        (apart_form (V.meaning validator.now) method.now)) }
    ensures kept { (earlier : Held) → Keeps earlier errors.old → Keeps earlier errors.new }
{
    let heading = lower_heading(
        alloc,
        &method.docs,
        &method.name,
        &method.abi_name,
        &method.lifetime_env,
        validator,
        errors,
    )?;
    let receiver = read_receiver(alloc, &method.self_param, validator, errors)?;
    let params = before_writer(method.params.as_slice());
    let params = lower_method_params(alloc, params, validator, errors)?;
    Ok(gather(heading, receiver, params))
}

/// An enabled method of the type there, with these marks.
fn lower_enabled<V: AttributeValidator>(
    alloc: Global,
    env: &Env,
    number: usize,
    owner: ItemPlace,
    method: &Declared,
    attrs: Attrs,
    validator: &V,
    support: &BackendAttrSupport,
    config: LoweringConfig,
    catalog: &Catalog,
    errors: &mut ErrorStore<'_>,
) -> Result<Option<Method>, NoMemory>
    requires number { number < length env.now }
    requires sound { IsSoundEnvironment method.now.lifetime_env }
    ensures told { (names : Naming) → IsNaming env.now number names
        → OnOk result (errors.new ≡ added errors.old (enabled_errors (V.meaning validator.now)
        support.now config catalog.now names owner method.now)) }
    ensures made { (names : Naming) → IsNaming env.now number names
        → IfOk result (GivenUnlessTold (enabled_errors (V.meaning validator.now)
        support.now config catalog.now names owner method.now)
        (enabled_form (V.meaning validator.now) catalog.now names owner attrs method.now)) }
    ensures kept { (earlier : Held) → Keeps earlier errors.old → Keeps earlier errors.new }
{
    let untyped = lower_untyped(alloc, method, validator, errors)?;
    let types = lower_method_types(
        alloc, env, number, owner, method, support, config, catalog, errors,
    );
    let parts = beside(untyped, types)?;
    join_whole(alloc, attrs, parts)
}

/// A method of the type there, or none where it is disabled; its marks start from those that are
/// handed in.
fn lower_marked<V: AttributeValidator>(
    alloc: Global,
    env: &Env,
    number: usize,
    owner: ItemPlace,
    method: &Declared,
    parent: Attrs,
    validator: &V,
    support: &BackendAttrSupport,
    config: LoweringConfig,
    catalog: &Catalog,
    errors: &mut ErrorStore<'_>,
) -> Result<Option<Method>, NoMemory>
    requires number { number < length env.now }
    requires sound { IsSoundEnvironment method.now.lifetime_env }
    ensures told { (names : Naming) → IsNaming env.now number names
        → OnOk result (errors.new ≡ added errors.old (plain_method_errors
        (V.meaning validator.now) support.now config catalog.now names owner parent method.now)) }
    ensures made { (names : Naming) → IsNaming env.now number names
        → IfOk result (GivenUnlessTold (plain_method_errors (V.meaning validator.now)
        support.now config catalog.now names owner parent method.now)
        (method_form (V.meaning validator.now) catalog.now names owner parent method.now)) }
    ensures kept { (earlier : Held) → Keeps earlier errors.old → Keeps earlier errors.new }
{
    let context = MarkContext::Method;
    let attrs = tested_attrs(alloc, &method.attrs, context, parent, validator, errors)?;
    if attrs.disable {
        return Ok(None);
    }
    lower_enabled(
        alloc, env, number, owner, method, attrs, validator, support, config, catalog, errors,
    )
}

/// A method of the type there, which is told with all that is wrong in it but for what it is marked as.
fn lower_plain<V: AttributeValidator>(
    alloc: Global,
    env: &Env,
    number: usize,
    owner: ItemPlace,
    method: &Declared,
    parent: Attrs,
    validator: &V,
    support: &BackendAttrSupport,
    config: LoweringConfig,
    catalog: &Catalog,
    errors: &mut ErrorStore<'_>,
) -> Result<Option<Method>, NoMemory>
    requires number { number < length env.now }
    requires sound { IsSoundEnvironment method.now.lifetime_env }
    ensures told { (names : Naming) → IsNaming env.now number names
        → OnOk result (errors.new ≡ added errors.old (plain_method_errors
        (V.meaning validator.now) support.now config catalog.now names owner parent
        method.now)) }
    ensures made { (names : Naming) → IsNaming env.now number names
        → IfOk result (λ made. made ≡ unless_told (plain_method_errors
        (V.meaning validator.now) support.now config catalog.now names owner parent method.now)
        (method_form (V.meaning validator.now) catalog.now names owner parent method.now)) }
    ensures kept { (earlier : Held) → Keeps earlier errors.old → Keeps earlier errors.new }
{
    let before = errors.len();
    let made = lower_marked(
        alloc, env, number, owner, method, parent, validator, support, config, catalog, errors,
    )?;
    Ok(kept_if(errors.len() == before, made))
}

/// A method of the type there, which is told with all that is wrong in it, in order, and where nothing is,
/// with what it breaks as a special method. Its marks start from those that are handed in. None exactly
/// where it is disabled, of which the marks alone are read, or where something is told. `NoMemory` where there is no memory for it or for the reports.
#[tactic(auto, unfolding(crate::specs::Methods::method_errors))]
pub fn lower_method<V: AttributeValidator>(
    alloc: Global,
    env: &Env,
    number: usize,
    owner: ItemPlace,
    method: &Declared,
    parent: Attrs,
    validator: &V,
    support: &BackendAttrSupport,
    config: LoweringConfig,
    catalog: &Catalog,
    errors: &mut ErrorStore<'_>,
) -> Result<Option<Method>, NoMemory>
    requires number { number < length env.now }
    requires sound { IsSoundEnvironment method.now.lifetime_env }
    ensures told { (names : Naming) → IsNaming env.now number names
        → OnOk result (errors.new ≡ added errors.old (method_errors (V.meaning validator.now)
        support.now config catalog.now names owner parent method.now)) }
    ensures made { (names : Naming) → IsNaming env.now number names
        → IfOk result (λ made. made ≡ unless_told (method_errors (V.meaning validator.now)
        support.now config catalog.now names owner parent method.now)
        (method_form (V.meaning validator.now) catalog.now names owner parent method.now)) }
    ensures kept { (earlier : Held) → Keeps earlier errors.old → Keeps earlier errors.new }
{
    let made = lower_plain(
        alloc, env, number, owner, method, parent, validator, support, config, catalog, errors,
    )?;
    match made {
        Some(made) => keep_special(alloc, support, owner_id(catalog.entry(owner)), made, errors),
        None => Ok(None),
    }
}
