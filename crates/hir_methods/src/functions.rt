//! Functions outside types.

ghost use Rattle.std.specs.Prelude.{◌≡◌, ◌++◌, ◌<◌, IfOk, OnOk, Some, length, map, option_map};
ghost use Rattle.bridge_decl.specs.Lifetimes.{IsSoundEnvironment};
ghost use Rattle.bridge_grid.specs.Items.{free_function_faults};
ghost use Rattle.bridge_grid.specs.Telling.{fault_error};
ghost use Rattle.hir_methods.specs.Functions.{callable_errors, callable_form, disabled_form, function_errors, function_form, headed_form, no_environment};
ghost use Rattle.hir_methods.specs.Types.{unless_told};
ghost use Rattle.hir_methods.specs.Untyped.{heading_errors, heading_form, unless_disabled};
ghost use Rattle.hir_methods.specs.inside.Parts.{GivenUnlessTold};
ghost use Rattle.hir_number.specs.Naming.{IsNaming, Naming};
ghost use Rattle.hir_reports.specs.Store.{Held, Keeps, added};

use crate::choosing::{beside, kept_if};
use crate::headings::{Heading, lower_heading};
use crate::params::lower_each_untyped;
use crate::types::lower_function_types;
use crate::whole::{gather, join_whole};
use bridge_ast::Env;
use bridge_decl::{Function, Items, NoMemory};
use bridge_grid::{tell, test_free_function};
use bridge_rules::Catalog;
use hir_attrs::Attrs;
use hir_backends::{AttributeValidator, BackendAttrSupport};
use hir_config::LoweringConfig;
use hir_definitions::Method;
use hir_ids::Ident;
use hir_life::LifetimeEnv;
use hir_mark_contexts::{MarkContext, tested_attrs};
use hir_number::before_writer;
use hir_reports::ErrorStore;
use hir_types::{ReturnType, SuccessType};
use std::alloc::Global;

/// Tells where the backend has no functions outside types.
#[tactic(auto, using(hir_mark_contexts::proofs::Stores::added_keeps))]
fn tell_free(
    alloc: Global,
    support: &BackendAttrSupport,
    errors: &mut ErrorStore<'_>,
) -> Result<(), NoMemory>
    ensures told { OnOk result (errors.new
        ≡ added errors.old (map fault_error (free_function_faults support.now))) }
    ensures kept { (earlier : Held) → Keeps earlier errors.old → Keeps earlier errors.new }
{
    let faults = test_free_function(alloc, support)?;
    tell(alloc, errors, faults.as_slice())
}

/// No lifetimes.
fn no_environment(alloc: Global) -> LifetimeEnv
    ensures { result ≡ no_environment }
{
    LifetimeEnv::new(Items::new(alloc), 0)
}

/// A disabled function.
fn disabled(alloc: Global, attrs: Attrs, heading: Heading) -> Method
    ensures { result ≡ disabled_form attrs heading }
{
    let Heading {
        docs,
        name,
        abi_name,
    } = heading;
    Method {
        docs,
        name: Ident::new(name),
        abi_name,
        lifetime_env: no_environment(alloc),
        param_self: None,
        params: Items::new(alloc),
        output: ReturnType::Infallible(SuccessType::Unit),
        attrs,
    }
}

/// A disabled function, where it has a heading.
fn disabled_if(alloc: Global, attrs: Attrs, heading: Option<Heading>) -> Option<Method>
    ensures { result ≡ option_map (disabled_form attrs) heading }
{
    match heading {
        Some(heading) => Some(disabled(alloc, attrs, heading)),
        None => None,
    }
}

/// An enabled function with these marks, and with this heading where it has one: else it is told of,
/// and nothing is made.
fn lower_callable<V: AttributeValidator>(
    alloc: Global,
    env: &Env,
    number: usize,
    function: &Function,
    attrs: Attrs,
    heading: Option<Heading>,
    validator: &V,
    support: &BackendAttrSupport,
    config: LoweringConfig,
    catalog: &Catalog,
    errors: &mut ErrorStore<'_>,
) -> Result<Option<Method>, NoMemory>
    requires number { number < length env.now }
    requires sound { IsSoundEnvironment function.now.lifetimes }
    ensures told { (names : Naming) → IsNaming env.now number names
        → OnOk result (errors.new ≡ added errors.old (callable_errors (V.meaning validator.now)
        support.now config catalog.now names function.now)) }
    ensures made { (names : Naming) (it : Heading) → IsNaming env.now number names
        → heading ≡ Some it → IfOk result (GivenUnlessTold (callable_errors
        (V.meaning validator.now) support.now config catalog.now names function.now)
        (callable_form (V.meaning validator.now) catalog.now names attrs it function.now)) }
    ensures kept { (earlier : Held) → Keeps earlier errors.old → Keeps earlier errors.new }
{
    tell_free(alloc, support, errors)?;
    let params = before_writer(function.params.as_slice());
    let params = lower_each_untyped(alloc, params, validator, errors)?;
    let types = lower_function_types(
        alloc, env, number, function, support, config, catalog, errors,
    );
    let parts = beside(gather(heading, None, params), types)?;
    join_whole(alloc, attrs, parts)
}

/// A function with these marks, and with this heading where it has one.
fn lower_headed<V: AttributeValidator>(
    alloc: Global,
    env: &Env,
    number: usize,
    function: &Function,
    attrs: Attrs,
    heading: Option<Heading>,
    validator: &V,
    support: &BackendAttrSupport,
    config: LoweringConfig,
    catalog: &Catalog,
    errors: &mut ErrorStore<'_>,
) -> Result<Option<Method>, NoMemory>
    requires number { number < length env.now }
    requires sound { IsSoundEnvironment function.now.lifetimes }
    ensures told { (names : Naming) → IsNaming env.now number names
        → OnOk result (errors.new ≡ added errors.old (unless_disabled attrs (callable_errors
        (V.meaning validator.now) support.now config catalog.now names function.now))) }
    ensures made { (names : Naming) (it : Heading) → IsNaming env.now number names
        → heading ≡ Some it → IfOk result
        (GivenUnlessTold (unless_disabled attrs (callable_errors
        (V.meaning validator.now) support.now config catalog.now names function.now))
        (headed_form (V.meaning validator.now) catalog.now names attrs it function.now)) }
    ensures kept { (earlier : Held) → Keeps earlier errors.old → Keeps earlier errors.new }
{
    if attrs.disable {
        return Ok(disabled_if(alloc, attrs, heading));
    }
    lower_callable(
        alloc, env, number, function, attrs, heading, validator, support, config, catalog, errors,
    )
}

/// A function, whose marks start from those that are handed in.
fn lower_marked<V: AttributeValidator>(
    alloc: Global,
    env: &Env,
    number: usize,
    function: &Function,
    parent: Attrs,
    validator: &V,
    support: &BackendAttrSupport,
    config: LoweringConfig,
    catalog: &Catalog,
    errors: &mut ErrorStore<'_>,
) -> Result<Option<Method>, NoMemory>
    requires number { number < length env.now }
    requires sound { IsSoundEnvironment function.now.lifetimes }
    ensures told { (names : Naming) → IsNaming env.now number names
        → OnOk result (errors.new ≡ added errors.old (function_errors (V.meaning validator.now)
        support.now config catalog.now names parent function.now)) }
    ensures made { (names : Naming) → IsNaming env.now number names
        → IfOk result (GivenUnlessTold (function_errors (V.meaning validator.now)
        support.now config catalog.now names parent function.now)
        (function_form (V.meaning validator.now) catalog.now names parent function.now)) }
    ensures kept { (earlier : Held) → Keeps earlier errors.old → Keeps earlier errors.new }
{
    let context = MarkContext::Function;
    let attrs = tested_attrs(alloc, &function.attrs, context, parent, validator, errors)?;
    let heading = lower_heading(
        alloc,
        &function.docs,
        &function.name,
        &function.abi_name,
        &function.lifetimes,
        validator,
        errors,
    )?;
    lower_headed(
        alloc, env, number, function, attrs, heading, validator, support, config, catalog, errors,
    )
}

/// A function, which is told with all that is wrong in it, in order. Its marks start from those that
/// are handed in. A disabled one stays, but takes and returns nothing: its marks and its heading
/// alone are tested. None exactly where something is told. `NoMemory` where there is no memory for it
/// or for the reports.
pub fn lower_function<V: AttributeValidator>(
    alloc: Global,
    env: &Env,
    number: usize,
    function: &Function,
    parent: Attrs,
    validator: &V,
    support: &BackendAttrSupport,
    config: LoweringConfig,
    catalog: &Catalog,
    errors: &mut ErrorStore<'_>,
) -> Result<Option<Method>, NoMemory>
    requires number { number < length env.now }
    requires sound { IsSoundEnvironment function.now.lifetimes }
    ensures told { (names : Naming) → IsNaming env.now number names
        → OnOk result (errors.new ≡ added errors.old (function_errors (V.meaning validator.now)
        support.now config catalog.now names parent function.now)) }
    ensures made { (names : Naming) → IsNaming env.now number names
        → IfOk result (λ made. made ≡ unless_told (function_errors (V.meaning validator.now)
        support.now config catalog.now names parent function.now)
        (function_form (V.meaning validator.now) catalog.now names parent function.now)) }
    ensures kept { (earlier : Held) → Keeps earlier errors.old → Keeps earlier errors.new }
{
    let before = errors.len();
    let made = lower_marked(
        alloc, env, number, function, parent, validator, support, config, catalog, errors,
    )?;
    Ok(kept_if(errors.len() == before, made))
}
