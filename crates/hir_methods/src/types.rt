//! The types of methods and functions: what is told and made of them is given by the declaration.

ghost use Rattle.std.specs.Prelude.{◌≡◌, ◌<◌, IfOk, OnOk, length};
ghost use Rattle.bridge_decl.specs.Lifetimes.{IsSoundEnvironment};
ghost use Rattle.hir_methods.specs.Types.{function_type_errors, function_types, method_type_errors, method_types};
ghost use Rattle.hir_methods.specs.inside.Parts.{GivenUnlessTold};
ghost use Rattle.hir_number.specs.Naming.{IsNaming, Naming};
ghost use Rattle.hir_reports.specs.Store.{Held, Keeps, added};

use crate::writers::trailing_writer;
use bridge_ast::{Env, ItemPlace};
use bridge_decl::{Function, Method, NoMemory};
use bridge_rules::Catalog;
use hir_backends::BackendAttrSupport;
use hir_config::LoweringConfig;
use hir_number::paths_have_a_meaning;
use hir_reports::ErrorStore;
use hir_signatures::{SignatureTypes, lower_function_signature, lower_method_signature};
use std::alloc::Global;

/// The types of a method of the type there.
pub(crate) fn lower_method_types(
    alloc: Global,
    env: &Env,
    number: usize,
    owner: ItemPlace,
    method: &Method,
    support: &BackendAttrSupport,
    config: LoweringConfig,
    catalog: &Catalog,
    errors: &mut ErrorStore<'_>,
) -> Result<Option<SignatureTypes>, NoMemory>
    requires number { number < length env.now }
    requires sound { IsSoundEnvironment method.now.lifetime_env }
    ensures told { (names : Naming) → IsNaming env.now number names
        → OnOk result (errors.new ≡ added errors.old
        (method_type_errors support.now config catalog.now names owner method.now)) }
    ensures made { (names : Naming) → IsNaming env.now number names
        → IfOk result (GivenUnlessTold
        (method_type_errors support.now config catalog.now names owner method.now)
        (method_types catalog.now names owner method.now)) }
    ensures kept { (earlier : Held) → Keeps earlier errors.old → Keeps earlier errors.new }
{
    paths_have_a_meaning(env, number);
    let written = trailing_writer(method.params.as_slice());
    lower_method_signature(
        alloc, env, number, owner, method, support, config, catalog, written, errors,
    )
}

/// The types of a function.
pub(crate) fn lower_function_types(
    alloc: Global,
    env: &Env,
    number: usize,
    function: &Function,
    support: &BackendAttrSupport,
    config: LoweringConfig,
    catalog: &Catalog,
    errors: &mut ErrorStore<'_>,
) -> Result<Option<SignatureTypes>, NoMemory>
    requires number { number < length env.now }
    requires sound { IsSoundEnvironment function.now.lifetimes }
    ensures told { (names : Naming) → IsNaming env.now number names
        → OnOk result (errors.new ≡ added errors.old
        (function_type_errors support.now config catalog.now names function.now)) }
    ensures made { (names : Naming) → IsNaming env.now number names
        → IfOk result (GivenUnlessTold
        (function_type_errors support.now config catalog.now names function.now)
        (function_types catalog.now names function.now)) }
    ensures kept { (earlier : Held) → Keeps earlier errors.old → Keeps earlier errors.new }
{
    paths_have_a_meaning(env, number);
    let written = trailing_writer(function.params.as_slice());
    lower_function_signature(
        alloc, env, number, function, support, config, catalog, written, errors,
    )
}
