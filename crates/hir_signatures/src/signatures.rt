//! The types of a method or a function: told with all that is wrong, or lowered.

ghost use Rattle.std.specs.Prelude.{◌≡◌, ◌≢◌, ◌<◌, [], ⊤, Err, IfOk, MatchBool, OnErr, OnOk, length, map};
ghost use Rattle.bridge_decl.specs.Lifetimes.{IsSoundEnvironment};
ghost use Rattle.hir_form.specs.Judging.{IsJudged, with_faults};
ghost use Rattle.hir_form.specs.SignatureForms.{signature_faults};
ghost use Rattle.hir_number.specs.Breaches.{function_breaches, method_breaches};
ghost use Rattle.hir_number.specs.Naming.{IsNaming, Naming};
ghost use Rattle.hir_reports.specs.Store.{added};
ghost use Rattle.hir_signatures.specs.Errors.{breach_error};
ghost use Rattle.hir_signatures.specs.Lowered.{IsLoweredFunction, IsLoweredMethod};
ghost use Rattle.hir_signatures.specs.Stages.{IsMade, stage_errors, types_form};
ghost use Rattle.hir_signatures.specs.inside.Numbering.{stage_of};

use crate::breaches::{are_none, tell_breaches};
use crate::faults::tell_number_fault;
use crate::idents::have_idents;
use bridge_ast::{Env, ItemPlace};
use bridge_decl::{Function, Method, NoMemory, WriteType};
use bridge_rules::Catalog;
use hir_backends::BackendAttrSupport;
use hir_config::LoweringConfig;
use hir_form::{LoweredSignature, judge_signature};
use hir_life::LifetimeEnv;
use hir_number::{
    NumberFault, NumberedSignature, function_breaches, method_breaches, number_function,
    number_method,
};
use hir_reports::ErrorStore;
use std::alloc::Global;

/// The types of a method or a function, and all its lifetimes.
#[derive(Drop)]
pub struct SignatureTypes {
    /// The receiver, the parameters and what is returned or written.
    pub types: LoweredSignature,
    /// The declared lifetimes, with the count of all: what the signature leaves out comes after
    /// the declared ones.
    pub lifetimes: LifetimeEnv,
}

/// A signature with numbers.
fn lower_judged(
    alloc: Global,
    support: &BackendAttrSupport,
    config: LoweringConfig,
    catalog: &Catalog,
    written: Option<WriteType>,
    signature: NumberedSignature,
    errors: &mut ErrorStore<'_>,
) -> Result<Option<SignatureTypes>, NoMemory>
    ensures told { OnOk result (errors.new ≡ with_faults errors.old
        (signature_faults support.now config catalog.now written signature)) }
    ensures made { IfOk result (IsJudged
        (signature_faults support.now config catalog.now written signature)
        (types_form catalog.now written signature)) }
    ensures err { OnErr result (errors.new ≡ errors.old) }
{
    match judge_signature(alloc, errors, support, config, catalog, written, &signature)? {
        Some(types) => {
            let lifetimes = signature.lifetimes;
            Ok(Some(SignatureTypes { types, lifetimes }))
        }
        None => Ok(None),
    }
}

/// What came of numbering.
fn lower_numbered(
    alloc: Global,
    support: &BackendAttrSupport,
    config: LoweringConfig,
    catalog: &Catalog,
    written: Option<WriteType>,
    numbered: Result<NumberedSignature, NumberFault>,
    errors: &mut ErrorStore<'_>,
) -> Result<Option<SignatureTypes>, NoMemory>
    ensures told { OnOk result (errors.new ≡ added errors.old (stage_errors []
        (signature_faults support.now config catalog.now written) (stage_of numbered))) }
    ensures made { IfOk result (IsMade
        (signature_faults support.now config catalog.now written)
        (types_form catalog.now written) (stage_of numbered)) }
    ensures memory { OnOk result (numbered ≢ Err NumberFault.NoMemory) }
    ensures err { OnErr result (errors.new ≡ errors.old) }
{
    match numbered {
        Ok(signature) => lower_judged(alloc, support, config, catalog, written, signature, errors),
        Err(fault) => {
            tell_number_fault(alloc, fault, errors)?;
            Ok(None)
        }
    }
}

/// Tells the breaches of a method. Whether there are none.
fn test_method(
    alloc: Global,
    env: &Env,
    number: usize,
    owner: ItemPlace,
    method: &Method,
    errors: &mut ErrorStore<'_>,
) -> Result<bool, NoMemory>
    requires { number < length env.now }
    ensures told { (names : Naming) → IsNaming env.now number names
        → OnOk result (errors.new ≡ added errors.old
        (map breach_error (method_breaches names owner method.now))) }
    ensures fine { (names : Naming) → IsNaming env.now number names
        → IfOk result (λ fine. MatchBool fine (method_breaches names owner method.now ≡ [])
        (method_breaches names owner method.now ≢ [])) }
    ensures untouched { IfOk result (λ fine. MatchBool fine (errors.new ≡ errors.old) ⊤) }
    ensures err { OnErr result (errors.new ≡ errors.old) }
{
    let breaches = method_breaches(alloc, env, number, owner, method)?;
    let all = breaches.as_slice();
    tell_breaches(alloc, all, errors)?;
    Ok(are_none(all))
}

/// The types of a method of the type there, with what its trailing writer takes, where it has one.
/// None where something is wrong with them. First each breach of its paths and lifetimes is told;
/// where there is any, nothing else of its types is. Else it is told why a lifetime has no number,
/// and else each fault of the types where they stand. Where the name of a declared lifetime is no
/// identifier, breaches alone are told, and nothing is made. `NoMemory` where there is no memory
/// for it or for the reports: then the store holds what it held.
#[tactic(auto, using(crate::proofs::StageLemmas::misnamed, crate::proofs::StageLemmas::numbered))]
pub fn lower_method_signature(
    alloc: Global,
    env: &Env,
    number: usize,
    owner: ItemPlace,
    method: &Method,
    support: &BackendAttrSupport,
    config: LoweringConfig,
    catalog: &Catalog,
    written: Option<WriteType>,
    errors: &mut ErrorStore<'_>,
) -> Result<Option<SignatureTypes>, NoMemory>
    requires number { number < length env.now }
    requires sound { IsSoundEnvironment method.now.lifetime_env }
    ensures lowered { (names : Naming) → IsNaming env.now number names
        → IfOk result (IsLoweredMethod names owner support.now config catalog.now written
        method.now errors.old errors.new) }
    ensures err { OnErr result (errors.new ≡ errors.old) }
{
    if !test_method(alloc, env, number, owner, method, errors)? {
        return Ok(None);
    }
    if !have_idents(&method.lifetime_env) {
        return Ok(None);
    }
    let numbered = number_method(alloc, env, number, method);
    lower_numbered(alloc, support, config, catalog, written, numbered, errors)
}

/// Tells the breaches of a function. Whether there are none.
fn test_function(
    alloc: Global,
    env: &Env,
    number: usize,
    function: &Function,
    errors: &mut ErrorStore<'_>,
) -> Result<bool, NoMemory>
    requires { number < length env.now }
    ensures told { (names : Naming) → IsNaming env.now number names
        → OnOk result (errors.new ≡ added errors.old
        (map breach_error (function_breaches names function.now))) }
    ensures fine { (names : Naming) → IsNaming env.now number names
        → IfOk result (λ fine. MatchBool fine (function_breaches names function.now ≡ [])
        (function_breaches names function.now ≢ [])) }
    ensures untouched { IfOk result (λ fine. MatchBool fine (errors.new ≡ errors.old) ⊤) }
    ensures err { OnErr result (errors.new ≡ errors.old) }
{
    let breaches = function_breaches(alloc, env, number, function)?;
    let all = breaches.as_slice();
    tell_breaches(alloc, all, errors)?;
    Ok(are_none(all))
}

/// The types of a function outside types; else as [`lower_method_signature`].
#[tactic(auto, using(crate::proofs::StageLemmas::misnamed, crate::proofs::StageLemmas::numbered))]
pub fn lower_function_signature(
    alloc: Global,
    env: &Env,
    number: usize,
    function: &Function,
    support: &BackendAttrSupport,
    config: LoweringConfig,
    catalog: &Catalog,
    written: Option<WriteType>,
    errors: &mut ErrorStore<'_>,
) -> Result<Option<SignatureTypes>, NoMemory>
    requires number { number < length env.now }
    requires sound { IsSoundEnvironment function.now.lifetimes }
    ensures lowered { (names : Naming) → IsNaming env.now number names
        → IfOk result (IsLoweredFunction names support.now config catalog.now written
        function.now errors.old errors.new) }
    ensures err { OnErr result (errors.new ≡ errors.old) }
{
    if !test_function(alloc, env, number, function, errors)? {
        return Ok(None);
    }
    if !have_idents(&function.lifetimes) {
        return Ok(None);
    }
    let numbered = number_function(alloc, env, number, function);
    lower_numbered(alloc, support, config, catalog, written, numbered, errors)
}
