//! NumberLists of the lifetimes of a trait's methods.

ghost use Rattle.std.specs.Prelude.{◌≡◌, [], ⊤, ◌<◌, length, IfErr, IfOk};
ghost use Rattle.std.specs.Option.{option_copied};
ghost use Rattle.bridge_decl.specs.Lifetimes.{IsSoundEnvironment};
ghost use Rattle.hir_elide.specs.Occurrences.{Counting, Signature};
ghost use Rattle.hir_elide.specs.Phases.{Using};
ghost use Rattle.bridge_ast.specs.declared.place.ItemPlace.{ItemPlace};
ghost use Rattle.hir_number.specs.Arity.{HaveArity};
ghost use Rattle.hir_number.specs.Breaches.{trait_method_breaches};
ghost use Rattle.hir_number.specs.Faults.{IsOfElision, FaultTold};
ghost use Rattle.hir_number.specs.Numbered.{AreWithin, IsNumberedTraitMethod, trait_numbers_of};
ghost use Rattle.hir_number.specs.Numbers.{signature_numbers};
ghost use Rattle.hir_number.specs.Naming.{IsNaming, Naming};
ghost use Rattle.hir_number.specs.Signatures.{trait_borrow, trait_method_uses};
ghost use Rattle.hir_number.specs.inside.Runs.{Starts, returned_run, trait_inputs_run, trait_method_run, trait_receiver_run, whole_run};
ghost use Rattle.hir_number.specs.inside.Threads.{Meets};

use crate::fault::NumberFault;
use crate::generics::number_trait;
use crate::numbered::{NumberedType, TraitTarget};
use crate::signature::{ReceiverBorrow, number_output, number_params, number_start};
use bridge_ast::Env;
use bridge_decl::{Items, Lifetime as Written, Mutability, TraitMethod, TraitSelfParam, TypeName};
use hir_elide::{LifetimeLowerer, ParamLifetimeLowerer, SelfParamLifetimeLowerer, StandsFor};
use hir_life::LifetimeEnv;
use std::alloc::Global;

/// A trait's method with its lifetimes as numbers.
#[derive(Drop)]
pub struct NumberedTraitMethod {
    /// The borrow of the receiver.
    pub borrow: ReceiverBorrow,
    /// The trait of the receiver.
    pub own: Option<TraitTarget>,
    /// The types of the parameters.
    pub params: Items<NumberedType>,
    /// What is returned.
    pub output: Option<NumberedType>,
    /// All lifetimes.
    pub lifetimes: LifetimeEnv,
}

/// The borrow of a trait's receiver.
fn trait_borrow_of(receiver: &Option<TraitSelfParam>) -> Option<&(Written, Mutability)>
    ensures { option_copied result ≡ trait_borrow receiver.now }
{
    match receiver {
        Some(receiver) => receiver.reference.as_ref(),
        None => None,
    }
}

/// The trait of the receiver.
fn number_trait_receiver<L: LifetimeLowerer>(
    alloc: Global,
    env: &Env,
    number: usize,
    lowerer: &mut L,
    receiver: &Option<TraitSelfParam>,
) -> Result<Option<TraitTarget>, NumberFault>
    requires { number < length env.now }
    ensures { (names : Naming) (s : Signature) → IsNaming env.now number names
        → L.stands lowerer.old s
        → Meets (L.stands lowerer.new) result (trait_receiver_run L.phase names receiver.now s) }
{
    match receiver {
        Some(receiver) => {
            let path = &receiver.path_trait;
            Ok(Some(number_trait(alloc, env, number, lowerer, path, true)?))
        }
        None => Ok(None),
    }
}

/// The trait of the receiver and the parameters.
fn number_trait_inputs<L: LifetimeLowerer>(
    alloc: Global,
    env: &Env,
    number: usize,
    lowerer: &mut L,
    method: &TraitMethod,
) -> Result<(Option<TraitTarget>, Items<NumberedType>), NumberFault>
    requires { number < length env.now }
    ensures { (names : Naming) (s : Signature) → IsNaming env.now number names
        → L.stands lowerer.old s
        → Meets (L.stands lowerer.new) result (trait_inputs_run L.phase names method.now s) }
{
    let own = number_trait_receiver(alloc, env, number, lowerer, &method.self_param)?;
    let params = number_params(alloc, env, number, lowerer, method.params.as_slice())?;
    Ok((own, params))
}

/// The return, in which each anonymous lifetime is a new one, and all lifetimes.
fn number_trait_returned(
    alloc: Global,
    env: &Env,
    number: usize,
    lowerer: ParamLifetimeLowerer,
    output: &Option<TypeName>,
) -> Result<(Option<NumberedType>, LifetimeEnv), NumberFault>
    requires { number < length env.now }
    ensures { (names : Naming) (s : Signature) → IsNaming env.now number names
        → ⟦<ParamLifetimeLowerer as StandsFor>⟧.stands lowerer s
        → Meets (λ _. ⊤) result (returned_run (Using Counting) names output.now s) }
{
    let mut lowerer = lowerer;
    let output = number_output(alloc, env, number, &mut lowerer, output)?;
    Ok((output, lowerer.into_return_ltl().finish()))
}

/// A method whose lowerer has its declared lifetimes.
fn number_trait_from(
    alloc: Global,
    env: &Env,
    number: usize,
    start: SelfParamLifetimeLowerer,
    method: &TraitMethod,
) -> Result<NumberedTraitMethod, NumberFault>
    requires { number < length env.now }
    ensures { (names : Naming) (s : Signature) → IsNaming env.now number names
        → ⟦<SelfParamLifetimeLowerer as StandsFor>⟧.stands start s
        → Meets (λ _. ⊤) result (trait_method_run names method.now s) }
{
    let (borrow, mut lowerer) = number_start(start, trait_borrow_of(&method.self_param))?;
    let (own, params) = number_trait_inputs(alloc, env, number, &mut lowerer, method)?;
    let output = &method.output_type;
    let (output, lifetimes) = number_trait_returned(alloc, env, number, lowerer, output)?;
    Ok(NumberedTraitMethod {
        borrow,
        own,
        params,
        output,
        lifetimes,
    })
}

/// A method whose declared lifetimes fit together.
fn number_trait_signature(
    alloc: Global,
    env: &Env,
    number: usize,
    method: &TraitMethod,
) -> Result<NumberedTraitMethod, NumberFault>
    requires number { number < length env.now }
    requires sound { IsSoundEnvironment method.now.lifetimes }
    ensures { (names : Naming) → IsNaming env.now number names
        → Starts method.now.lifetimes result
        (whole_run method.now.lifetimes (trait_method_run names method.now)) }
{
    let start = SelfParamLifetimeLowerer::new(alloc, &method.lifetimes)?;
    number_trait_from(alloc, env, number, start, method)
}

/// A method of a trait that is written in the module of a number.
pub fn number_trait_method(
    alloc: Global,
    env: &Env,
    number: usize,
    method: &TraitMethod,
) -> Result<NumberedTraitMethod, NumberFault>
    requires number { number < length env.now }
    requires sound { IsSoundEnvironment method.now.lifetimes }
    ensures numbered { (names : Naming) → IsNaming env.now number names
        → IfOk result (λ n. IsNumberedTraitMethod names method.now n) }
    ensures within { (names : Naming) → IsNaming env.now number names
        → IfOk result (λ n. AreWithin n.lifetimes.count (trait_numbers_of n)) }
    ensures fault { (names : Naming) → IsNaming env.now number names
        → IfErr result (λ fault. FaultTold method.now.lifetimes fault
        (signature_numbers method.now.lifetimes (trait_method_uses names method.now))) }
    ensures elision { (names : Naming) (owner : ItemPlace) → IsNaming env.now number names
        → trait_method_breaches names owner method.now ≡ [] → IfErr result IsOfElision }
    ensures arity { (names : Naming) (owner : ItemPlace) → IsNaming env.now number names
        → trait_method_breaches names owner method.now ≡ []
        → IfOk result
        (λ n. HaveArity (trait_method_uses names method.now) (trait_numbers_of n)) }
{
    number_trait_signature(alloc, env, number, method)
}
