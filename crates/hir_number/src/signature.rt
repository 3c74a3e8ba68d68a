//! NumberLists of the lifetimes of methods and functions.

ghost use Rattle.std.specs.Prelude.{◌≡◌, [], ⊤, ◌<◌, Ok, None, length, IfErr, IfOk};
ghost use Rattle.std.specs.Option.{option_copied};
ghost use Rattle.bridge_decl.specs.Lifetimes.{IsSoundEnvironment};
ghost use Rattle.hir_elide.specs.Occurrences.{Borrow, Signature};
ghost use Rattle.hir_elide.specs.Phases.{Returning, Using};
ghost use Rattle.bridge_ast.specs.declared.place.ItemPlace.{ItemPlace};
ghost use Rattle.hir_number.specs.Arity.{HaveArity};
ghost use Rattle.hir_number.specs.Breaches.{function_breaches, method_breaches};
ghost use Rattle.hir_number.specs.Faults.{IsOfElision, FaultTold};
ghost use Rattle.hir_number.specs.Numbered.{AreWithin, IsNumberedFunction, IsNumberedMethod, numbers_of};
ghost use Rattle.hir_number.specs.Numbers.{signature_numbers};
ghost use Rattle.hir_number.specs.Naming.{IsNaming, Naming};
ghost use Rattle.hir_number.specs.Signatures.{function_uses, method_uses, receiver_borrow};
ghost use Rattle.hir_number.specs.inside.Runs.{IsTold, Starts, inputs_run, output_run, params_run, receiver_run, returned_run, signature_run, whole_run};
ghost use Rattle.hir_number.specs.inside.Threads.{Meets, borrow_run};

use crate::fault::NumberFault;
use crate::generics::number_path;
use crate::numbered::{NumberedType, Target};
use crate::types::number_type;
use crate::writer::before_writer;
use bridge_ast::Env;
use bridge_decl::{
    Function, Items, Lifetime as Written, LifetimeEnv as Declared, Method, Mutability, Param,
    SelfParam, TypeName,
};
use hir_elide::{
    LifetimeLowerer, ParamLifetimeLowerer, ReturnLifetimeLowerer, SelfParamLifetimeLowerer,
    StandsFor,
};
use hir_life::{Lifetime, LifetimeEnv, MaybeStatic};
use std::alloc::Global;

/// The borrow of a receiver.
pub type ReceiverBorrow = Option<(MaybeStatic<Lifetime>, Mutability)>;

/// A method or a function with its lifetimes as numbers.
#[derive(Drop)]
pub struct NumberedSignature {
    /// The borrow of the receiver.
    pub borrow: ReceiverBorrow,
    /// The type of the receiver.
    pub own: Option<Target>,
    /// The types of the parameters, without the trailing writer.
    pub params: Items<NumberedType>,
    /// What is returned.
    pub output: Option<NumberedType>,
    /// All lifetimes.
    pub lifetimes: LifetimeEnv,
}

/// The borrow of a method's receiver.
fn borrow_of(receiver: &Option<SelfParam>) -> Option<&(Written, Mutability)>
    ensures { option_copied result ≡ receiver_borrow receiver.now }
{
    match receiver {
        Some(receiver) => receiver.reference.as_ref(),
        None => None,
    }
}

/// The receiver's borrow, and the lowerer of what comes next.
pub fn number_start(
    start: SelfParamLifetimeLowerer,
    borrow: Option<&(Written, Mutability)>,
) -> Result<(ReceiverBorrow, ParamLifetimeLowerer), NumberFault>
    ensures { (s : Signature) → ⟦<SelfParamLifetimeLowerer as StandsFor>⟧.stands start s
        → IsTold (λ both. both.0)
        (λ both. ⟦<ParamLifetimeLowerer as StandsFor>⟧.stands both.1) result
        (borrow_run (Using Borrow) (option_copied borrow.entry) s) }
{
    match borrow {
        Some((lifetime, mutability)) => {
            let (number, lowerer) = start.lower_self_ref(lifetime)?;
            Ok((Some((number, *mutability)), lowerer))
        }
        None => Ok((None, start.no_self_ref())),
    }
}

/// The receiver's type.
fn number_receiver<L: LifetimeLowerer>(
    alloc: Global,
    env: &Env,
    number: usize,
    lowerer: &mut L,
    receiver: &Option<SelfParam>,
) -> Result<Option<Target>, NumberFault>
    requires { number < length env.now }
    ensures { (names : Naming) (s : Signature) → IsNaming env.now number names
        → L.stands lowerer.old s
        → Meets (L.stands lowerer.new) result (receiver_run L.phase names receiver.now s) }
{
    match receiver {
        Some(receiver) => {
            let path = &receiver.path_type;
            Ok(Some(number_path(alloc, env, number, lowerer, path, true)?))
        }
        None => Ok(None),
    }
}

/// The parameters.
pub fn number_params<L: LifetimeLowerer>(
    alloc: Global,
    env: &Env,
    number: usize,
    lowerer: &mut L,
    params: &[Param],
) -> Result<Items<NumberedType>, NumberFault>
    requires { number < length env.now }
    ensures { (names : Naming) (s : Signature) → IsNaming env.now number names
        → L.stands lowerer.old s
        → Meets (L.stands lowerer.new) result (params_run L.phase names params.now s) }
{
    let mut numbered = Items::new(alloc);
    for param in params {
        numbered.push(number_type(alloc, env, number, lowerer, &param.ty)?)?;
    }
    Ok(numbered)
}

/// What is returned.
pub fn number_output<L: LifetimeLowerer>(
    alloc: Global,
    env: &Env,
    number: usize,
    lowerer: &mut L,
    output: &Option<TypeName>,
) -> Result<Option<NumberedType>, NumberFault>
    requires { number < length env.now }
    ensures { (names : Naming) (s : Signature) → IsNaming env.now number names
        → L.stands lowerer.old s
        → Meets (L.stands lowerer.new) result (output_run L.phase names output.now s) }
{
    match output {
        Some(ty) => Ok(Some(number_type(alloc, env, number, lowerer, ty)?)),
        None => Ok(None),
    }
}

/// The receiver's type and the parameters.
fn number_inputs<L: LifetimeLowerer>(
    alloc: Global,
    env: &Env,
    number: usize,
    lowerer: &mut L,
    receiver: &Option<SelfParam>,
    params: &[Param],
) -> Result<(Option<Target>, Items<NumberedType>), NumberFault>
    requires { number < length env.now }
    ensures { (names : Naming) (s : Signature) → IsNaming env.now number names
        → L.stands lowerer.old s
        → Meets (L.stands lowerer.new) result
        (inputs_run L.phase names receiver.now params.now s) }
{
    let own = number_receiver(alloc, env, number, lowerer, receiver)?;
    let params = number_params(alloc, env, number, lowerer, params)?;
    Ok((own, params))
}

/// The return, and all lifetimes.
fn number_returned(
    alloc: Global,
    env: &Env,
    number: usize,
    lowerer: ReturnLifetimeLowerer,
    output: &Option<TypeName>,
) -> Result<(Option<NumberedType>, LifetimeEnv), NumberFault>
    requires { number < length env.now }
    ensures { (names : Naming) (s : Signature) → IsNaming env.now number names
        → ⟦<ReturnLifetimeLowerer as StandsFor>⟧.stands lowerer s
        → Meets (λ _. ⊤) result (returned_run Returning names output.now s) }
{
    let mut lowerer = lowerer;
    let output = number_output(alloc, env, number, &mut lowerer, output)?;
    Ok((output, lowerer.finish()))
}

/// A signature whose lowerer has its declared lifetimes.
fn number_from(
    alloc: Global,
    env: &Env,
    number: usize,
    start: SelfParamLifetimeLowerer,
    receiver: &Option<SelfParam>,
    params: &[Param],
    output: &Option<TypeName>,
) -> Result<NumberedSignature, NumberFault>
    requires { number < length env.now }
    ensures { (names : Naming) (s : Signature) → IsNaming env.now number names
        → ⟦<SelfParamLifetimeLowerer as StandsFor>⟧.stands start s
        → Meets (λ _. ⊤) result
        (signature_run names receiver.now params.now output.now s) }
{
    let (borrow, mut lowerer) = number_start(start, borrow_of(receiver))?;
    let (own, params) = number_inputs(alloc, env, number, &mut lowerer, receiver, params)?;
    let returned = lowerer.into_return_ltl();
    let (output, lifetimes) = number_returned(alloc, env, number, returned, output)?;
    Ok(NumberedSignature {
        borrow,
        own,
        params,
        output,
        lifetimes,
    })
}

/// A signature that declares these lifetimes.
fn number_signature(
    alloc: Global,
    env: &Env,
    number: usize,
    declared: &Declared,
    receiver: &Option<SelfParam>,
    params: &[Param],
    output: &Option<TypeName>,
) -> Result<NumberedSignature, NumberFault>
    requires number { number < length env.now }
    requires sound { IsSoundEnvironment declared.now }
    ensures { (names : Naming) → IsNaming env.now number names
        → Starts declared.now result
        (whole_run declared.now (signature_run names receiver.now params.now output.now)) }
{
    let start = SelfParamLifetimeLowerer::new(alloc, declared)?;
    number_from(alloc, env, number, start, receiver, params, output)
}

/// A method of a type that is written in the module of a number.
pub fn number_method(
    alloc: Global,
    env: &Env,
    number: usize,
    method: &Method,
) -> Result<NumberedSignature, NumberFault>
    requires number { number < length env.now }
    requires sound { IsSoundEnvironment method.now.lifetime_env }
    ensures numbered { (names : Naming) → IsNaming env.now number names
        → IfOk result (λ n. IsNumberedMethod names method.now n) }
    ensures within { (names : Naming) → IsNaming env.now number names
        → IfOk result (λ n. AreWithin n.lifetimes.count (numbers_of n)) }
    ensures fault { (names : Naming) → IsNaming env.now number names
        → IfErr result (λ fault. FaultTold method.now.lifetime_env fault
        (signature_numbers method.now.lifetime_env (method_uses names method.now))) }
    ensures elision { (names : Naming) (owner : ItemPlace) → IsNaming env.now number names
        → method_breaches names owner method.now ≡ [] → IfErr result IsOfElision }
    ensures arity { (names : Naming) (owner : ItemPlace) → IsNaming env.now number names
        → method_breaches names owner method.now ≡ []
        → IfOk result (λ n. HaveArity (method_uses names method.now) (numbers_of n)) }
{
    let params = before_writer(method.params.as_slice());
    let declared = &method.lifetime_env;
    let receiver = &method.self_param;
    let output = &method.return_type;
    number_signature(alloc, env, number, declared, receiver, params, output)
}

/// A function that is written in the module of a number.
pub fn number_function(
    alloc: Global,
    env: &Env,
    number: usize,
    function: &Function,
) -> Result<NumberedSignature, NumberFault>
    requires number { number < length env.now }
    requires sound { IsSoundEnvironment function.now.lifetimes }
    ensures numbered { (names : Naming) → IsNaming env.now number names
        → IfOk result (λ n. IsNumberedFunction names function.now n) }
    ensures within { (names : Naming) → IsNaming env.now number names
        → IfOk result (λ n. AreWithin n.lifetimes.count (numbers_of n)) }
    ensures fault { (names : Naming) → IsNaming env.now number names
        → IfErr result (λ fault. FaultTold function.now.lifetimes fault
        (signature_numbers function.now.lifetimes (function_uses names function.now))) }
    ensures elision { (names : Naming) → IsNaming env.now number names
        → function_breaches names function.now ≡ [] → IfErr result IsOfElision }
    ensures arity { (names : Naming) → IsNaming env.now number names
        → function_breaches names function.now ≡ []
        → IfOk result (λ n. HaveArity (function_uses names function.now) (numbers_of n)) }
{
    let params = before_writer(function.params.as_slice());
    let declared = &function.lifetimes;
    number_signature(
        alloc,
        env,
        number,
        declared,
        &None,
        params,
        &function.output_type,
    )
}
