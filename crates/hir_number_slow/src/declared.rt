//! Signatures and definitions as they are declared.

ghost use Rattle.std.specs.Prelude.{◌≡◌, ◌<◌, length, map, IfOk};
ghost use Rattle.hir_number.specs.Naming.{IsNaming, Naming};
ghost use Rattle.hir_number.specs.Numbers.{signature_numbers};
ghost use Rattle.hir_number.specs.Occurrences.{occurrences};
ghost use Rattle.hir_number.specs.Signatures.{field_uses, function_uses, method_uses, trait_method_uses};
ghost use Rattle.hir_number_slow.specs.Seen.{appearance_seen};

use crate::numbers::slow_numbers;
use crate::occurrences::{Occurrence, slow_occurrences};
use crate::signatures::{field_uses, function_uses, method_uses, trait_method_uses};
use bridge_ast::Env;
use bridge_decl::{Function, Items, Method, NoMemory, Struct, TraitMethod};
use hir_life::Lifetimes;
use hir_number::NumberFault;
use std::alloc::Global;

/// The occurrences of lifetimes in a method that is written in the module of a number, each with its role.
pub fn slow_occurrences_of_method<'m>(
    alloc: Global,
    env: &Env,
    number: usize,
    method: &'m Method,
) -> Result<Vec<Occurrence<'m>>, NoMemory>
    requires { number < length env.now }
    ensures { (names : Naming) → IsNaming env.now number names
        → IfOk result (λ found.
        map appearance_seen found.items ≡ occurrences (method_uses names method.now)) }
{
    let uses = method_uses(alloc, env, number, method)?;
    slow_occurrences(alloc, uses.as_slice())
}

/// The occurrences of lifetimes in a function, each with its role.
pub fn slow_occurrences_of_function<'m>(
    alloc: Global,
    env: &Env,
    number: usize,
    function: &'m Function,
) -> Result<Vec<Occurrence<'m>>, NoMemory>
    requires { number < length env.now }
    ensures { (names : Naming) → IsNaming env.now number names
        → IfOk result (λ found.
        map appearance_seen found.items ≡ occurrences (function_uses names function.now)) }
{
    let uses = function_uses(alloc, env, number, function)?;
    slow_occurrences(alloc, uses.as_slice())
}

/// The occurrences of lifetimes in a method of a trait, each with its role.
pub fn slow_occurrences_of_trait_method<'m>(
    alloc: Global,
    env: &Env,
    number: usize,
    method: &'m TraitMethod,
) -> Result<Vec<Occurrence<'m>>, NoMemory>
    requires { number < length env.now }
    ensures { (names : Naming) → IsNaming env.now number names
        → IfOk result (λ found.
        map appearance_seen found.items ≡ occurrences (trait_method_uses names method.now)) }
{
    let uses = trait_method_uses(alloc, env, number, method)?;
    slow_occurrences(alloc, uses.as_slice())
}

/// The numbers of a method that is written in the module of a number, a list for each use, or the first fault.
pub fn slow_numbers_of_method(
    alloc: Global,
    env: &Env,
    number: usize,
    method: &Method,
) -> Result<Result<Items<Lifetimes>, NumberFault>, NoMemory>
    requires { number < length env.now }
    ensures { (names : Naming) → IsNaming env.now number names
        → IfOk result (λ numbers. numbers ≡ signature_numbers method.now.lifetime_env
        (method_uses names method.now)) }
{
    let uses = method_uses(alloc, env, number, method)?;
    slow_numbers(alloc, &method.lifetime_env, uses.as_slice())
}

/// The numbers of a function, a list for each use, or the first fault.
pub fn slow_numbers_of_function(
    alloc: Global,
    env: &Env,
    number: usize,
    function: &Function,
) -> Result<Result<Items<Lifetimes>, NumberFault>, NoMemory>
    requires { number < length env.now }
    ensures { (names : Naming) → IsNaming env.now number names
        → IfOk result (λ numbers. numbers ≡ signature_numbers function.now.lifetimes
        (function_uses names function.now)) }
{
    let uses = function_uses(alloc, env, number, function)?;
    slow_numbers(alloc, &function.lifetimes, uses.as_slice())
}

/// The numbers of a method of a trait, a list for each use, or the first fault.
pub fn slow_numbers_of_trait_method(
    alloc: Global,
    env: &Env,
    number: usize,
    method: &TraitMethod,
) -> Result<Result<Items<Lifetimes>, NumberFault>, NoMemory>
    requires { number < length env.now }
    ensures { (names : Naming) → IsNaming env.now number names
        → IfOk result (λ numbers. numbers ≡ signature_numbers method.now.lifetimes
        (trait_method_uses names method.now)) }
{
    let uses = trait_method_uses(alloc, env, number, method)?;
    slow_numbers(alloc, &method.lifetimes, uses.as_slice())
}

/// The numbers of the fields of a struct, a list for each use, or the first fault.
pub fn slow_numbers_of_fields(
    alloc: Global,
    env: &Env,
    number: usize,
    item: &Struct,
) -> Result<Result<Items<Lifetimes>, NumberFault>, NoMemory>
    requires { number < length env.now }
    ensures { (names : Naming) → IsNaming env.now number names
        → IfOk result (λ numbers. numbers ≡ signature_numbers item.now.lifetimes
        (field_uses names item.now.fields)) }
{
    let uses = field_uses(alloc, env, number, item)?;
    slow_numbers(alloc, &item.lifetimes, uses.as_slice())
}
