//! What is wrong with the paths and lifetimes of signatures and definitions by themselves.

ghost use Rattle.std.specs.Prelude.{◌≡◌, ◌<◌, ◌++◌, [], ◌∷◌, ℕ, List, None, true, length, map, nat_lt, IfOk, OnOk};
ghost use Rattle.std.specs.List.{flat_map};
ghost use Rattle.hir_number.specs.Breaches.{Anything, At, Equal, Nothing, TooManyLifetimes, breaches_of, broken, field_breaches, function_breaches, method_breaches, trait_method_breaches, uses_of};
ghost use Rattle.bridge_text.specs.NameIndex.{Indexes};
ghost use Rattle.hir_elide.specs.Numbering.{most};
ghost use Rattle.hir_number.specs.Naming.{IsNaming, Naming};
ghost use Rattle.hir_number.specs.Signatures.{field_uses, function_uses, method_uses, output_uses, param_uses, receiver_borrow, receiver_uses, trait_borrow, trait_receiver_uses};
ghost use Rattle.hir_number.specs.Uses.{borrow_uses, type_use, type_uses};
ghost use Rattle.hir_number.specs.inside.Scopes.{KnowsScope, demand};

use crate::breach::{Breach, SelfRule};
use crate::scope::{Scope, test_borrow, test_path, test_trait};
use crate::tested::test_type;
use crate::writer::before_writer;
use bridge_ast::{Env, ItemPlace};
use bridge_decl::{
    Field, Function, LifetimeEnv, Method, NameIndex, NoMemory, Param, SelfParam, Struct,
    TraitMethod, TraitSelfParam, TypeName, index_lifetimes,
};
use hir_elide::MOST_LIFETIMES;
use std::alloc::{AllocError, Global};

/// Whether more lifetimes are declared than there may be.
fn are_too_many(declared: &LifetimeEnv) -> bool
    ensures { result ≡ nat_lt most (length declared.now.nodes) }
{
    declared.nodes.len() > MOST_LIFETIMES
}

/// That alone.
fn too_many<'a>(alloc: Global) -> Result<Vec<Breach<'a>>, NoMemory>
    ensures { IfOk result (λ breaches. map broken breaches.items ≡ TooManyLifetimes ∷ []) }
{
    let mut breaches = Vec::new(alloc);
    breaches.push(Breach::TooManyLifetimes)?;
    Ok(breaches)
}

/// The receiver's borrow and its type.
fn test_receiver<'a>(
    breaches: &mut Vec<Breach<'a>>,
    scope: &Scope<'_, '_, '_>,
    receiver: &'a Option<SelfParam>,
) -> Result<(), AllocError>
    requires { scope.now.number < length scope.now.env.now }
    ensures { (n : Naming) (all : List (List ℕ)) → KnowsScope scope.now n all
        → OnOk result (map broken breaches.new.items ≡ map broken breaches.old.items
        ++ (breaches_of all (demand scope.now.rule) (borrow_uses (receiver_borrow receiver.now))
        ++ breaches_of all (demand scope.now.rule) (receiver_uses n receiver.now))) }
{
    match receiver {
        Some(receiver) => {
            test_borrow(breaches, scope, &receiver.reference)?;
            test_path(breaches, scope, &receiver.path_type, true)
        }
        None => Ok(()),
    }
}

/// Those of a trait's receiver.
fn test_trait_receiver<'a>(
    breaches: &mut Vec<Breach<'a>>,
    scope: &Scope<'_, '_, '_>,
    receiver: &'a Option<TraitSelfParam>,
) -> Result<(), AllocError>
    requires { scope.now.number < length scope.now.env.now }
    ensures { (n : Naming) (all : List (List ℕ)) → KnowsScope scope.now n all
        → OnOk result (map broken breaches.new.items ≡ map broken breaches.old.items
        ++ (breaches_of all (demand scope.now.rule) (borrow_uses (trait_borrow receiver.now))
        ++ breaches_of all (demand scope.now.rule) (trait_receiver_uses n receiver.now))) }
{
    match receiver {
        Some(receiver) => {
            test_borrow(breaches, scope, &receiver.reference)?;
            test_trait(breaches, scope, &receiver.path_trait, true)
        }
        None => Ok(()),
    }
}

/// The parameters.
fn test_params<'a>(
    breaches: &mut Vec<Breach<'a>>,
    scope: &Scope<'_, '_, '_>,
    params: &'a [Param],
) -> Result<(), AllocError>
    requires { scope.now.number < length scope.now.env.now }
    ensures { (n : Naming) (all : List (List ℕ)) → KnowsScope scope.now n all
        → OnOk result (map broken breaches.new.items ≡ map broken breaches.old.items
        ++ breaches_of all (demand scope.now.rule) (param_uses n params.now)) }
{
    for param in params {
        test_type(breaches, scope, &param.ty)?;
    }
    Ok(())
}

/// What is returned.
fn test_output<'a>(
    breaches: &mut Vec<Breach<'a>>,
    scope: &Scope<'_, '_, '_>,
    output: &'a Option<TypeName>,
) -> Result<(), AllocError>
    requires { scope.now.number < length scope.now.env.now }
    ensures { (n : Naming) (all : List (List ℕ)) → KnowsScope scope.now n all
        → OnOk result (map broken breaches.new.items ≡ map broken breaches.old.items
        ++ breaches_of all (demand scope.now.rule) (output_uses n output.now)) }
{
    match output {
        Some(ty) => test_type(breaches, scope, ty),
        None => Ok(()),
    }
}

/// The fields of a struct.
fn test_fields<'a>(
    breaches: &mut Vec<Breach<'a>>,
    scope: &Scope<'_, '_, '_>,
    fields: &'a [Field],
) -> Result<(), AllocError>
    requires { scope.now.number < length scope.now.env.now }
    ensures { (n : Naming) (all : List (List ℕ)) → KnowsScope scope.now n all
        → OnOk result (map broken breaches.new.items ≡ map broken breaches.old.items
        ++ breaches_of all (demand scope.now.rule)
        (flat_map (λ field. type_uses n field.ty) fields.now)) }
{
    for field in fields {
        test_type(breaches, scope, &field.ty)?;
    }
    Ok(())
}

/// The parameters and the return.
fn test_rest<'a>(
    breaches: &mut Vec<Breach<'a>>,
    scope: &Scope<'_, '_, '_>,
    params: &'a [Param],
    output: &'a Option<TypeName>,
) -> Result<(), AllocError>
    requires { scope.now.number < length scope.now.env.now }
    ensures { (n : Naming) (all : List (List ℕ)) → KnowsScope scope.now n all
        → OnOk result (map broken breaches.new.items ≡ map broken breaches.old.items
        ++ (breaches_of all (demand scope.now.rule) (param_uses n params.now)
        ++ breaches_of all (demand scope.now.rule) (output_uses n output.now))) }
{
    test_params(breaches, scope, params)?;
    test_output(breaches, scope, output)
}

/// The type that a method says to be one of.
fn test_owner<'a>(
    breaches: &mut Vec<Breach<'a>>,
    env: &Env,
    number: usize,
    names: &NameIndex<usize>,
    owner: ItemPlace,
    method: &'a Method,
) -> Result<(), AllocError>
    requires { number < length env.now }
    ensures { (n : Naming) (all : List (List ℕ)) → IsNaming env.now number n
        → Indexes names.now all
        → OnOk result (map broken breaches.new.items ≡ map broken breaches.old.items
        ++ breaches_of all (At owner) (type_use n true method.now.self_type ∷ [])) }
{
    let rule = SelfRule::At(owner);
    let scope = Scope {
        env,
        number,
        names,
        rule,
    };
    test_path(breaches, &scope, &method.self_type, true)
}

/// The signature of a method.
fn test_signature<'a>(
    breaches: &mut Vec<Breach<'a>>,
    env: &Env,
    number: usize,
    names: &NameIndex<usize>,
    method: &'a Method,
) -> Result<(), AllocError>
    requires { number < length env.now }
    ensures { (n : Naming) (all : List (List ℕ)) → IsNaming env.now number n
        → Indexes names.now all
        → OnOk result (map broken breaches.new.items ≡ map broken breaches.old.items
        ++ breaches_of all (Equal method.now.self_type) (uses_of (method_uses n method.now))) }
{
    let rule = SelfRule::Equal(&method.self_type);
    let scope = Scope {
        env,
        number,
        names,
        rule,
    };
    test_receiver(breaches, &scope, &method.self_param)?;
    let params = before_writer(method.params.as_slice());
    test_rest(breaches, &scope, params, &method.return_type)
}

/// All that is wrong with the paths and lifetimes of a method of the type there by themselves, in order: first with the path of
/// its type.
/// `TooManyLifetimes` alone where more than 4,095 lifetimes are declared; then nothing is looked for.
pub fn method_breaches<'a>(
    alloc: Global,
    env: &Env,
    number: usize,
    owner: ItemPlace,
    method: &'a Method,
) -> Result<Vec<Breach<'a>>, NoMemory>
    requires { number < length env.now }
    ensures { (n : Naming) → IsNaming env.now number n
        → IfOk result (λ breaches.
        map broken breaches.items ≡ method_breaches n owner method.now) }
{
    if are_too_many(&method.lifetime_env) {
        return too_many(alloc);
    }
    let names = index_lifetimes(alloc, &method.lifetime_env)?;
    let mut breaches = Vec::new(alloc);
    test_owner(&mut breaches, env, number, &names, owner, method)?;
    test_signature(&mut breaches, env, number, &names, method)?;
    Ok(breaches)
}

/// The signature of a function.
fn test_function<'a>(
    breaches: &mut Vec<Breach<'a>>,
    env: &Env,
    number: usize,
    names: &NameIndex<usize>,
    function: &'a Function,
) -> Result<(), AllocError>
    requires { number < length env.now }
    ensures { (n : Naming) (all : List (List ℕ)) → IsNaming env.now number n
        → Indexes names.now all
        → OnOk result (map broken breaches.new.items ≡ map broken breaches.old.items
        ++ breaches_of all Nothing (uses_of (function_uses n function.now))) }
{
    let rule = SelfRule::Nothing;
    let scope = Scope {
        env,
        number,
        names,
        rule,
    };
    let params = before_writer(function.params.as_slice());
    test_rest(breaches, &scope, params, &function.output_type)
}

/// All that is wrong with the paths and lifetimes of a function by themselves, in order.
/// `TooManyLifetimes` alone where more than 4,095 lifetimes are declared; then nothing is looked for.
pub fn function_breaches<'a>(
    alloc: Global,
    env: &Env,
    number: usize,
    function: &'a Function,
) -> Result<Vec<Breach<'a>>, NoMemory>
    requires { number < length env.now }
    ensures { (n : Naming) → IsNaming env.now number n
        → IfOk result
        (λ breaches. map broken breaches.items ≡ function_breaches n function.now) }
{
    if are_too_many(&function.lifetimes) {
        return too_many(alloc);
    }
    let names = index_lifetimes(alloc, &function.lifetimes)?;
    let mut breaches = Vec::new(alloc);
    test_function(&mut breaches, env, number, &names, function)?;
    Ok(breaches)
}

/// The receiver of a trait's method.
fn test_trait_owner<'a>(
    breaches: &mut Vec<Breach<'a>>,
    env: &Env,
    number: usize,
    names: &NameIndex<usize>,
    owner: ItemPlace,
    method: &'a TraitMethod,
) -> Result<(), AllocError>
    requires { number < length env.now }
    ensures { (n : Naming) (all : List (List ℕ)) → IsNaming env.now number n
        → Indexes names.now all
        → OnOk result (map broken breaches.new.items ≡ map broken breaches.old.items
        ++ breaches_of all (At owner) (borrow_uses (trait_borrow method.now.self_param)
        ++ trait_receiver_uses n method.now.self_param)) }
{
    let rule = SelfRule::At(owner);
    let scope = Scope {
        env,
        number,
        names,
        rule,
    };
    test_trait_receiver(breaches, &scope, &method.self_param)
}

/// The parameters and the return of a trait's method.
fn test_trait_rest<'a>(
    breaches: &mut Vec<Breach<'a>>,
    env: &Env,
    number: usize,
    names: &NameIndex<usize>,
    method: &'a TraitMethod,
) -> Result<(), AllocError>
    requires { number < length env.now }
    ensures { (n : Naming) (all : List (List ℕ)) → IsNaming env.now number n
        → Indexes names.now all
        → OnOk result (map broken breaches.new.items ≡ map broken breaches.old.items
        ++ breaches_of all Nothing (param_uses n method.now.params
        ++ output_uses n method.now.output_type)) }
{
    let rule = SelfRule::Nothing;
    let scope = Scope {
        env,
        number,
        names,
        rule,
    };
    test_rest(
        breaches,
        &scope,
        method.params.as_slice(),
        &method.output_type,
    )
}

/// All that is wrong with the paths and lifetimes of a method of the trait there by themselves, in order.
/// `TooManyLifetimes` alone where more than 4,095 lifetimes are declared; then nothing is looked for.
pub fn trait_method_breaches<'a>(
    alloc: Global,
    env: &Env,
    number: usize,
    owner: ItemPlace,
    method: &'a TraitMethod,
) -> Result<Vec<Breach<'a>>, NoMemory>
    requires { number < length env.now }
    ensures { (n : Naming) → IsNaming env.now number n
        → IfOk result (λ breaches.
        map broken breaches.items ≡ trait_method_breaches n owner method.now) }
{
    if are_too_many(&method.lifetimes) {
        return too_many(alloc);
    }
    let names = index_lifetimes(alloc, &method.lifetimes)?;
    let mut breaches = Vec::new(alloc);
    test_trait_owner(&mut breaches, env, number, &names, owner, method)?;
    test_trait_rest(&mut breaches, env, number, &names, method)?;
    Ok(breaches)
}

/// The fields of a struct.
fn test_item<'a>(
    breaches: &mut Vec<Breach<'a>>,
    env: &Env,
    number: usize,
    names: &NameIndex<usize>,
    item: &'a Struct,
) -> Result<(), AllocError>
    requires { number < length env.now }
    ensures { (n : Naming) (all : List (List ℕ)) → IsNaming env.now number n
        → Indexes names.now all
        → OnOk result (map broken breaches.new.items ≡ map broken breaches.old.items
        ++ breaches_of all Anything (uses_of (field_uses n item.now.fields))) }
{
    let rule = SelfRule::Anything;
    let scope = Scope {
        env,
        number,
        names,
        rule,
    };
    test_fields(breaches, &scope, item.fields.as_slice())
}

/// All that is wrong with the paths and lifetimes of a struct's fields by themselves, in order.
/// `TooManyLifetimes` alone where more than 4,095 lifetimes are declared; then nothing is looked for.
pub fn field_breaches<'a>(
    alloc: Global,
    env: &Env,
    number: usize,
    item: &'a Struct,
) -> Result<Vec<Breach<'a>>, NoMemory>
    requires { number < length env.now }
    ensures { (n : Naming) → IsNaming env.now number n
        → IfOk result (λ breaches. map broken breaches.items ≡ field_breaches n item.now) }
{
    if are_too_many(&item.lifetimes) {
        return too_many(alloc);
    }
    let names = index_lifetimes(alloc, &item.lifetimes)?;
    let mut breaches = Vec::new(alloc);
    test_item(&mut breaches, env, number, &names, item)?;
    Ok(breaches)
}
