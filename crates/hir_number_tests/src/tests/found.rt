//! The declaration of a row in its environment, whose lifetimes fit together.

ghost use Rattle.std.specs.Prelude.{◌<◌, length, IfSome};
ghost use Rattle.std.specs.List.{All};
ghost use Rattle.bridge_decl.specs.Lifetimes.{IsSoundEnvironment};
ghost use Rattle.bridge_ast.specs.Sound.{HasSoundLifetimes};

use super::declared::OWN;
use bridge_ast::Env;
use bridge_decl::{Function, Item, Method, Module, Struct, TraitMethod};

/// The root.
fn root(env: &Env) -> Option<&Module>
    ensures within { IfSome result (λ m. 0 < length env.now) }
    ensures sound { IfSome result (λ m. All HasSoundLifetimes m.now.items) }
{
    env.modules().get(0)
}

/// An item of a module.
fn item_of(root: &Module, item: usize) -> Option<&Item>
    requires { All HasSoundLifetimes root.now.items }
    ensures { IfSome result (λ item. HasSoundLifetimes item.now) }
{
    root.items.as_slice().get(item)
}

/// The item that a row declares.
fn own_item(env: &Env) -> Option<&Item>
    ensures within { IfSome result (λ item. 0 < length env.now) }
    ensures sound { IfSome result (λ item. HasSoundLifetimes item.now) }
{
    match root(env) {
        Some(root) => item_of(root, OWN),
        None => None,
    }
}

fn first_method(methods: &[Method]) -> Option<&Method>
    requires { All (λ method. IsSoundEnvironment method.lifetime_env) methods.now }
    ensures { IfSome result (λ method. IsSoundEnvironment method.now.lifetime_env) }
{
    methods.get(0)
}

/// The method of the struct that a row declares.
pub fn method_in(env: &Env) -> Option<&Method>
    ensures within { IfSome result (λ method. 0 < length env.now) }
    ensures sound { IfSome result (λ method. IsSoundEnvironment method.now.lifetime_env) }
{
    match own_item(env) {
        Some(Item::Struct(item)) => first_method(item.methods.as_slice()),
        _ => None,
    }
}

/// The function that a row declares.
pub fn function_in(env: &Env) -> Option<&Function>
    ensures within { IfSome result (λ function. 0 < length env.now) }
    ensures sound { IfSome result (λ function. IsSoundEnvironment function.now.lifetimes) }
{
    match own_item(env) {
        Some(Item::Function(function)) => Some(function),
        _ => None,
    }
}

fn first_trait_method(methods: &[TraitMethod]) -> Option<&TraitMethod>
    requires { All (λ method. IsSoundEnvironment method.lifetimes) methods.now }
    ensures { IfSome result (λ method. IsSoundEnvironment method.now.lifetimes) }
{
    methods.get(0)
}

/// The method of the trait that a row declares.
pub fn trait_method_in(env: &Env) -> Option<&TraitMethod>
    ensures within { IfSome result (λ method. 0 < length env.now) }
    ensures sound { IfSome result (λ method. IsSoundEnvironment method.now.lifetimes) }
{
    match own_item(env) {
        Some(Item::Trait(item)) => first_trait_method(item.methods.as_slice()),
        _ => None,
    }
}

/// The struct that a row declares.
pub fn struct_in(env: &Env) -> Option<&Struct>
    ensures within { IfSome result (λ item. 0 < length env.now) }
    ensures sound { IfSome result (λ item. IsSoundEnvironment item.now.lifetimes) }
{
    match own_item(env) {
        Some(Item::Struct(item)) => Some(item),
        _ => None,
    }
}
