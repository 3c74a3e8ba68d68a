//! What is wrong with the paths and lifetimes of a type by themselves.

ghost use Rattle.std.specs.Prelude.{◌≡◌, ◌<◌, ◌++◌, ℕ, List, length, map, OnOk};
ghost use Rattle.hir_number.specs.Breaches.{breaches_of, broken};
ghost use Rattle.hir_number.specs.Naming.{Naming};
ghost use Rattle.hir_number.specs.Uses.{concatenated, type_uses};
ghost use Rattle.hir_number.specs.inside.Scopes.{KnowsScope, demand};

use crate::breach::Breach;
use crate::scope::{Scope, test_borrow, test_lifetime, test_optional, test_path, test_trait};
use bridge_decl::{Boxed, Items, TypeName};
use std::alloc::AllocError;

/// Adds all that is wrong with a type, in order.
#[cycle(tests)]
pub fn test_type<'a>(
    breaches: &mut Vec<Breach<'a>>,
    scope: &Scope<'_, '_, '_>,
    ty: &'a TypeName,
) -> Result<(), AllocError>
    requires { scope.now.number < length scope.now.env.now }
    ensures { (n : Naming) (all : List (List ℕ)) → KnowsScope scope.now n all
        → OnOk result (map broken breaches.new.items ≡ map broken breaches.old.items
        ++ breaches_of all (demand scope.now.rule) (type_uses n ty.now)) }
{
    match ty {
        TypeName::Named(path) => test_path(breaches, scope, path, false),
        TypeName::SelfType(path) => test_path(breaches, scope, path, true),
        TypeName::ImplTrait(path) => test_trait(breaches, scope, path, false),
        TypeName::Reference(lifetime, _, inner) => {
            test_lifetime(breaches, scope.names, lifetime)?;
            test_boxed(breaches, scope, inner)
        }
        TypeName::Box(inner) => test_boxed(breaches, scope, inner),
        TypeName::Option(inner, _) => test_boxed(breaches, scope, inner),
        TypeName::Result(ok, err, _) => {
            test_boxed(breaches, scope, ok)?;
            test_boxed(breaches, scope, err)
        }
        TypeName::StrReference(lifetime, _, _) => test_optional(breaches, scope, lifetime),
        TypeName::PrimitiveSlice(borrow, _, _) => test_borrow(breaches, scope, borrow),
        TypeName::CustomTypeSlice(borrow, element, _) => {
            test_borrow(breaches, scope, borrow)?;
            test_boxed(breaches, scope, element)
        }
        TypeName::Function(inputs, output, _) => {
            test_each(breaches, scope, inputs)?;
            test_boxed(breaches, scope, output)
        }
        TypeName::Primitive(_)
        | TypeName::Ordering
        | TypeName::Write(_)
        | TypeName::StrSlice(_, _)
        | TypeName::Unit => Ok(()),
    }
}

#[cycle(tests)]
fn test_boxed<'a>(
    breaches: &mut Vec<Breach<'a>>,
    scope: &Scope<'_, '_, '_>,
    ty: &'a Boxed<TypeName>,
) -> Result<(), AllocError>
    requires { scope.now.number < length scope.now.env.now }
    ensures { (n : Naming) (all : List (List ℕ)) → KnowsScope scope.now n all
        → OnOk result (map broken breaches.new.items ≡ map broken breaches.old.items
        ++ breaches_of all (demand scope.now.rule) (type_uses n ty.now)) }
{
    test_type(breaches, scope, ty.get())
}

#[cycle(tests)]
fn test_each<'a>(
    breaches: &mut Vec<Breach<'a>>,
    scope: &Scope<'_, '_, '_>,
    types: &'a Items<TypeName>,
) -> Result<(), AllocError>
    requires { scope.now.number < length scope.now.env.now }
    ensures { (n : Naming) (all : List (List ℕ)) → KnowsScope scope.now n all
        → OnOk result (map broken breaches.new.items ≡ map broken breaches.old.items
        ++ breaches_of all (demand scope.now.rule) (concatenated (map (type_uses n) types.now))) }
{
    for ty in types.as_slice() {
        test_type(breaches, scope, ty)?;
    }
    Ok(())
}
