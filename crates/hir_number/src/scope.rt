//! Where paths and lifetimes are tested, and what is wrong with single ones.

ghost use Rattle.std.specs.Prelude.{◌≡◌, ◌<◌, ◌++◌, ℕ, List, length, map, option_map, is_some, OnOk};
ghost use Rattle.std.specs.List.{flat_map};
ghost use Rattle.bridge_text.specs.NameIndex.{Indexes, number_of};
ghost use Rattle.hir_number.specs.Breaches.{arity_breaches, breaches_of, broken, is_at, own_breaches, self_breaches, unknown, unless_own, use_breaches};
ghost use Rattle.hir_number.specs.Naming.{Naming};
ghost use Rattle.hir_number.specs.Uses.{Path, borrow_uses, optional_uses, trait_use, type_use};
ghost use Rattle.hir_number.specs.inside.Parts.{definition_seen};
ghost use Rattle.hir_number.specs.inside.Scopes.{KnowsScope, demand};

use crate::breach::{Breach, SelfRule};
use crate::names::{Definition, find_trait, find_type};
use crate::same::same_path;
use bridge_ast::{Env, ItemPlace};
use bridge_decl::{Lifetime as Written, Mutability, NameIndex, PathType, Text};
use std::alloc::AllocError;

/// Where paths and lifetimes are tested.
#[derive(Clone, Copy)]
pub struct Scope<'e, 'n, 'm> {
    /// The environment.
    pub env: &'e Env,
    /// The number of the module.
    pub number: usize,
    /// The declared lifetimes.
    pub names: &'n NameIndex<usize>,
    /// What `Self` has to be.
    pub rule: SelfRule<'m>,
}

fn declares(names: &NameIndex<usize>, name: &Text) -> bool
    ensures { (all : List (List ℕ)) → Indexes names.now all
        → result ≡ is_some (number_of all name.now) }
{
    names.contains_key(name)
}

/// A lifetime.
pub fn test_lifetime<'a>(
    breaches: &mut Vec<Breach<'a>>,
    names: &NameIndex<usize>,
    lifetime: &'a Written,
) -> Result<(), AllocError>
    ensures { (all : List (List ℕ)) → Indexes names.now all
        → OnOk result (map broken breaches.new.items
        ≡ map broken breaches.old.items ++ unknown all lifetime.now) }
{
    if let Written::Named(name) = lifetime {
        if !declares(names, name) {
            breaches.push(Breach::LifetimeUnknown(name))?;
        }
    }
    Ok(())
}

/// The lifetime of a string slice.
pub fn test_optional<'a>(
    breaches: &mut Vec<Breach<'a>>,
    scope: &Scope<'_, '_, '_>,
    lifetime: &'a Option<Written>,
) -> Result<(), AllocError>
    ensures { (n : Naming) (all : List (List ℕ)) → KnowsScope scope.now n all
        → OnOk result (map broken breaches.new.items ≡ map broken breaches.old.items
        ++ breaches_of all (demand scope.now.rule) (optional_uses lifetime.now)) }
{
    match lifetime {
        Some(lifetime) => test_lifetime(breaches, scope.names, lifetime),
        None => Ok(()),
    }
}

/// The borrow of a slice or of a receiver.
pub fn test_borrow<'a>(
    breaches: &mut Vec<Breach<'a>>,
    scope: &Scope<'_, '_, '_>,
    borrow: &'a Option<(Written, Mutability)>,
) -> Result<(), AllocError>
    ensures { (n : Naming) (all : List (List ℕ)) → KnowsScope scope.now n all
        → OnOk result (map broken breaches.new.items ≡ map broken breaches.old.items
        ++ breaches_of all (demand scope.now.rule) (borrow_uses borrow.now)) }
{
    match borrow {
        Some((lifetime, _)) => test_lifetime(breaches, scope.names, lifetime),
        None => Ok(()),
    }
}

fn test_lifetimes<'a>(
    breaches: &mut Vec<Breach<'a>>,
    names: &NameIndex<usize>,
    lifetimes: &'a [Written],
) -> Result<(), AllocError>
    ensures { (all : List (List ℕ)) → Indexes names.now all
        → OnOk result (map broken breaches.new.items
        ≡ map broken breaches.old.items ++ flat_map (unknown all) lifetimes.now) }
{
    for lifetime in lifetimes {
        test_lifetime(breaches, names, lifetime)?;
    }
    Ok(())
}

fn count_of_found(found: &Definition<'_>) -> usize
    ensures { result ≡ (definition_seen found.now).count }
{
    match found.generics {
        Some(generics) => generics.nodes.len(),
        None => 0,
    }
}

fn test_arity<'a>(
    breaches: &mut Vec<Breach<'a>>,
    found: &Option<Definition<'_>>,
    path: &'a PathType,
) -> Result<(), AllocError>
    ensures { OnOk result (map broken breaches.new.items ≡ map broken breaches.old.items
        ++ arity_breaches (option_map definition_seen found.now) path.now) }
{
    match found {
        Some(found) => {
            if count_of_found(found) < path.lifetimes.len() {
                breaches.push(Breach::LifetimeArity(path))?;
            }
        }
        None => breaches.push(Breach::UnresolvedPath(path))?,
    }
    Ok(())
}

fn stands_at(place: ItemPlace, found: &Option<Definition<'_>>) -> bool
    ensures { result ≡ is_at place (option_map definition_seen found.now) }
{
    match found {
        Some(found) => place.module == found.place.module && place.item == found.place.item,
        None => false,
    }
}

fn is_own(rule: &SelfRule<'_>, path: &PathType, found: &Option<Definition<'_>>) -> bool
    ensures { own_breaches (demand rule.now) path.now (option_map definition_seen found.now)
        ≡ unless_own result }
{
    match rule {
        SelfRule::Anything => true,
        SelfRule::Nothing => false,
        SelfRule::Equal(own) => same_path(own, path),
        SelfRule::At(place) => stands_at(*place, found),
    }
}

fn test_self<'a>(
    breaches: &mut Vec<Breach<'a>>,
    rule: &SelfRule<'_>,
    path: &'a PathType,
    found: &Option<Definition<'_>>,
    is_self: bool,
) -> Result<(), AllocError>
    ensures { OnOk result (map broken breaches.new.items ≡ map broken breaches.old.items
        ++ self_breaches is_self (demand rule.now) path.now
        (option_map definition_seen found.now)) }
{
    if is_self && !is_own(rule, path, found) {
        breaches.push(Breach::SelfMismatch)?;
    }
    Ok(())
}

fn test_found<'a>(
    breaches: &mut Vec<Breach<'a>>,
    scope: &Scope<'_, '_, '_>,
    path: &'a PathType,
    found: &Option<Definition<'_>>,
    is_self: bool,
) -> Result<(), AllocError>
    ensures { (n : Naming) (all : List (List ℕ)) → KnowsScope scope.now n all
        → OnOk result (map broken breaches.new.items ≡ map broken breaches.old.items
        ++ use_breaches all (demand scope.now.rule)
        (Path is_self path.now (option_map definition_seen found.now))) }
{
    test_arity(breaches, found, path)?;
    test_self(breaches, &scope.rule, path, found, is_self)?;
    test_lifetimes(breaches, scope.names, path.lifetimes.as_slice())
}

/// A path to a type, which may be that of `Self`.
pub fn test_path<'a>(
    breaches: &mut Vec<Breach<'a>>,
    scope: &Scope<'_, '_, '_>,
    path: &'a PathType,
    is_self: bool,
) -> Result<(), AllocError>
    requires { scope.now.number < length scope.now.env.now }
    ensures { (n : Naming) (all : List (List ℕ)) → KnowsScope scope.now n all
        → OnOk result (map broken breaches.new.items ≡ map broken breaches.old.items
        ++ use_breaches all (demand scope.now.rule) (type_use n is_self path.now)) }
{
    match find_type(scope.env, scope.number, path) {
        Some((found, _)) => test_found(breaches, scope, path, &Some(found), is_self),
        None => test_found(breaches, scope, path, &None, is_self),
    }
}

/// A path to a trait, which may be that of a trait's receiver.
pub fn test_trait<'a>(
    breaches: &mut Vec<Breach<'a>>,
    scope: &Scope<'_, '_, '_>,
    path: &'a PathType,
    is_self: bool,
) -> Result<(), AllocError>
    requires { scope.now.number < length scope.now.env.now }
    ensures { (n : Naming) (all : List (List ℕ)) → KnowsScope scope.now n all
        → OnOk result (map broken breaches.new.items ≡ map broken breaches.old.items
        ++ use_breaches all (demand scope.now.rule) (trait_use n is_self path.now)) }
{
    let found = find_trait(scope.env, scope.number, path);
    test_found(breaches, scope, path, &found, is_self)
}
