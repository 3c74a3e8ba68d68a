//! NumberLists of single lifetimes and of the generics of paths.

ghost use Rattle.std.specs.Prelude.{◌<◌, length};
ghost use Rattle.hir_elide.specs.Occurrences.{Signature};
ghost use Rattle.hir_number.specs.Naming.{IsNaming, Naming};
ghost use Rattle.hir_number.specs.inside.Parts.{definition_seen, list_run};
ghost use Rattle.hir_number.specs.inside.Threads.{Meets, borrow_run, generics_run, lifetime_run, optional_run, path_run, trait_run};

use crate::fault::NumberFault;
use crate::names::{Definition, find_trait, find_type};
use crate::numbered::{Target, TraitTarget};
use bridge_ast::Env;
use bridge_decl::{Items, Lifetime as Written, LifetimeEnv, Mutability, PathType};
use hir_elide::LifetimeLowerer;
use hir_life::{Lifetime, Lifetimes, MaybeStatic};
use std::alloc::Global;

/// A lifetime.
pub fn number_lifetime<L: LifetimeLowerer>(
    lowerer: &mut L,
    lifetime: &Written,
) -> Result<MaybeStatic<Lifetime>, NumberFault>
    ensures { (s : Signature) → L.stands lowerer.old s
        → Meets (L.stands lowerer.new) result (lifetime_run L.phase lifetime.now s) }
{
    Ok(lowerer.lower_lifetime(lifetime)?)
}

/// The borrow of a slice.
pub fn number_borrow<L: LifetimeLowerer>(
    lowerer: &mut L,
    borrow: &Option<(Written, Mutability)>,
) -> Result<Option<(MaybeStatic<Lifetime>, Mutability)>, NumberFault>
    ensures { (s : Signature) → L.stands lowerer.old s
        → Meets (L.stands lowerer.new) result (borrow_run L.phase borrow.now s) }
{
    match borrow {
        Some((lifetime, mutability)) => Ok(Some((
            number_lifetime(lowerer, lifetime)?,
            *mutability,
        ))),
        None => Ok(None),
    }
}

/// The lifetime of a string slice.
pub fn number_optional<L: LifetimeLowerer>(
    lowerer: &mut L,
    lifetime: &Option<Written>,
) -> Result<Option<MaybeStatic<Lifetime>>, NumberFault>
    ensures { (s : Signature) → L.stands lowerer.old s
        → Meets (L.stands lowerer.new) result (optional_run L.phase lifetime.now s) }
{
    match lifetime {
        Some(lifetime) => Ok(Some(number_lifetime(lowerer, lifetime)?)),
        None => Ok(None),
    }
}

/// The generics of a path to what declares these lifetimes.
fn number_list<L: LifetimeLowerer>(
    alloc: Global,
    lowerer: &mut L,
    written: &[Written],
    generics: &LifetimeEnv,
    is_self: bool,
) -> Result<Lifetimes, NumberFault>
    ensures { (s : Signature) → L.stands lowerer.old s
        → Meets (L.stands lowerer.new) result
        (list_run L.phase is_self written.now (length generics.now.nodes) s) }
{
    if generics.nodes.len() < written.len() {
        return Err(NumberFault::LifetimeArity);
    }
    Ok(lowerer.lower_generics(alloc, written, generics, is_self)?)
}

/// The generics of a path to that definition.
fn number_generics<L: LifetimeLowerer>(
    alloc: Global,
    lowerer: &mut L,
    path: &PathType,
    found: &Definition<'_>,
    is_self: bool,
) -> Result<Lifetimes, NumberFault>
    ensures { (s : Signature) → L.stands lowerer.old s
        → Meets (L.stands lowerer.new) result
        (generics_run L.phase is_self path.now (definition_seen found.now) s) }
{
    let written = path.lifetimes.as_slice();
    match found.generics {
        Some(generics) => number_list(alloc, lowerer, written, generics, is_self),
        None => {
            let none = LifetimeEnv {
                nodes: Items::new(alloc),
            };
            number_list(alloc, lowerer, written, &none, is_self)
        }
    }
}

/// A path to a type, which may be that of `Self`.
pub fn number_path<L: LifetimeLowerer>(
    alloc: Global,
    env: &Env,
    number: usize,
    lowerer: &mut L,
    path: &PathType,
    is_self: bool,
) -> Result<Target, NumberFault>
    requires { number < length env.now }
    ensures { (names : Naming) (s : Signature) → IsNaming env.now number names
        → L.stands lowerer.old s
        → Meets (L.stands lowerer.new) result (path_run L.phase names is_self path.now s) }
{
    match find_type(env, number, path) {
        Some((found, kind)) => {
            let lifetimes = number_generics(alloc, lowerer, path, &found, is_self)?;
            Ok(Target {
                place: found.place,
                kind,
                lifetimes,
            })
        }
        None => Err(NumberFault::UnresolvedPath),
    }
}

/// A path to a trait, which may be that of a trait's receiver.
pub fn number_trait<L: LifetimeLowerer>(
    alloc: Global,
    env: &Env,
    number: usize,
    lowerer: &mut L,
    path: &PathType,
    is_self: bool,
) -> Result<TraitTarget, NumberFault>
    requires { number < length env.now }
    ensures { (names : Naming) (s : Signature) → IsNaming env.now number names
        → L.stands lowerer.old s
        → Meets (L.stands lowerer.new) result (trait_run L.phase names is_self path.now s) }
{
    match find_trait(env, number, path) {
        Some(found) => {
            let lifetimes = number_generics(alloc, lowerer, path, &found, is_self)?;
            Ok(TraitTarget {
                place: found.place,
                lifetimes,
            })
        }
        None => Err(NumberFault::UnresolvedPath),
    }
}
