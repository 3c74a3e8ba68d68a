//! Signatures and definitions, and what their lifetimes are lowered to.

ghost use Rattle.std.specs.Prelude.{◌≡◌, ◌≤◌, IfOk, length};
ghost use Rattle.bridge_decl.specs.Lifetimes.{IsSoundEnvironment};

mod definition;
mod params;
mod returns;
mod self_param;

use bridge_decl::{Lifetime as Written, LifetimeEnv, LifetimeNode, NoMemory, Text};
use hir_elide::{ElideFault, LifetimeLowerer, LowerLifetime};
use hir_life::{Lifetime, Lifetimes, MaybeStatic};
use sqlite_items::Items;
use std::alloc::Global;

/// The number that stands for `'static` in the tables.
const STATIC: usize = 9999;

fn number_of(lowered: &MaybeStatic<Lifetime>) -> usize {
    match lowered {
        MaybeStatic::Static => STATIC,
        MaybeStatic::NonStatic(lifetime) => lifetime.index(),
    }
}

fn written(alloc: Global, name: &str) -> Result<Written, NoMemory> {
    match name {
        "static" => Ok(Written::Static),
        "_" => Ok(Written::Anonymous),
        _ => Ok(Written::Named(Text::new(alloc, name)?)),
    }
}

/// Nothing is declared.
fn no_names(alloc: Global) -> LifetimeEnv
    ensures sound { IsSoundEnvironment result }
    ensures len { length result.nodes ≡ 0 }
{
    LifetimeEnv {
        nodes: Items::new(alloc),
    }
}

/// One lifetime is declared.
fn one_name(alloc: Global, name: &str) -> Result<LifetimeEnv, NoMemory>
    ensures sound { IfOk result IsSoundEnvironment }
    ensures len { IfOk result (λ env. length env.nodes ≡ 1) }
{
    let mut nodes = Items::new(alloc);
    nodes.push(LifetimeNode {
        name: Text::new(alloc, name)?,
        longer: Items::new(alloc),
        shorter: Items::new(alloc),
    })?;
    Ok(LifetimeEnv { nodes })
}

/// A declared lifetime without bounds.
fn unbounded(alloc: Global, name: &str) -> Result<LifetimeNode, NoMemory> {
    Ok(LifetimeNode {
        name: Text::new(alloc, name)?,
        longer: Items::new(alloc),
        shorter: Items::new(alloc),
    })
}

/// Two lifetimes are declared, without bounds.
fn two_names(alloc: Global) -> Result<LifetimeEnv, NoMemory>
    ensures { IfOk result (λ env. length env.nodes ≡ 2) }
{
    let mut nodes = Items::new(alloc);
    nodes.push(unbounded(alloc, "a")?)?;
    nodes.push(unbounded(alloc, "b")?)?;
    Ok(LifetimeEnv { nodes })
}

/// Whether the lifetimes have these numbers.
fn are(lifetimes: &Lifetimes, numbers: &[usize]) -> bool {
    if lifetimes.len() != numbers.len() {
        return false;
    }
    for (lifetime, number) in lifetimes.as_slice().iter().zip(numbers.iter()) {
        if number_of(lifetime) != *number {
            return false;
        }
    }
    true
}

/// The number of the lifetime that is used next.
fn next_number<L: LowerLifetime>(lowerer: &mut L, lifetime: &Written) -> Result<usize, ElideFault> {
    Ok(number_of(&lowerer.lower_lifetime(lifetime)?))
}

/// Whether a path's lifetimes have these numbers.
fn lifetimes_are<L: LifetimeLowerer>(
    alloc: Global,
    lowerer: &mut L,
    lifetimes: &[Written],
    definition: &LifetimeEnv,
    numbers: &[usize],
) -> Result<bool, ElideFault>
    requires { length lifetimes.now ≤ length definition.now.nodes }
{
    let lowered = lowerer.lower_lifetimes(alloc, lifetimes, definition)?;
    Ok(are(&lowered, numbers))
}

/// The same of a path that may be that of `Self`.
fn generics_are<L: LifetimeLowerer>(
    alloc: Global,
    lowerer: &mut L,
    lifetimes: &[Written],
    definition: &LifetimeEnv,
    is_self: bool,
    numbers: &[usize],
) -> Result<bool, ElideFault>
    requires { length lifetimes.now ≤ length definition.now.nodes }
{
    let lowered = lowerer.lower_generics(alloc, lifetimes, definition, is_self)?;
    Ok(are(&lowered, numbers))
}
