//! What leaves carry.

ghost use Rattle.std.specs.Prelude.{◌≡◌, ◌++◌, ◌||◌, ℕ, not, IfOk, OnOk, length};
ghost use Rattle.hir_life.specs.Substitution.{AreBelow, subst_each};
ghost use Rattle.hir_life.specs.declared.maybe_static.MaybeStatic.{MaybeStatic};
ghost use Rattle.hir_types.specs.Slices.{at_most_one};
ghost use Rattle.hir_skeleton.specs.Leaves.{are_same, each_once};
ghost use Rattle.hir_borrowing_fields.specs.inside.Carried.{is_among, with_once};
ghost use Rattle.hir_borrowing_fields.specs.inside.Meeting.{AreMet, was_met};
ghost use Rattle.hir_borrowing_fields.specs.inside.TypeParts.{carrier_lifetimes};

use bridge_decl::NoMemory;
use hir_life::{Lifetime, Lifetimes, MaybeStatic};
use std::alloc::Global;
use std::collections::BTreeSet;

/// Of so many lifetimes each is compared with those before it: leaves have few, and a set takes
/// memory. Of more the set of those that were met is kept.
const FEW_LIFETIMES: usize = 16;

/// Which lifetimes were met.
#[derive(Drop)]
struct MetLifetimes {
    /// Whether `'static` was.
    is_static: bool,
    /// The others.
    numbers: BTreeSet<Lifetime>,
}

/// Whether both are the same.
fn are_same(one: &MaybeStatic<Lifetime>, other: &MaybeStatic<Lifetime>) -> bool
    ensures { result ≡ are_same one.now other.now }
{
    one == other
}

/// Whether the lifetime is one of a list.
fn is_among(lifetimes: &Lifetimes, lifetime: &MaybeStatic<Lifetime>) -> bool
    ensures { result ≡ is_among lifetime.now lifetimes.now }
{
    for other in lifetimes.as_slice() {
        if are_same(other, lifetime) {
            return true;
        }
    }
    false
}

/// Adds the lifetime, unless it is there.
fn add_once(once: &mut Lifetimes, lifetime: &MaybeStatic<Lifetime>) -> Result<(), NoMemory>
    ensures { OnOk result (once.new ≡ with_once once.old lifetime.now) }
{
    if is_among(once, lifetime) {
        return Ok(());
    }
    once.push(*lifetime)
}

/// Each lifetime of a short list once, at its first place.
fn each_once_of_few(alloc: Global, lifetimes: &Lifetimes) -> Result<Lifetimes, NoMemory>
    ensures { IfOk result (λ once. once ≡ each_once lifetimes.now) }
{
    let mut once = Lifetimes::new(alloc);
    for lifetime in lifetimes.as_slice() {
        add_once(&mut once, lifetime)?;
    }
    Ok(once)
}

/// Notes that the lifetime was met, and answers whether it is the first time.
fn meet(met: &mut MetLifetimes, lifetime: &MaybeStatic<Lifetime>) -> Result<bool, NoMemory>
    ensures first { IfOk result (λ first. first ≡ not (was_met met.old lifetime.now)) }
    ensures met { OnOk result ((m : MaybeStatic ℕ) → was_met met.new m
        ≡ (was_met met.old m || are_same lifetime.now m)) }
{
    match lifetime {
        MaybeStatic::Static => {
            let first = !met.is_static;
            met.is_static = true;
            Ok(first)
        }
        MaybeStatic::NonStatic(lifetime) => Ok(met.numbers.insert(*lifetime)?),
    }
}

/// Adds the lifetime, unless it was met.
fn add_unmet(
    once: &mut Lifetimes,
    met: &mut MetLifetimes,
    lifetime: &MaybeStatic<Lifetime>,
) -> Result<(), NoMemory>
    requires { AreMet met.old once.old }
    ensures once { OnOk result (once.new ≡ with_once once.old lifetime.now) }
    ensures met { OnOk result (AreMet met.new once.new) }
{
    if meet(met, lifetime)? {
        once.push(*lifetime)?;
    }
    Ok(())
}

/// The same of a long list.
fn each_once_of_many(alloc: Global, lifetimes: &Lifetimes) -> Result<Lifetimes, NoMemory>
    ensures { IfOk result (λ once. once ≡ each_once lifetimes.now) }
{
    let mut once = Lifetimes::new(alloc);
    let mut met = MetLifetimes {
        is_static: false,
        numbers: BTreeSet::new(alloc),
    };
    for lifetime in lifetimes.as_slice() {
        add_unmet(&mut once, &mut met, lifetime)?;
    }
    Ok(once)
}

/// Each lifetime of the list once, at its first place.
fn each_once(alloc: Global, lifetimes: &Lifetimes) -> Result<Lifetimes, NoMemory>
    ensures { IfOk result (λ once. once ≡ each_once lifetimes.now) }
{
    if lifetimes.len() > FEW_LIFETIMES {
        each_once_of_many(alloc, lifetimes)
    } else {
        each_once_of_few(alloc, lifetimes)
    }
}

/// Adds the lifetime, where there is one.
fn add_any(list: &mut Lifetimes, lifetime: Option<MaybeStatic<Lifetime>>) -> Result<(), NoMemory>
    ensures { OnOk result (list.new ≡ list.old ++ at_most_one lifetime) }
{
    match lifetime {
        Some(lifetime) => list.push(lifetime),
        None => Ok(()),
    }
}

/// Adds each of the lifetimes.
fn add_each(list: &mut Lifetimes, lifetimes: &[MaybeStatic<Lifetime>]) -> Result<(), NoMemory>
    ensures { OnOk result (list.new ≡ list.old ++ lifetimes.now) }
{
    for lifetime in lifetimes {
        list.push(*lifetime)?;
    }
    Ok(())
}

/// The lifetimes of a carrier: its own, that of its elements, and those that these give their
/// definition.
pub(crate) fn carrier_lifetimes(
    alloc: Global,
    own: Option<MaybeStatic<Lifetime>>,
    element: Option<MaybeStatic<Lifetime>>,
    given: &[MaybeStatic<Lifetime>],
) -> Result<Lifetimes, NoMemory>
    ensures { IfOk result (λ list. list ≡ carrier_lifetimes own element given.now) }
{
    let mut list = Lifetimes::new(alloc);
    add_any(&mut list, own)?;
    add_any(&mut list, element)?;
    add_each(&mut list, given)?;
    Ok(list)
}

/// What a carrier of these lifetimes carries where these arguments stand for them: each once.
pub(crate) fn carried_under(
    alloc: Global,
    lifetimes: &Lifetimes,
    args: &Lifetimes,
) -> Result<Lifetimes, NoMemory>
    requires { AreBelow (length args.now) lifetimes.now }
    ensures { IfOk result (λ list. list ≡ each_once (subst_each lifetimes.now args.now)) }
{
    let list = lifetimes.as_method_lifetimes(alloc, args)?;
    each_once(alloc, &list)
}
