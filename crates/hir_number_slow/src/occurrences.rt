//! The occurrences of lifetimes, of which each use gives some, by the uses before it.

ghost use Rattle.std.specs.Prelude.{◌≡◌, ◌++◌, ◌-◌, map, option_map, replicate, IfOk, OnOk};
ghost use Rattle.bridge_decl.specs.declared.lifetimes.Lifetime.TheVariants as written;
ghost use Rattle.hir_number.specs.Occurrences.{appearing, has_own, is_own_use, meets_self, occurrences, use_occurrences};
ghost use Rattle.hir_number.specs.Uses.{lifetimes_used};
ghost use Rattle.hir_number_slow.specs.Seen.{appearance_seen, placed_seen, role_seen, use_seen, written_seen};
ghost use Rattle.hir_number_slow.specs.inside.Parts.{appearing_as};

use crate::uses::{Part, PlacedUse, Use};
use bridge_decl::{Lifetime, Text};
use std::alloc::{AllocError, Global};

/// A lifetime where it is used, as it is written or left out.
#[derive(Clone, Copy)]
pub enum Written<'m> {
    /// `'static`.
    Static,
    /// One with a name.
    Named(&'m Text),
    /// One that is left out.
    Anonymous,
}

/// The role in which a lifetime occurs.
#[derive(Clone, Copy)]
pub enum Role {
    /// It is the receiver's borrow.
    Borrow,
    /// It is one of the generics of `Self`.
    Own,
    /// It counts for elision.
    Counting,
    /// It stands in the return of a trait's method, and is none of these.
    Neither,
}

/// A lifetime where it occurs.
#[derive(Clone, Copy)]
pub struct Occurrence<'m> {
    /// The lifetime.
    pub lifetime: Written<'m>,
    /// Its role.
    pub role: Role,
}

pub fn as_written(lifetime: &Lifetime) -> Written<'_>
    ensures { written_seen result ≡ lifetime.now }
{
    match lifetime {
        Lifetime::Static => Written::Static,
        Lifetime::Named(name) => Written::Named(name),
        Lifetime::Anonymous => Written::Anonymous,
    }
}

fn push_written<'m>(
    lifetimes: &mut Vec<Written<'m>>,
    path: &'m [Lifetime],
) -> Result<(), AllocError>
    ensures { OnOk result (map written_seen lifetimes.new.items
        ≡ map written_seen lifetimes.old.items ++ path.now) }
{
    for lifetime in path {
        lifetimes.push(as_written(lifetime))?;
    }
    Ok(())
}

fn push_anonymous(lifetimes: &mut Vec<Written<'_>>, count: usize) -> Result<(), AllocError>
    ensures { OnOk result (map written_seen lifetimes.new.items
        ≡ map written_seen lifetimes.old.items ++ replicate count written.Anonymous) }
{
    for _ in 0..count {
        lifetimes.push(Written::Anonymous)?;
    }
    Ok(())
}

/// The lifetimes of a use: the generics of a path are filled up with anonymous ones.
pub fn lifetimes_used<'m>(alloc: Global, used: &Use<'m>) -> Result<Vec<Written<'m>>, AllocError>
    ensures { IfOk result (λ lifetimes.
        map written_seen lifetimes.items ≡ lifetimes_used (use_seen used.now)) }
{
    let mut lifetimes = Vec::new(alloc);
    match *used {
        Use::One(lifetime) => lifetimes.push(as_written(lifetime))?,
        Use::Path(_, path, None) => push_written(&mut lifetimes, path.lifetimes.as_slice())?,
        Use::Path(_, path, Some(found)) => {
            push_written(&mut lifetimes, path.lifetimes.as_slice())?;
            push_anonymous(
                &mut lifetimes,
                found.count.saturating_sub(path.lifetimes.len()),
            )?;
        }
    }
    Ok(lifetimes)
}

/// Whether a use is one of `Self`.
fn is_own_use(used: &Use<'_>) -> bool
    ensures { result ≡ is_own_use (use_seen used.now) }
{
    match *used {
        Use::One(_) => false,
        Use::Path(is_self, _, _) => is_self,
    }
}

/// Whether it is one of `Self` in a signature.
fn meets_self(placed: &PlacedUse<'_>) -> bool
    ensures { result ≡ meets_self (placed_seen placed.now) }
{
    match placed.part {
        Part::Field => false,
        _ => is_own_use(&placed.used),
    }
}

/// Whether `Self` is among uses.
pub fn has_own(uses: &[PlacedUse<'_>]) -> bool
    ensures { result ≡ has_own (map placed_seen uses.now) }
{
    for placed in uses {
        if meets_self(placed) {
            return true;
        }
    }
    false
}

/// The role in which the lifetimes of a use occur, if they do.
fn role_of(met: bool, placed: &PlacedUse<'_>) -> Option<Role>
    ensures { appearing_as (option_map role_seen result)
        (lifetimes_used (use_seen placed.now.used))
        ≡ use_occurrences met (placed_seen placed.now) }
{
    match (placed.part, is_own_use(&placed.used)) {
        (Part::Field, _) => None,
        (_, true) => if met { None } else { Some(Role::Own) },
        (Part::Borrow, false) => Some(Role::Borrow),
        (Part::Input, false) => Some(Role::Counting),
        (Part::Output, false) => None,
        (Part::TraitOutput, false) => Some(Role::Neither),
    }
}

fn push_appearing<'m>(
    occurrences: &mut Vec<Occurrence<'m>>,
    role: Role,
    lifetimes: &[Written<'m>],
) -> Result<(), AllocError>
    ensures { OnOk result (map appearance_seen occurrences.new.items
        ≡ map appearance_seen occurrences.old.items
        ++ appearing (role_seen role) (map written_seen lifetimes.now)) }
{
    for lifetime in lifetimes {
        occurrences.push(Occurrence {
            lifetime: *lifetime,
            role,
        })?;
    }
    Ok(())
}

/// The occurrences that a use gives, where `Self` was met before it or wasn't.
fn push_use<'m>(
    alloc: Global,
    occurrences: &mut Vec<Occurrence<'m>>,
    met: bool,
    placed: &PlacedUse<'m>,
) -> Result<(), AllocError>
    ensures { OnOk result (map appearance_seen occurrences.new.items
        ≡ map appearance_seen occurrences.old.items
        ++ use_occurrences met (placed_seen placed.now)) }
{
    match role_of(met, placed) {
        Some(role) => {
            let lifetimes = lifetimes_used(alloc, &placed.used)?;
            push_appearing(occurrences, role, lifetimes.as_slice())
        }
        None => Ok(()),
    }
}

/// The occurrences of lifetimes in uses, each with its role.
pub fn slow_occurrences<'m>(
    alloc: Global,
    uses: &[PlacedUse<'m>],
) -> Result<Vec<Occurrence<'m>>, AllocError>
    ensures { IfOk result (λ found.
        map appearance_seen found.items ≡ occurrences (map placed_seen uses.now)) }
{
    let mut occurrences = Vec::new(alloc);
    for index in 0..uses.len() {
        push_use(
            alloc,
            &mut occurrences,
            has_own(&uses[..index]),
            &uses[index],
        )?;
    }
    Ok(occurrences)
}
