//! What stands before a use, and the numbers that lifetimes have after it.

ghost use Rattle.std.specs.Prelude.{◌≡◌, false, IfOk};
ghost use Rattle.bridge_decl.specs.Lifetimes.{lifetime_names};
ghost use Rattle.bridge_text.specs.NameIndex.{number_of};
ghost use Rattle.hir_elide.specs.Numbering.{lifetime_number, within_most};
ghost use Rattle.hir_elide.specs.Occurrences.{count_of, used_as};
ghost use Rattle.hir_number.specs.Occurrences.{elide_role};
ghost use Rattle.hir_number_slow.specs.Seen.{role_seen, signature_seen, written_seen};
ghost use Rattle.hir_number_slow.specs.inside.Parts.{role_test};

use crate::occurrences::{Occurrence, Role, Written};
use bridge_decl::{LifetimeEnv, Text};
use hir_elide::ElideFault;
use hir_life::{Lifetime, MaybeStatic};
use std::alloc::{AllocError, Global};

/// The number of a lifetime, or the rule that it breaks.
pub type Number = Result<MaybeStatic<Lifetime>, ElideFault>;

/// The most lifetimes that a signature or a definition may have.
pub const MOST: usize = 4095;

/// A signature as far as a use: its declared lifetimes, the occurrences before the use, and whether `Self` was met.
#[derive(Drop)]
pub struct Before<'m> {
    /// The declared lifetimes.
    pub declared: &'m LifetimeEnv,
    /// The occurrences.
    pub occurrences: Vec<Occurrence<'m>>,
    /// Whether `Self` was met.
    pub met: bool,
}

/// The place of a declared name, the first where it stands twice.
fn place_of(declared: &LifetimeEnv, name: &Text) -> Option<usize>
    ensures { result ≡ number_of (lifetime_names declared.now) name.now }
{
    for (place, node) in declared.nodes.as_slice().iter().enumerate() {
        if node.name == *name {
            return Some(place);
        }
    }
    None
}

fn within_most(number: usize) -> Number
    ensures { result ≡ within_most number }
{
    if number < MOST {
        Ok(MaybeStatic::NonStatic(Lifetime::new(number)))
    } else {
        Err(ElideFault::TooManyLifetimes)
    }
}

/// How many lifetimes have a number after these occurrences: the declared ones, and the anonymous ones among them.
pub fn slow_count(declared: &LifetimeEnv, occurrences: &[Occurrence<'_>]) -> usize
    ensures { result ≡ count_of (signature_seen declared.now occurrences.now false) }
{
    let mut count = declared.nodes.as_slice().len();
    for occurrence in occurrences {
        if let Written::Anonymous = occurrence.lifetime {
            count += 1;
        }
    }
    count
}

/// The number of a lifetime that is used after these occurrences.
pub fn number_after(
    declared: &LifetimeEnv,
    occurrences: &[Occurrence<'_>],
    lifetime: &Written<'_>,
) -> Number
    ensures { result ≡ lifetime_number (lifetime_names declared.now)
        (count_of (signature_seen declared.now occurrences.now false))
        (written_seen lifetime.now) }
{
    match *lifetime {
        Written::Static => Ok(MaybeStatic::Static),
        Written::Named(name) => match place_of(declared, name) {
            Some(place) => within_most(place),
            None => Err(ElideFault::LifetimeUnknown),
        },
        Written::Anonymous => within_most(slow_count(declared, occurrences)),
    }
}

/// Whether a role is the wanted one for elision, for which what is neither stands for what counts.
fn is_as(wanted: Role, role: Role) -> bool
    ensures { result ≡ role_test wanted (elide_role (role_seen role)) }
{
    match (wanted, role) {
        (Role::Borrow, Role::Borrow) => true,
        (Role::Own, Role::Own) => true,
        (Role::Counting, Role::Counting | Role::Neither) => true,
        _ => false,
    }
}

/// The numbers of the occurrences in that role.
pub fn used_as(
    alloc: Global,
    declared: &LifetimeEnv,
    occurrences: &[Occurrence<'_>],
    wanted: Role,
) -> Result<Vec<Number>, AllocError>
    ensures { IfOk result (λ numbers. numbers.items
        ≡ used_as (role_test wanted) (signature_seen declared.now occurrences.now false)) }
{
    let mut numbers = Vec::new(alloc);
    for index in 0..occurrences.len() {
        let occurrence = &occurrences[index];
        if is_as(wanted, occurrence.role) {
            let before = &occurrences[..index];
            numbers.push(number_after(declared, before, &occurrence.lifetime))?;
        }
    }
    Ok(numbers)
}
