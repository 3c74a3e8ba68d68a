//! Whether something carries a lifetime that outlives another.

ghost use Rattle.std.specs.Prelude.{◌≡◌};
ghost use Rattle.std.specs.List.{list_any};
ghost use Rattle.hir_borrowing_params.specs.Edges.{is_in};
ghost use Rattle.hir_parts.specs.Parts.{carried_by};
ghost use Rattle.hir_skeleton.specs.Leaves.{number_passes};
ghost use Rattle.hir_types.specs.Slices.{at_most_one};

use hir_life::{Lifetime, MaybeStatic};
use std::collections::BTreeSet;

/// Whether the lifetime is one of a set: `'static` never is.
pub(crate) fn outlives(longer: &BTreeSet<Lifetime>, lifetime: &MaybeStatic<Lifetime>) -> bool
    ensures { result ≡ number_passes (is_in longer.now) lifetime.now }
{
    match lifetime {
        MaybeStatic::Static => false,
        MaybeStatic::NonStatic(lifetime) => longer.contains(lifetime),
    }
}

/// Whether one of the lifetimes is.
pub(crate) fn any_outlives(longer: &BTreeSet<Lifetime>, lifetimes: &[MaybeStatic<Lifetime>]) -> bool
    ensures { result ≡ list_any (number_passes (is_in longer.now)) lifetimes.now }
{
    for lifetime in lifetimes {
        if outlives(longer, lifetime) {
            return true;
        }
    }
    false
}

/// Whether there is one, and it is.
fn some_outlives(longer: &BTreeSet<Lifetime>, lifetime: Option<MaybeStatic<Lifetime>>) -> bool
    ensures { result ≡ list_any (number_passes (is_in longer.now)) (at_most_one lifetime) }
{
    match lifetime {
        Some(lifetime) => outlives(longer, &lifetime),
        None => false,
    }
}

/// Whether one of the lifetimes of a carrier is.
pub(crate) fn carried_outlives(
    longer: &BTreeSet<Lifetime>,
    own: Option<MaybeStatic<Lifetime>>,
    element: Option<MaybeStatic<Lifetime>>,
    given: &[MaybeStatic<Lifetime>],
) -> bool
    ensures { result ≡ list_any (number_passes (is_in longer.now))
        (carried_by own element given.now) }
{
    some_outlives(longer, own) || some_outlives(longer, element) || any_outlives(longer, given)
}
