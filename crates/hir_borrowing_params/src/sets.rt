//! Sets of lifetimes, by the numbers of others.

ghost use Rattle.std.specs.Prelude.{◌≡◌, ◌≢◌, ℕ, false, OnOk};
ghost use Rattle.hir_borrowing_params.specs.Answering.{HasNoEmpty, maps_to};
ghost use Rattle.hir_borrowing_params.specs.Edges.{is_in};

use bridge_decl::NoMemory;
use hir_life::Lifetime;
use std::collections::{BTreeMap, BTreeSet};

/// Sets of lifetimes, by the numbers of others.
pub(crate) type KeySets = BTreeMap<Lifetime, BTreeSet<Lifetime>>;

/// Notes the set, unless it is empty.
pub(crate) fn add_set(
    sets: &mut KeySets,
    number: Lifetime,
    set: BTreeSet<Lifetime>,
) -> Result<(), NoMemory>
    requires none { (t : ℕ) → maps_to sets.old number t ≡ false }
    requires full { HasNoEmpty sets.old }
    ensures here { OnOk result ((t : ℕ) → maps_to sets.new number t ≡ is_in set t) }
    ensures others { OnOk result ((d t : ℕ) → d ≢ number
        → maps_to sets.new d t ≡ maps_to sets.old d t) }
    ensures full { OnOk result (HasNoEmpty sets.new) }
{
    if set.is_empty() {
        return Ok(());
    }
    sets.insert(number, set)?;
    Ok(())
}
