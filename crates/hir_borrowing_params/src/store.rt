//! The store.

ghost use Rattle.std.specs.Prelude.{◌≡◌, ◌≢◌, ◌<◌, ℕ, length, slice_index, OnOk, option_map};
ghost use Rattle.std.specs.List.{All, Contains};
ghost use Rattle.hir_borrowing_params.specs.Edges.{held_under, info_under};
ghost use Rattle.hir_borrowing_params.specs.inside.Candidates.{AreApart, with_edges};
ghost use Rattle.hir_borrowing_params.specs.inside.Rooms.{HasRoomUnder};

use crate::candidates::{EdgeCandidate, push_edges};
use crate::edges::BorrowMap;
use bridge_decl::NoMemory;
use hir_life::Lifetime;

/// Makes room for edges under a key.
fn reserve_under(map: &mut BorrowMap<'_>, key: Lifetime, more: usize) -> Result<(), NoMemory>
    ensures same { (t : ℕ) → held_under map.new t ≡ held_under map.old t }
    ensures room { OnOk result (HasRoomUnder map.new more key) }
    ensures kept { (t : ℕ) → HasRoomUnder map.old more t → HasRoomUnder map.new more t }
{
    match map.get_mut(&key) {
        Some(info) => info.incoming_edges.reserve(more),
        None => Ok(()),
    }
}

/// Makes room for edges under each key.
pub(crate) fn reserve_each(
    map: &mut BorrowMap<'_>,
    keys: &[Lifetime],
    more: usize,
) -> Result<(), NoMemory>
    ensures same { (t : ℕ) → held_under map.new t ≡ held_under map.old t }
    ensures room { OnOk result (All (HasRoomUnder map.new more) keys.now) }
{
    for key in keys {
        reserve_under(map, *key, more)?;
    }
    Ok(())
}

/// Adds edges under a key.
fn push_under<'tcx>(
    map: &mut BorrowMap<'tcx>,
    key: Lifetime,
    param_name: &'tcx str,
    candidates: &[EdgeCandidate<'_, 'tcx>],
)
    requires { HasRoomUnder map.old (length candidates.now) key }
    ensures here { held_under map.new key
        ≡ option_map (with_edges param_name.now candidates.now) (held_under map.old key) }
    ensures others { (t : ℕ) → t ≢ key → info_under map.new t ≡ info_under map.old t }
{
    if let Some(info) = map.get_mut(&key) {
        push_edges(info, param_name, candidates);
    }
}

/// Adds edges under each key.
pub(crate) fn push_each<'tcx>(
    map: &mut BorrowMap<'tcx>,
    keys: &[Lifetime],
    param_name: &'tcx str,
    candidates: &[EdgeCandidate<'_, 'tcx>],
)
    requires room { All (HasRoomUnder map.old (length candidates.now)) keys.now }
    requires apart { AreApart keys.now }
    ensures here { (t : ℕ) → Contains keys.now t → held_under map.new t
        ≡ option_map (with_edges param_name.now candidates.now) (held_under map.old t) }
    ensures others { (t : ℕ) → (Contains keys.now t → ⊥)
        → info_under map.new t ≡ info_under map.old t }
{
    for key in keys {
        push_under(map, *key, param_name, candidates);
    }
}
