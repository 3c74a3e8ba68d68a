//! Visits of inputs: what holds them is added, and what is told of them is answered.

ghost use Rattle.std.specs.Prelude.{◌≡◌, ℕ, map, option_map, IfOk, OnOk, OnErr, MatchBool, MatchOption};
ghost use Rattle.std.specs.List.{enumerate_from};
ghost use Rattle.hir_borrowing_params.specs.Answering.{IsUnheld, IsHeld, MapsRows, TellsStruct, counts_for};
ghost use Rattle.hir_borrowing_params.specs.Edges.{held_under, holding, kind_shown, whole_kind};
ghost use Rattle.hir_borrowing_params.specs.inside.Candidates.{IsKeyed, candidate_shown, keys_of, struct_candidate, struct_edges, whole_edges, with_edges};
ghost use Rattle.hir_parts.specs.Parts.{carried_by};

use crate::answers::sets_under;
use crate::candidates::EdgeCandidate;
use crate::edges::{BorrowMap, LifetimeEdgeKind};
use crate::infos::StructBorrowInfo;
use crate::sets::KeySets;
use crate::store::{push_each, reserve_each};
use bridge_decl::NoMemory;
use hir_life::{Lifetime, LifetimeEnv, MaybeStatic};
use std::alloc::Global;

/// Adds the edges, and answers under which keys each is there.
fn visit_edges<'tcx>(
    alloc: Global,
    map: &mut BorrowMap<'tcx>,
    keys: &[Lifetime],
    param_name: &'tcx str,
    candidates: &[EdgeCandidate<'_, 'tcx>],
) -> Result<KeySets, NoMemory>
    requires { IsKeyed keys.now map.old }
    ensures rows { IfOk result (MapsRows (keys_of map.old) candidates.now) }
    ensures ok { OnOk result ((t : ℕ) → held_under map.new t
        ≡ option_map (with_edges param_name.now candidates.now) (held_under map.old t)) }
    ensures err { OnErr result ((t : ℕ) → held_under map.new t ≡ held_under map.old t) }
{
    let sets = sets_under(alloc, map, keys, candidates)?;
    reserve_each(map, keys, candidates.len())?;
    push_each(map, keys, param_name, candidates);
    Ok(sets)
}

/// The edge of a slice, or of an opaque.
fn whole_edge<'tcx>(is_slice: bool) -> LifetimeEdgeKind<'tcx>
    ensures { kind_shown result ≡ whole_kind is_slice }
{
    if is_slice {
        LifetimeEdgeKind::SliceParam
    } else {
        LifetimeEdgeKind::OpaqueParam
    }
}

/// Adds the edges of a carrier, and answers whether there are any.
pub(crate) fn visit_carrier<'tcx>(
    alloc: Global,
    map: &mut BorrowMap<'tcx>,
    keys: &[Lifetime],
    param_name: &'tcx str,
    is_slice: bool,
    own: Option<MaybeStatic<Lifetime>>,
    element: Option<MaybeStatic<Lifetime>>,
    given: &[MaybeStatic<Lifetime>],
) -> Result<bool, NoMemory>
    requires { IsKeyed keys.now map.old }
    ensures told { IfOk result (λ borrowed. MatchBool borrowed
        (IsHeld (held_under map.old) (whole_edges is_slice (carried_by own element given.now)))
        (IsUnheld (held_under map.old)
        (whole_edges is_slice (carried_by own element given.now)))) }
    ensures ok { OnOk result ((t : ℕ) → held_under map.new t ≡ option_map
        (holding param_name.now (whole_edges is_slice (carried_by own element given.now)))
        (held_under map.old t)) }
    ensures err { OnErr result ((t : ℕ) → held_under map.new t ≡ held_under map.old t) }
{
    let candidates = [EdgeCandidate {
        own,
        element,
        given,
        kind: whole_edge(is_slice),
    }];
    let sets = visit_edges(alloc, map, keys, param_name, &candidates)?;
    Ok(!sets.is_empty())
}

/// What a struct may borrow for each of its lifetimes.
fn struct_candidates<'c, 'tcx>(
    alloc: Global,
    env: &'tcx LifetimeEnv,
    args: &'c [MaybeStatic<Lifetime>],
    optional: bool,
) -> Result<Vec<EdgeCandidate<'c, 'tcx>>, NoMemory>
    ensures { IfOk result (λ list. map candidate_shown list.items
        ≡ map (struct_candidate env.now optional) (enumerate_from 0 args.now)) }
{
    let mut list = Vec::with_capacity(alloc, args.len())?;
    for (number, lifetime) in args.iter().enumerate() {
        list.push_reserved(EdgeCandidate {
            own: Some(*lifetime),
            element: None,
            given: &args[..0],
            kind: LifetimeEdgeKind::StructLifetime(env, Lifetime::new(number), optional),
        });
    }
    Ok(list)
}

/// Adds the edges of a struct, and answers what is told of it. None where there are no edges.
pub(crate) fn visit_struct<'tcx>(
    alloc: Global,
    map: &mut BorrowMap<'tcx>,
    keys: &[Lifetime],
    param_name: &'tcx str,
    env: &'tcx LifetimeEnv,
    args: &[MaybeStatic<Lifetime>],
    optional: bool,
) -> Result<Option<StructBorrowInfo<'tcx>>, NoMemory>
    requires { IsKeyed keys.now map.old }
    ensures told { IfOk result (λ told. MatchOption told
        (IsUnheld (held_under map.old) (struct_edges env.now optional args.now))
        (λ told. IsHeld (held_under map.old) (struct_edges env.now optional args.now)
        × TellsStruct env.now (counts_for (held_under map.old)) args.now told)) }
    ensures ok { OnOk result ((t : ℕ) → held_under map.new t ≡ option_map
        (holding param_name.now (struct_edges env.now optional args.now))
        (held_under map.old t)) }
    ensures err { OnErr result ((t : ℕ) → held_under map.new t ≡ held_under map.old t) }
{
    let candidates = struct_candidates(alloc, env, args, optional)?;
    let sets = visit_edges(alloc, map, keys, param_name, &candidates)?;
    if sets.is_empty() {
        return Ok(None);
    }
    Ok(Some(StructBorrowInfo {
        env,
        borrowed_struct_lifetime_map: sets,
    }))
}
