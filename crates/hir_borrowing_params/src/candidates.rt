//! What of an input may be held.

ghost use Rattle.std.specs.Prelude.{◌≡◌, ◌≤◌, ◌+◌, [], ◌∷◌, ◌++◌, length, map, vec_capacity};
ghost use Rattle.std.specs.List.{list_any};
ghost use Rattle.hir_borrowing_params.specs.Edges.{held_for, is_in, kind_shown};
ghost use Rattle.hir_borrowing_params.specs.inside.Candidates.{candidate_passes, with_edges};
ghost use Rattle.hir_borrowing_params.specs.inside.Rooms.{HasRoom};
ghost use Rattle.hir_types.specs.Slices.{at_most_one};
ghost use Rattle.hir_skeleton.specs.Leaves.{number_passes};

use crate::edges::{BorrowedLifetimeInfo, LifetimeEdge, LifetimeEdgeKind};
use hir_life::{Lifetime, MaybeStatic};
use std::collections::BTreeSet;

/// What of an input may be held: an edge that is there where one of the lifetimes counts.
#[derive(Clone, Copy)]
pub struct EdgeCandidate<'c, 'tcx> {
    /// Its own lifetime.
    pub own: Option<MaybeStatic<Lifetime>>,
    /// That of its elements.
    pub element: Option<MaybeStatic<Lifetime>>,
    /// Those that these give their definition.
    pub given: &'c [MaybeStatic<Lifetime>],
    /// The edge.
    pub kind: LifetimeEdgeKind<'tcx>,
}

/// Whether the lifetime is a number of the set.
fn passes(longer: &BTreeSet<Lifetime>, lifetime: MaybeStatic<Lifetime>) -> bool
    ensures { result ≡ number_passes (is_in longer.now) lifetime }
{
    match lifetime {
        MaybeStatic::Static => false,
        MaybeStatic::NonStatic(lifetime) => longer.contains(&lifetime),
    }
}

/// Whether there is one, and it is a number of the set.
fn some_passes(longer: &BTreeSet<Lifetime>, lifetime: Option<MaybeStatic<Lifetime>>) -> bool
    ensures { result ≡ list_any (number_passes (is_in longer.now)) (at_most_one lifetime) }
{
    match lifetime {
        Some(lifetime) => passes(longer, lifetime),
        None => false,
    }
}

/// Whether one of them is a number of the set.
fn any_passes(longer: &BTreeSet<Lifetime>, lifetimes: &[MaybeStatic<Lifetime>]) -> bool
    ensures { result ≡ list_any (number_passes (is_in longer.now)) lifetimes.now }
{
    for lifetime in lifetimes {
        if passes(longer, *lifetime) {
            return true;
        }
    }
    false
}

/// Whether one of its lifetimes is a number of the set.
pub(crate) fn candidate_passes(
    longer: &BTreeSet<Lifetime>,
    candidate: &EdgeCandidate<'_, '_>,
) -> bool
    ensures { result ≡ candidate_passes (is_in longer.now) candidate.now }
{
    some_passes(longer, candidate.own)
        || some_passes(longer, candidate.element)
        || any_passes(longer, candidate.given)
}

/// The same kind of edge.
fn copied<'tcx>(kind: &LifetimeEdgeKind<'tcx>) -> LifetimeEdgeKind<'tcx>
    ensures { kind_shown result ≡ kind_shown kind.now }
{
    match kind {
        LifetimeEdgeKind::OpaqueParam => LifetimeEdgeKind::OpaqueParam,
        LifetimeEdgeKind::SliceParam => LifetimeEdgeKind::SliceParam,
        LifetimeEdgeKind::StructLifetime(env, lifetime, optional) => {
            LifetimeEdgeKind::StructLifetime(env, *lifetime, *optional)
        }
    }
}

/// Adds the edge, where it counts.
fn push_edge<'tcx>(
    info: &mut BorrowedLifetimeInfo<'tcx>,
    param_name: &'tcx str,
    candidate: &EdgeCandidate<'_, 'tcx>,
)
    requires { HasRoom 1 info.old }
    ensures edges { held_for info.new
        ≡ with_edges param_name.now (candidate.now ∷ []) (held_for info.old) }
    ensures room { length info.new.incoming_edges.items
        ≤ length info.old.incoming_edges.items + 1 }
    ensures capacity { vec_capacity info.new.incoming_edges
        ≡ vec_capacity info.old.incoming_edges }
{
    if candidate_passes(&info.all_longer_lifetimes, candidate) {
        info.incoming_edges.push_reserved(LifetimeEdge {
            param_name,
            kind: copied(&candidate.kind),
        });
    }
}

/// Adds the edges that count.
pub(crate) fn push_edges<'tcx>(
    info: &mut BorrowedLifetimeInfo<'tcx>,
    param_name: &'tcx str,
    candidates: &[EdgeCandidate<'_, 'tcx>],
)
    requires { HasRoom (length candidates.now) info.old }
    ensures { held_for info.new ≡ with_edges param_name.now candidates.now (held_for info.old) }
{
    for candidate in candidates {
        push_edge(info, param_name, candidate);
    }
}
