//! Visitors that have visited nothing.

ghost use Rattle.std.specs.Prelude.{◌≡◌, ◌<◌, ◌↔◌, ℕ, Some, IfOk, IsSome};
ghost use Rattle.std.specs.List.{All, Contains};
ghost use Rattle.hir_context.specs.Fitness.{MethodFits};
ghost use Rattle.hir_borrowing_params.specs.Edges.{HeldFor};
ghost use Rattle.hir_borrowing_params.specs.Keys.{IsStart};
ghost use Rattle.hir_borrowing_params.specs.Slices.{IsKept};
ghost use Rattle.hir_borrowing_params.specs.inside.Candidates.{AreApart};

use crate::included::kept_lifetimes;
use crate::starts::starts;
use crate::visitor::BorrowingParamVisitor;
use bridge_decl::NoMemory;
use hir_context::TypeContext;
use hir_definitions::Method;
use hir_life::{Lifetime, LifetimeEnv};
use std::alloc::Global;
use std::collections::BTreeSet;

/// The lifetimes of a set, in order.
fn listed(alloc: Global, set: &BTreeSet<Lifetime>) -> Result<Vec<Lifetime>, NoMemory>
    ensures items { IfOk result (λ list. list.items ≡ set.now.keys) }
    ensures apart { AreApart set.now.keys }
{
    // A set is in order, as its length says.
    let _count = set.len();
    let mut list = Vec::new(alloc);
    for key in set.iter() {
        list.push(*key)?;
    }
    Ok(list)
}

impl<'tcx> BorrowingParamVisitor<'tcx> {
    ghost use Rattle.hir_borrowing_params.specs.Visitors.{kept_under, visited_definitions};

    /// A visitor that has visited nothing. Of these lifetimes, all of which are lifetimes of the
    /// environment, it keeps those that outlive each, and no edge yet; of others it keeps nothing.
    fn for_lifetimes(
        alloc: Global,
        tcx: &'tcx TypeContext,
        env: &LifetimeEnv,
        set: &BTreeSet<Lifetime>,
    ) -> Result<Self, NoMemory>
        requires { All (λ t. t < env.now.count) set.now.keys }
        ensures keys { IfOk result (λ visitor. (t : ℕ)
            → (IsSome (kept_under visitor t) ↔ Contains set.now.keys t)) }
        ensures starts { IfOk result (λ visitor. (t : ℕ) (h : HeldFor)
            → kept_under visitor t ≡ Some h → IsStart env.now t h) }
        ensures context { IfOk result (λ visitor.
            visited_definitions visitor ≡ tcx.now.definitions) }
    {
        let keys = listed(alloc, set)?;
        let map = starts(alloc, env, keys.as_slice())?;
        Ok(BorrowingParamVisitor {
            alloc,
            tcx,
            keys,
            map,
        })
    }

    /// A visitor that has visited nothing, for a method that fits: what it names is there, with
    /// lifetimes of the method. It keeps the lifetimes that the return of the method names.
    /// Backends that copy slices, and let the copies go when what borrows from them is gone, have
    /// to know this of all slices, also of those that nothing borrows from: where
    /// `force_include_slices` is set, it keeps also the lifetimes that name a slice among the
    /// inputs, at any depth.
    pub fn new(
        alloc: Global,
        method: &'tcx Method,
        tcx: &'tcx TypeContext,
        force_include_slices: bool,
    ) -> Result<Self, NoMemory>
        requires fits { MethodFits tcx.now.definitions method.now }
        ensures keys { IfOk result (λ visitor. (t : ℕ) → (IsSome (kept_under visitor t)
            ↔ IsKept tcx.now.definitions method.now force_include_slices t)) }
        ensures starts { IfOk result (λ visitor. (t : ℕ) (h : HeldFor)
            → kept_under visitor t ≡ Some h → IsStart method.now.lifetime_env t h) }
        ensures context { IfOk result (λ visitor.
            visited_definitions visitor ≡ tcx.now.definitions) }
    {
        let set = kept_lifetimes(alloc, method, tcx, force_include_slices)?;
        BorrowingParamVisitor::for_lifetimes(alloc, tcx, &method.lifetime_env, &set)
    }
}
