//! What holds inputs.

use hir_life::{Lifetime, LifetimeEnv};
use std::collections::{BTreeMap, BTreeSet};

/// An edge: while what was returned is in use, this of an input has to be kept.
#[derive(Clone, Copy)]
pub struct LifetimeEdge<'tcx> {
    /// The input's name.
    pub param_name: &'tcx str,
    /// What of it.
    pub kind: LifetimeEdgeKind<'tcx>,
}

/// What of an input has to be kept.
#[derive(Clone, Copy)]
pub enum LifetimeEdgeKind<'tcx> {
    /// The input itself, which is an opaque.
    OpaqueParam,
    /// The input itself, which is a slice.
    SliceParam,
    /// All that a struct borrows for its lifetime of this number, which belongs to this
    /// environment; and whether the struct stands in an option.
    StructLifetime(&'tcx LifetimeEnv, Lifetime, bool),
}

/// What is kept of a returned lifetime.
pub struct BorrowedLifetimeInfo<'tcx> {
    /// What holds inputs for it, in the order in which these were visited.
    pub incoming_edges: Vec<LifetimeEdge<'tcx>>,
    /// The lifetimes that outlive it, itself among them.
    pub all_longer_lifetimes: BTreeSet<Lifetime>,
}

/// By hand, so that where one is let go the proof has one call.
impl Drop for BorrowedLifetimeInfo<'_> {
    fn drop(self) {
        let BorrowedLifetimeInfo {
            incoming_edges: _,
            all_longer_lifetimes: _,
        } = self;
    }
}

/// What is kept of each returned lifetime.
pub(crate) type BorrowMap<'tcx> = BTreeMap<Lifetime, BorrowedLifetimeInfo<'tcx>>;
