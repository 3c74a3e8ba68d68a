//! The visitor of the inputs of a method.

ghost use Rattle.std.specs.Prelude.{◌≡◌, ℕ, Bool, Some, false, option_copied, option_map, IfOk, OnOk, OnErr};
ghost use Rattle.hir_ids.specs.declared.ids.TypeId.{TypeId};
ghost use Rattle.hir_context.specs.Lookups.{environment_at};
ghost use Rattle.hir_skeleton.specs.Lowered.{carrier_of};
ghost use Rattle.hir_skeleton.specs.Skeletons.{Struct};
ghost use Rattle.hir_borrowing_params.specs.Answering.{TellsParam};
ghost use Rattle.hir_borrowing_params.specs.Edges.{holding, input_edges};
ghost use Rattle.hir_borrowing_params.specs.inside.Candidates.{IsKeyed};
ghost use Rattle.hir_parts.specs.Parts.{carried_by};
ghost use Rattle.hir_borrowing_params.specs.inside.Telling.{carrier_told};

use crate::edges::{BorrowMap, BorrowedLifetimeInfo};
use crate::infos::ParamBorrowInfo;
use crate::visits::{visit_carrier, visit_struct};
use bridge_decl::NoMemory;
use hir_context::TypeContext;
use hir_life::{Lifetime, LifetimeEnv, MaybeStatic};
use std::alloc::Global;
use std::collections::{BTreeMap, BTreeSet};

/// What holds the inputs of a method for each lifetime that its return names. Inputs are visited
/// one after another.
#[derive(Drop)]
pub struct BorrowingParamVisitor<'tcx> {
    pub(crate) alloc: Global,
    pub(crate) tcx: &'tcx TypeContext,
    /// The keys of the map, each once.
    pub(crate) keys: Vec<Lifetime>,
    pub(crate) map: BorrowMap<'tcx>,
    /// The list has each key of the map.
    ghost keyed: { IsKeyed keys.items map },
}

/// What is told of a slice, or of an opaque.
fn carrier_told<'tcx>(is_slice: bool, borrowed: bool) -> ParamBorrowInfo<'tcx>
    ensures { result ≡ carrier_told is_slice borrowed }
{
    match (is_slice, borrowed) {
        (true, true) => ParamBorrowInfo::BorrowedSlice,
        (true, false) => ParamBorrowInfo::TemporarySlice,
        (false, true) => ParamBorrowInfo::BorrowedOpaque,
        (false, false) => ParamBorrowInfo::NotBorrowed,
    }
}

impl<'tcx> BorrowingParamVisitor<'tcx> {
    ghost use Rattle.hir_borrowing_params.specs.Visitors.{kept_under, visited_definitions};

    /// The lifetimes that outlive this one, itself among them. None exactly where nothing is kept
    /// of it: where the method doesn't return it.
    pub fn all_longer_lifetimes(&self, lt: Lifetime) -> Option<&BTreeSet<Lifetime>>
        ensures { option_copied result ≡ option_map (λ h. h.longer) (kept_under self.now lt) }
    {
        match self.map.get(&lt) {
            Some(info) => Some(&info.all_longer_lifetimes),
            None => None,
        }
    }

    /// What was found: for each returned lifetime what outlives it, and what holds inputs for it.
    pub fn borrow_map(self) -> BTreeMap<Lifetime, BorrowedLifetimeInfo<'tcx>>
        ensures { result ≡ self.entry.map }
    {
        self.map
    }

    /// Visits a carrier with its own lifetime, that of its elements, and those that these give
    /// their definition.
    pub(crate) fn visit_carrier(
        &mut self,
        param_name: &'tcx str,
        is_slice: bool,
        own: Option<MaybeStatic<Lifetime>>,
        element: Option<MaybeStatic<Lifetime>>,
        given: &[MaybeStatic<Lifetime>],
    ) -> Result<ParamBorrowInfo<'tcx>, NoMemory>
        ensures told { (optional : Bool) → IfOk result (TellsParam (visited_definitions self.old)
            (kept_under self.old) is_slice (carrier_of (carried_by own element given.now))
            (input_edges (visited_definitions self.old) is_slice optional
            (carrier_of (carried_by own element given.now)))) }
        ensures ok { (optional : Bool) → OnOk result ((t : ℕ) → kept_under self.new t
            ≡ option_map (holding param_name.now (input_edges (visited_definitions self.old)
            is_slice optional (carrier_of (carried_by own element given.now))))
            (kept_under self.old t)) }
        ensures err { OnErr result
            ((t : ℕ) → kept_under self.new t ≡ kept_under self.old t) }
        ensures context { visited_definitions self.new ≡ visited_definitions self.old }
    {
        let keys = self.keys.as_slice();
        let map = &mut self.map;
        let borrowed = visit_carrier(
            self.alloc, map, keys, param_name, is_slice, own, element, given,
        )?;
        Ok(carrier_told(is_slice, borrowed))
    }

    /// Visits a struct that has this environment and is given these lifetimes, in an option or not.
    pub(crate) fn visit_struct(
        &mut self,
        param_name: &'tcx str,
        env: &'tcx LifetimeEnv,
        args: &[MaybeStatic<Lifetime>],
        optional: bool,
    ) -> Result<ParamBorrowInfo<'tcx>, NoMemory>
        ensures told { (id : TypeId) → environment_at (visited_definitions self.old) id
            ≡ Some env.now → IfOk result (TellsParam (visited_definitions self.old)
            (kept_under self.old) false (Struct id args.now)
            (input_edges (visited_definitions self.old) false optional (Struct id args.now))) }
        ensures ok { (id : TypeId) → environment_at (visited_definitions self.old) id
            ≡ Some env.now → OnOk result ((t : ℕ) → kept_under self.new t ≡ option_map
            (holding param_name.now (input_edges (visited_definitions self.old) false optional
            (Struct id args.now))) (kept_under self.old t)) }
        ensures err { OnErr result
            ((t : ℕ) → kept_under self.new t ≡ kept_under self.old t) }
        ensures context { visited_definitions self.new ≡ visited_definitions self.old }
    {
        let keys = self.keys.as_slice();
        let map = &mut self.map;
        match visit_struct(self.alloc, map, keys, param_name, env, args, optional)? {
            Some(told) => Ok(ParamBorrowInfo::Struct(told)),
            None => Ok(ParamBorrowInfo::NotBorrowed),
        }
    }
}
