//! Whether a callable has too many leaves.

ghost use Rattle.std.specs.Prelude.{◌≡◌, IfOk};
ghost use Rattle.bridge_leaves.specs.Limits.{has_too_many};
ghost use Rattle.bridge_leaves.specs.inside.Totals.{AreCounts};
ghost use Rattle.bridge_report.specs.InContext.{callable_of};
ghost use Rattle.bridge_report.specs.declared.report.CallableId.{CallableId};
ghost use Rattle.hir_reports.specs.declared.places.ErrorContext.{ErrorContext};

use crate::counts::{MOST_COUNTED, leaf_count, struct_counts};
use bridge_decl::NoMemory;
use hir_context::TypeContext;
use hir_definitions::Method;
use std::alloc::Global;

/// How many leaves are in each struct of a context, as far as they are counted. No leaf is made: they are counted by sums, struct by
/// struct.
#[derive(Drop)]
pub struct LeafCounts<'tcx> {
    /// The context.
    pub tcx: &'tcx TypeContext,
    counts: Vec<usize>,
    /// Each is that of its struct.
    ghost counted: { AreCounts tcx.now.definitions counts.items },
}

impl<'tcx> LeafCounts<'tcx> {
    /// Those of a context. `NoMemory` where there is none.
    pub fn of(alloc: Global, tcx: &'tcx TypeContext) -> Result<LeafCounts<'tcx>, NoMemory>
        ensures { IfOk result (λ counts. counts.tcx.now ≡ tcx.now) }
    {
        let counts = struct_counts(alloc, tcx)?;
        Ok(LeafCounts { tcx, counts })
    }

    /// Whether the inputs of a method or a function of the context have more leaves than 2^20, whichever it is and wherever it stands.
    pub fn has_too_many(&self, method: &Method) -> bool
        ensures { (id : CallableId) (place : ErrorContext) → result ≡ has_too_many
            (callable_of self.now.tcx.now.definitions id place method.now) }
    {
        leaf_count(self.tcx, &self.counts, method) >= MOST_COUNTED
    }
}
