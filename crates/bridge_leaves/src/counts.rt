//! How many leaves are in each struct, and in the inputs of a method.

ghost use Rattle.std.specs.Prelude.{◌≡◌, ◌<◌, ◌+◌, ◌∷◌, [], min, ℕ, List, IfOk, length};
ghost use Rattle.definition_graph.specs.Surveying.{AreDepths, IsReverseTopological};
ghost use Rattle.hir_parts.specs.Parts.{input_skeleton};
ghost use Rattle.hir_mentions.specs.Mentions.{where_any};
ghost use Rattle.hir_ids.specs.declared.ids.TypeId.TheVariants as type;
ghost use Rattle.hir_life.specs.declared.maybe_static.MaybeStatic.{MaybeStatic};
ghost use Rattle.hir_skeleton.specs.Inputs.{fields_in, method_leaves, param_skeleton};
ghost use Rattle.hir_skeleton.specs.Leaves.{struct_leaves};
ghost use Rattle.hir_skeleton.specs.Lowered.{receiver_skeleton};
ghost use Rattle.bridge_leaves.specs.inside.Counting.{most_counted};
ghost use Rattle.bridge_leaves.specs.inside.Totals.{AreCounts, CountsInputs, CountsType};

use crate::graph::{all_own_leaves, is_leaf, struct_graph};
use bridge_decl::NoMemory;
use definition_graph::{Graph, StepCounter, Survey, totals};
use hir_context::TypeContext;
use hir_definitions::{Method, Param, ParamSelf};
use hir_ids::StructId;
use hir_life::{Lifetime, MaybeStatic};
use hir_parts::{InputPart, input_part, receiver_part};
use hir_types::SelfType;
use std::alloc::Global;
use std::marker::Brand;
use std::sync::ledger::{Blank, Ledger};

/// One more than a callable may have: no sum is followed past this.
pub(crate) const MOST_COUNTED: usize = 1_048_577;

/// The survey of a graph, in a ledger of its own.
fn in_ledger<L: Ledger>(alloc: Global, graph: &Graph, blank: Blank) -> Result<Survey, NoMemory>
    requires name { blank.name ≡ L.name }
    requires parts { blank.parts ≡ L.parts }
    requires some { 0 < blank.parts }
    ensures depths { IfOk result (λ s. AreDepths graph.now s.depth.items) }
    ensures order { IfOk result (λ s. IsReverseTopological graph.now s.order.items) }
{
    let mut steps = StepCounter::<L>::new(blank);
    Survey::of(alloc, graph, &mut steps)
}

/// The survey of a graph.
fn surveyed(alloc: Global, graph: &Graph) -> Result<Survey, NoMemory>
    ensures depths { IfOk result (λ s. AreDepths graph.now s.depth.items) }
    ensures order { IfOk result (λ s. IsReverseTopological graph.now s.order.items) }
{
    in_ledger::<Brand>(alloc, graph, Blank::new(1))
}

/// How many leaves are in each struct of a context, as far as they are counted. Each struct is gone through once.
pub(crate) fn struct_counts(alloc: Global, tcx: &TypeContext) -> Result<Vec<usize>, NoMemory>
    ensures { IfOk result (λ counts. AreCounts tcx.now.definitions counts.items) }
{
    let graph = struct_graph(alloc, tcx.structs())?;
    let own = all_own_leaves(alloc, tcx.structs())?;
    let survey = surveyed(alloc, &graph)?;
    totals(
        alloc,
        &graph,
        &survey.order,
        &survey.depth,
        &own,
        MOST_COUNTED,
    )
}

/// How many leaves are in the struct of an id: where there is none there are none.
fn struct_count(tcx: &TypeContext, counts: &[usize], id: StructId) -> usize
    requires { AreCounts tcx.now.definitions counts.now }
    ensures { (args : List (MaybeStatic ℕ)) → result ≡ min most_counted
        (length (struct_leaves (fields_in tcx.now.definitions) 256 (type.Struct id) args)) }
{
    match counts.get(id.index()) {
        Some(count) => *count,
        None => 0,
    }
}

/// How many leaves are in a part.
fn part_count(tcx: &TypeContext, counts: &[usize], part: &InputPart<'_>) -> usize
    requires { AreCounts tcx.now.definitions counts.now }
    ensures { CountsType tcx.now.definitions (input_skeleton part.now) result }
{
    match part {
        InputPart::Carrier(_, _, _, _) => { if is_leaf(part) { 1 } else { 0 } }
        InputPart::Struct(id, _) => struct_count(tcx, counts, *id),
    }
}

/// The sum of both, as far as is counted.
fn counted(one: usize, other: usize) -> usize
    ensures { result ≡ min most_counted (one + other) }
{
    one.saturating_add(other).min(MOST_COUNTED)
}

/// How many leaves are in a receiver of this type.
fn self_count(tcx: &TypeContext, counts: &[usize], ty: &SelfType) -> usize
    requires { AreCounts tcx.now.definitions counts.now }
    ensures { CountsType tcx.now.definitions (receiver_skeleton ty.now) result }
{
    let _lifetime: Option<MaybeStatic<Lifetime>> = None;
    part_count(tcx, counts, &receiver_part(ty))
}

/// How many leaves are in a parameter.
fn param_count(tcx: &TypeContext, counts: &[usize], param: &Param) -> usize
    requires { AreCounts tcx.now.definitions counts.now }
    ensures { CountsType tcx.now.definitions (param_skeleton param.now.ty) result }
{
    let _lifetime: Option<MaybeStatic<Lifetime>> = None;
    part_count(tcx, counts, &input_part(&param.ty))
}

/// How many leaves are in the receiver, where there is one.
fn receiver_count(tcx: &TypeContext, counts: &[usize], receiver: &Option<ParamSelf>) -> usize
    requires { AreCounts tcx.now.definitions counts.now }
    ensures { CountsInputs tcx.now.definitions
        (where_any (λ r. receiver_skeleton r.ty ∷ []) receiver.now) result }
{
    match receiver {
        Some(receiver) => self_count(tcx, counts, &receiver.ty),
        None => 0,
    }
}

/// How many leaves the inputs of a method have, as far as they are counted.
pub(crate) fn leaf_count(tcx: &TypeContext, counts: &[usize], method: &Method) -> usize
    requires { AreCounts tcx.now.definitions counts.now }
    ensures { result ≡ min most_counted (length (method_leaves tcx.now.definitions method.now)) }
{
    let mut count = receiver_count(tcx, counts, &method.param_self);
    for param in method.params.as_slice() {
        count = counted(count, param_count(tcx, counts, param));
    }
    count
}
