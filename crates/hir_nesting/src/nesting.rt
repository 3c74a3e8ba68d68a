//! Which structs contain themselves, and which nest too deep.

ghost use Rattle.std.specs.Prelude.{◌≡◌, ◌<◌, ℕ, List, IfOk, length};
ghost use Rattle.definition_graph.specs.Surveying.{AreDepths, FlagsReachingItself};
ghost use Rattle.hir_nesting.specs.Faults.{AreNestingFaults, TellsNesting, TellsMisfit};
ghost use Rattle.hir_nesting.specs.Structs.{containment, each_contained, struct_of_number};

use crate::containment::containment_graph;
use crate::fault::NestingFault;
use bridge_decl::NoMemory;
use definition_graph::{Graph, StepCounter, Survey};
use hir_definitions::StructDef;
use hir_ids::{OutStructId, StructId, TypeId};
use hir_types::TyPosition;
use std::alloc::Global;
use std::marker::Brand;
use std::sync::ledger::{Blank, Ledger};

/// How many structs may stand one in the other, the outermost counted.
pub const MOST_LEVELS: usize = 256;

/// The survey of a graph, in a ledger of its own.
fn in_ledger<L: Ledger>(alloc: Global, graph: &Graph, blank: Blank) -> Result<Survey, NoMemory>
    requires name { blank.name ≡ L.name }
    requires parts { blank.parts ≡ L.parts }
    requires some { 0 < blank.parts }
    ensures flags { IfOk result (λ s. FlagsReachingItself graph.now s.reaches_itself.items) }
    ensures depths { IfOk result (λ s. AreDepths graph.now s.depth.items) }
{
    let mut steps = StepCounter::<L>::new(blank);
    Survey::of(alloc, graph, &mut steps)
}

/// The survey of a graph.
fn surveyed(alloc: Global, graph: &Graph) -> Result<Survey, NoMemory>
    ensures flags { IfOk result (λ s. FlagsReachingItself graph.now s.reaches_itself.items) }
    ensures depths { IfOk result (λ s. AreDepths graph.now s.depth.items) }
{
    in_ledger::<Brand>(alloc, graph, Blank::new(1))
}

/// What is wrong with a struct of which the survey knows this.
fn fault_at(graph: &Graph, survey: &Survey, node: usize) -> Option<NestingFault>
    requires within { node < length graph.now }
    requires flags { FlagsReachingItself graph.now survey.now.reaches_itself.items }
    requires depths { AreDepths graph.now survey.now.depth.items }
    ensures { TellsNesting graph.now node result }
{
    if survey.reaches_itself[node] {
        return Some(NestingFault::ContainsItself);
    }
    match survey.depth[node] {
        Some(depth) => {
            if depth > MOST_LEVELS {
                Some(NestingFault::NestsTooDeep)
            } else {
                None
            }
        }
        None => None,
    }
}

/// What is wrong with each node.
fn graph_faults(alloc: Global, graph: &Graph) -> Result<Vec<Option<NestingFault>>, NoMemory>
    ensures { IfOk result (λ faults. AreNestingFaults graph.now faults.items) }
{
    let survey = surveyed(alloc, graph)?;
    let mut faults = Vec::new(alloc);
    for node in 0..graph.len() {
        faults.push(fault_at(graph, &survey, node))?;
    }
    Ok(faults)
}

/// What is wrong with how each struct nests, in the order of their numbers: out-structs first. It
/// takes time linear in the structs and their fields, and doesn't recurse.
pub fn nesting_faults<O: TyPosition, S: TyPosition>(
    alloc: Global,
    out_structs: &[StructDef<O>],
    structs: &[StructDef<S>],
) -> Result<Vec<Option<NestingFault>>, NoMemory>
    ensures { IfOk result (λ faults. AreNestingFaults (containment
        (each_contained O.StructPath.id_of out_structs.now)
        (each_contained S.StructPath.id_of structs.now)) faults.items) }
{
    let graph = containment_graph(alloc, out_structs, structs)?;
    graph_faults(alloc, &graph)
}

/// The struct of a number.
fn struct_at(out_structs: usize, number: usize) -> TypeId
    ensures { result ≡ struct_of_number out_structs number }
{
    if number < out_structs {
        TypeId::OutStruct(OutStructId::new(number))
    } else {
        TypeId::Struct(StructId::new(number - out_structs))
    }
}

/// The first of these structs that has a fault. None exactly where none has.
fn first_faulty(out_structs: usize, faults: &[Option<NestingFault>]) -> Option<TypeId>
    ensures { (g : List (List ℕ)) → AreNestingFaults g faults.now
        → TellsMisfit g out_structs result }
{
    for (number, fault) in faults.iter().enumerate() {
        if fault.is_some() {
            return Some(struct_at(out_structs, number));
        }
    }
    None
}

/// The first struct, out-structs before the others, that contains itself or nests too deep. None
/// exactly where there is none: each chain of structs then ends after 256 of them at most.
pub fn nesting_misfit<O: TyPosition, S: TyPosition>(
    alloc: Global,
    out_structs: &[StructDef<O>],
    structs: &[StructDef<S>],
) -> Result<Option<TypeId>, NoMemory>
    ensures { IfOk result (TellsMisfit (containment
        (each_contained O.StructPath.id_of out_structs.now)
        (each_contained S.StructPath.id_of structs.now)) (length out_structs.now)) }
{
    let faults = nesting_faults(alloc, out_structs, structs)?;
    Ok(first_faulty(out_structs.len(), faults.as_slice()))
}
