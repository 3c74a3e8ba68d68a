//! Structs as a graph in which leaves are counted.

ghost use Rattle.std.specs.Prelude.{◌≡◌, ◌<◌, ◌≤◌, ◌+◌, ◌++◌, ◌∷◌, [], List, ℕ, IfOk, OnOk, length, map, replicate};
ghost use Rattle.hir_parts.specs.Parts.{input_skeleton};
ghost use Rattle.hir_skeleton.specs.Lowered.{field_skeleton, input_fields};
ghost use Rattle.bridge_leaves.specs.inside.Counting.{all_own, graph_of, is_leaf, own_leaves, struct_here, structs_among};

use bridge_decl::NoMemory;
use definition_graph::Graph;
use hir_definitions::{StructDef, StructField};
use hir_parts::{InputPart, input_part};
use hir_types::Everywhere;
use std::alloc::{AllocError, Global};

/// Whether the part is a leaf itself: it carries some lifetime.
pub(crate) fn is_leaf(part: &InputPart<'_>) -> bool
    ensures { result ≡ is_leaf (input_skeleton part.now) }
{
    match part {
        InputPart::Carrier(_, own, element, given) => {
            own.is_some() || element.is_some() || !given.is_empty()
        }
        InputPart::Struct(_, _) => false,
    }
}

/// How many of the fields are leaves themselves.
fn own_leaves(fields: &[StructField<Everywhere>]) -> Result<usize, NoMemory>
    ensures { IfOk result (λ count. count ≡ own_leaves (map (λ f. field_skeleton f.ty)
        fields.now)) }
{
    let mut count = 0usize;
    for field in fields {
        if is_leaf(&input_part(&field.ty)) {
            count = count.checked_add(1).ok_or(AllocError)?;
        }
    }
    Ok(count)
}

/// The same of a struct: one that is disabled has no fields.
fn own_leaves_of(def: &StructDef<Everywhere>) -> Result<usize, NoMemory>
    ensures { IfOk result (λ count. count ≡ own_leaves (input_fields def.now)) }
{
    if def.attrs.disable {
        Ok(0)
    } else {
        own_leaves(def.fields.as_slice())
    }
}

/// The same of each struct.
pub(crate) fn all_own_leaves(
    alloc: Global,
    structs: &[StructDef<Everywhere>],
) -> Result<Vec<usize>, NoMemory>
    ensures { IfOk result (λ counts. counts.items ≡ all_own structs.now) }
{
    let mut counts = Vec::new(alloc);
    for def in structs {
        counts.push(own_leaves_of(def)?)?;
    }
    Ok(counts)
}

/// Adds an edge to the struct that a field is, where it is one that is there.
fn add_edge(graph: &mut Graph, from: usize, field: &StructField<Everywhere>) -> Result<(), NoMemory>
    requires within { from < length graph.old }
    ensures edges { (before after : List (List ℕ)) (row : List ℕ)
        → graph.old ≡ before ++ row ∷ after → length before ≡ from
        → OnOk result (graph.new ≡ before ++ (row
        ++ struct_here (length graph.old) (field_skeleton field.now.ty)) ∷ after) }
    ensures each { OnOk result (length graph.new ≡ length graph.old) }
{
    match input_part(&field.ty) {
        InputPart::Struct(id, _) => {
            if id.index() < graph.len() {
                graph.add_edge(from, id.index())
            } else {
                Ok(())
            }
        }
        InputPart::Carrier(_, _, _, _) => Ok(()),
    }
}

/// Adds the edges of a struct with these fields, which has none yet.
fn add_edges(
    graph: &mut Graph,
    from: usize,
    fields: &[StructField<Everywhere>],
) -> Result<(), NoMemory>
    requires within { from < length graph.old }
    ensures edges { (before after : List (List ℕ)) → graph.old ≡ before ++ [] ∷ after
        → length before ≡ from → OnOk result (graph.new ≡ before ++ structs_among
        (length graph.old) (map (λ f. field_skeleton f.ty) fields.now) ∷ after) }
    ensures each { OnOk result (length graph.new ≡ length graph.old) }
{
    for field in fields {
        add_edge(graph, from, field)?;
    }
    Ok(())
}

/// The same of a struct: one that is disabled has no fields.
fn add_edges_of(graph: &mut Graph, from: usize, def: &StructDef<Everywhere>) -> Result<(), NoMemory>
    requires within { from < length graph.old }
    ensures edges { (before after : List (List ℕ)) → graph.old ≡ before ++ [] ∷ after
        → length before ≡ from → OnOk result (graph.new ≡ before
        ++ structs_among (length graph.old) (input_fields def.now) ∷ after) }
    ensures each { OnOk result (length graph.new ≡ length graph.old) }
{
    if def.attrs.disable {
        Ok(())
    } else {
        add_edges(graph, from, def.fields.as_slice())
    }
}

/// The graph of structs: an edge leads from each to those that its fields are.
pub(crate) fn struct_graph(
    alloc: Global,
    structs: &[StructDef<Everywhere>],
) -> Result<Graph, NoMemory>
    ensures { IfOk result (λ graph. graph ≡ graph_of (length structs.now) structs.now) }
{
    let mut graph = Graph::new(alloc, structs.len())?;
    for (number, def) in structs.iter().enumerate() {
        add_edges_of(&mut graph, number, def)?;
    }
    Ok(graph)
}
