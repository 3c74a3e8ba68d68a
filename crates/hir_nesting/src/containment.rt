//! Structs as a graph.

ghost use Rattle.std.specs.Prelude.{◌≡◌, ◌≤◌, ◌<◌, ◌+◌, ◌++◌, ◌∷◌, [], List, ℕ, IfOk, OnOk, length, map, replicate};
ghost use Rattle.hir_nesting.specs.Structs.{containment, each_contained, struct_number, struct_numbers};

use bridge_decl::NoMemory;
use definition_graph::Graph;
use hir_definitions::StructDef;
use hir_ids::TypeId;
use hir_mentions::contained_structs;
use hir_types::TyPosition;
use std::alloc::{AllocError, Global};

/// How many structs there are of each kind.
#[derive(Clone, Copy)]
pub struct StructCounts {
    /// How many out-structs.
    pub out_structs: usize,
    /// How many others.
    pub structs: usize,
}

/// The number of a struct among all, out-structs before the others. None where there is no such
/// struct.
fn number_of(counts: &StructCounts, id: &TypeId) -> Option<usize>
    requires { counts.now.out_structs + counts.now.structs ≤ usize.MAX }
    ensures { result ≡ struct_number counts.now.out_structs counts.now.structs id.now }
{
    match id {
        TypeId::OutStruct(id) => {
            let place = id.index();
            if place < counts.out_structs {
                Some(place)
            } else {
                None
            }
        }
        TypeId::Struct(id) => {
            let place = id.index();
            if place < counts.structs {
                Some(counts.out_structs + place)
            } else {
                None
            }
        }
        TypeId::Opaque(_) | TypeId::Enum(_) => None,
    }
}

/// Adds an edge from a struct to this one, where it is there.
fn add_contained(
    graph: &mut Graph,
    counts: &StructCounts,
    from: usize,
    id: &TypeId,
) -> Result<(), NoMemory>
    requires within { from < length graph.old }
    requires all { length graph.old ≡ counts.now.out_structs + counts.now.structs }
    requires fits { length graph.old ≤ usize.MAX }
    ensures edges { (before after : List (List ℕ)) (row : List ℕ)
        → graph.old ≡ before ++ row ∷ after → length before ≡ from
        → OnOk result (graph.new ≡ before ++ (row
        ++ struct_numbers counts.now.out_structs counts.now.structs (id.now ∷ [])) ∷ after) }
    ensures each { OnOk result (length graph.new ≡ length graph.old) }
{
    match number_of(counts, id) {
        Some(to) => graph.add_edge(from, to),
        None => Ok(()),
    }
}

/// Adds an edge from a struct that has none to each of these, of those that are there.
fn add_all_contained(
    graph: &mut Graph,
    counts: &StructCounts,
    from: usize,
    ids: &[TypeId],
) -> Result<(), NoMemory>
    requires within { from < length graph.old }
    requires all { length graph.old ≡ counts.now.out_structs + counts.now.structs }
    requires fits { length graph.old ≤ usize.MAX }
    ensures edges { (before after : List (List ℕ)) → graph.old ≡ before ++ [] ∷ after
        → length before ≡ from → OnOk result (graph.new ≡ before
        ++ struct_numbers counts.now.out_structs counts.now.structs ids.now ∷ after) }
    ensures each { OnOk result (length graph.new ≡ length graph.old) }
{
    for id in ids {
        add_contained(graph, counts, from, id)?;
    }
    Ok(())
}

/// Adds the edges of structs of one kind, whose numbers follow one another from `first` on.
fn add_structs<P: TyPosition>(
    alloc: Global,
    graph: &mut Graph,
    counts: &StructCounts,
    first: usize,
    defs: &[StructDef<P>],
) -> Result<(), NoMemory>
    requires within { first + length defs.now ≤ length graph.old }
    requires all { length graph.old ≡ counts.now.out_structs + counts.now.structs }
    requires fits { length graph.old ≤ usize.MAX }
    ensures edges { (before : List (List ℕ)) (rest : ℕ)
        → graph.old ≡ before ++ replicate (length defs.now + rest) []
        → length before ≡ first
        → OnOk result (graph.new ≡ (before ++ map
        (struct_numbers counts.now.out_structs counts.now.structs)
        (each_contained P.StructPath.id_of defs.now)) ++ replicate rest []) }
    ensures each { OnOk result (length graph.new ≡ length graph.old) }
{
    for (place, def) in defs.iter().enumerate() {
        let ids = contained_structs(alloc, def.fields.as_slice())?;
        add_all_contained(graph, counts, first + place, ids.as_slice())?;
    }
    Ok(())
}

/// How many structs there are of both kinds. So many that no number holds it have no room.
fn all_structs(counts: &StructCounts) -> Result<usize, NoMemory>
    ensures { IfOk result (λ count. count ≡ counts.now.out_structs + counts.now.structs) }
{
    counts
        .out_structs
        .checked_add(counts.structs)
        .ok_or(AllocError)
}

/// The graph of structs of both kinds: an edge leads from each to those that it contains.
pub fn containment_graph<O: TyPosition, S: TyPosition>(
    alloc: Global,
    out_structs: &[StructDef<O>],
    structs: &[StructDef<S>],
) -> Result<Graph, NoMemory>
    ensures { IfOk result (λ graph. graph ≡ containment
        (each_contained O.StructPath.id_of out_structs.now)
        (each_contained S.StructPath.id_of structs.now)) }
{
    let counts = StructCounts {
        out_structs: out_structs.len(),
        structs: structs.len(),
    };
    let count = all_structs(&counts)?;
    let mut graph = Graph::new(alloc, count)?;
    add_structs(alloc, &mut graph, &counts, 0, out_structs)?;
    add_structs(alloc, &mut graph, &counts, counts.out_structs, structs)?;
    Ok(graph)
}
